//! All plans of a table, written out in the order of their numbers.

use crate::table::Table;
use numbering::node::Node;
use spaces::kind::Kind;
use spaces::space::Alternative;
use std::alloc::{AllocError, Global};

/// More plans than this and the space is not enumerated.
const MANY: usize = 3000;

/// How many children an operator of a kind has, not asked of the code under test.
pub fn children(kind: Kind) -> u8 {
    match kind {
        Kind::Scan | Kind::IndexScan => 0,
        Kind::Filter | Kind::Sort => 1,
        Kind::HashJoin | Kind::MergeJoin | Kind::NestedLoops => 2,
    }
}

/// One plan: a node over a left and a right part.
fn joined(
    heap: Global,
    node: Node,
    left: &[Node],
    right: &[Node],
) -> Result<Vec<Node>, AllocError> {
    let mut plan = Vec::new(heap);
    plan.push(node)?;
    plan.extend_from_slice(left)?;
    plan.extend_from_slice(right)?;
    Ok(plan)
}

/// All plans of an alternative: the left part turns fastest.
fn add_plans(
    heap: Global,
    node: Node,
    lefts: &[Vec<Node>],
    rights: &[Vec<Node>],
    out: &mut Vec<Vec<Node>>,
) -> Result<(), AllocError> {
    for right in rights {
        for left in lefts {
            out.push(joined(heap, node, left, right)?)?;
        }
    }
    Ok(())
}

fn due<'a>(
    plans: &'a [Vec<Vec<Node>>],
    nothing: &'a [Vec<Node>],
    has: bool,
    goal: u16,
) -> &'a [Vec<Node>] {
    if !has {
        return nothing;
    }
    match plans.get(usize::from(goal)) {
        Some(found) => found,
        None => &[],
    }
}

fn goal_plans(
    heap: Global,
    goal: u16,
    list: &[Alternative],
    below: &[Vec<Vec<Node>>],
) -> Result<Option<Vec<Vec<Node>>>, AllocError> {
    let mut nothing = Vec::new(heap);
    nothing.push(Vec::new(heap))?;
    let mut out = Vec::new(heap);
    for alternative in list {
        let node = Node {
            goal,
            alternative: *alternative,
        };
        let arity = children(alternative.kind);
        let lefts = due(below, &nothing, arity >= 1, alternative.left);
        let rights = due(below, &nothing, arity == 2, alternative.right);
        if lefts.len().saturating_mul(rights.len()) > MANY || out.len() > MANY {
            return Ok(None);
        }
        add_plans(heap, node, lefts, rights, &mut out)?;
    }
    Ok(Some(out))
}

/// The plans of every goal, or none where a goal has too many.
pub fn all_plans(heap: Global, table: &Table) -> Result<Option<Vec<Vec<Vec<Node>>>>, AllocError> {
    let mut plans: Vec<Vec<Vec<Node>>> = Vec::new(heap);
    for (goal, list) in (0..=4096u16).zip(table.lists.iter()) {
        let Some(found) = goal_plans(heap, goal, list, &plans)? else {
            return Ok(None);
        };
        plans.push(found)?;
    }
    Ok(Some(plans))
}

/// The length of the longest of some plans.
pub fn longest(plans: &[Vec<Node>]) -> usize {
    plans.iter().map(|plan| plan.len()).max().unwrap_or(0)
}
