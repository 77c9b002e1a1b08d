//! Numbers of plans against the enumeration: every plan of small spaces, every proper beginning of one, and lists with one node changed.

use crate::enumeration::{all_plans, longest};
use crate::generated::{Dice, any_table};
use crate::memo_files::{encoded, opened};
use crate::table::Table;
use crate::{layered, table};
use numbering::due::Due;
use numbering::node::Node;
use numbering::ranking::rank;
use numbering::refusal::Refusal;
use numbering::tally::Tally;
use numbering::unranking::unrank;
use spaces::bushy::Bushy;
use spaces::kind::Kind;
use spaces::order::{Order, OrderLayer};
use spaces::space::{Alternative, Space};
use std::alloc::{AllocError, Global};
use std::process::Abort;
use std::test::Fail;

/// Spaces with more plans than this are left to the counts.
const MANY: usize = 60;

pub const NO_NODE: Node = Node {
    goal: 9,
    alternative: Alternative {
        kind: Kind::Sort,
        tag: 9,
        left: 9,
        right: 9,
    },
};

/// Buffers for a space.
#[derive(Drop)]
pub struct Buffers {
    pub tallies: Vec<Tally>,
    pub work: Vec<Due>,
    pub plan: Vec<Node>,
}

pub fn make_buffers(
    heap: Global,
    goals: usize,
    work: usize,
    plan: usize,
) -> Result<Buffers, AllocError> {
    Ok(Buffers {
        tallies: vec![in heap; Tally::default(); goals]?,
        work: vec![in heap; Due::default(); work]?,
        plan: vec![in heap; NO_NODE; plan]?,
    })
}

pub fn common(a: &[Node], b: &[Node]) -> usize {
    a.iter().zip(b.iter()).take_while(|(x, y)| *x == *y).count()
}

/// What stands at a place of a list against the goal due there: none where both end.
fn misfit(due: Option<u16>, node: Option<Node>, place: usize) -> Option<Refusal> {
    match (due, node) {
        (Some(goal), Some(x)) => {
            if x.goal != goal {
                Some(Refusal::OtherGoal(place))
            } else {
                Some(Refusal::NoLiveAlternative(place))
            }
        }
        (Some(_), None) => Some(Refusal::ListEnds(place)),
        (None, Some(_)) => Some(Refusal::NodesFollow(place)),
        (None, None) => None,
    }
}

/// The number of a list, or why it is no plan, by comparing it with every plan: the longest common beginning, and the goal that follows it there.
pub fn wanted(list: &[Node], plans: &[Vec<Node>], root: u16) -> Result<u64, Refusal> {
    let mut place = 0;
    let mut due = Some(root);
    for plan in plans {
        let same = common(list, plan);
        if same >= place {
            place = same;
            due = plan.get(same).map(|node| node.goal);
        }
    }
    match misfit(due, list.get(place).copied(), place) {
        Some(refusal) => Err(refusal),
        None => Ok(index_of(list, plans)),
    }
}

/// The number of a list among the plans, as far as it is one of them.
fn index_of(list: &[Node], plans: &[Vec<Node>]) -> u64 {
    let index = plans.iter().position(|plan| plan.as_slice() == list);
    index.unwrap_or(0) as u64
}

fn ranks_as<S: Space>(
    rt: &impl Abort,
    space: &S,
    list: &[Node],
    wanted: Result<u64, Refusal>,
    b: &mut Buffers,
) {
    assert_eq!(rt; rank(space, list, &mut b.tallies, &mut b.work), wanted);
}

/// The list with one of its nodes changed.
fn changed<F: FnOnce(Node) -> Node>(
    heap: Global,
    list: &[Node],
    at: usize,
    change: F,
) -> Result<Vec<Node>, AllocError>
    requires { F.IsAlwaysCallable change }
{
    let mut copy = list.to_vec(heap)?;
    if let Some(node) = copy.get_mut(at) {
        *node = change(*node);
    }
    Ok(copy)
}

/// A node with another goal, another tag, or its children swapped.
fn with_goal(node: Node) -> Node {
    Node {
        goal: node.goal ^ 1,
        ..node
    }
}

fn with_tag(node: Node) -> Node {
    let alternative = Alternative {
        tag: node.alternative.tag ^ 1,
        ..node.alternative
    };
    Node {
        alternative,
        ..node
    }
}

fn swapped(node: Node) -> Node {
    let alternative = Alternative {
        left: node.alternative.right,
        right: node.alternative.left,
        ..node.alternative
    };
    Node {
        alternative,
        ..node
    }
}

/// Every beginning of a plan, the plan with one node changed, and the plan with a node more.
pub fn lists_near(heap: Global, plan: &[Node]) -> Result<Vec<Vec<Node>>, AllocError> {
    let mut lists = Vec::new(heap);
    for at in 0..plan.len() {
        lists.push(plan[0..at].to_vec(heap)?)?;
        lists.push(changed(heap, plan, at, with_goal)?)?;
        lists.push(changed(heap, plan, at, with_tag)?)?;
        lists.push(changed(heap, plan, at, swapped)?)?;
    }
    let mut more = plan.to_vec(heap)?;
    more.push(NO_NODE)?;
    lists.push(more)?;
    Ok(lists)
}

/// The lists near a plan, each ranked; the last has a node more than the plan.
fn near_agree<S: Space>(
    rt: &impl Abort,
    heap: Global,
    space: &S,
    plan: &[Node],
    plans: &[Vec<Node>],
    b: &mut Buffers,
) -> Result<(), Fail> {
    let lists = lists_near(heap, plan)?;
    for list in &lists {
        ranks_as(rt, space, list, wanted(list, plans, space.root()), b);
    }
    let Some(more) = lists.last() else {
        return Err(Fail::new("a plan with a node more is near it"));
    };
    ranks_as(rt, space, more, Err(Refusal::NodesFollow(plan.len())), b);
    Ok(())
}

/// Numbers past the last, and buffers one entry short.
fn past_and_short<S: Space>(
    rt: &impl Abort,
    heap: Global,
    space: &S,
    n: u64,
    z: usize,
    b: &mut Buffers,
) -> Result<(), Fail> {
    assert_eq!(rt;
        unrank(space, n, &mut b.tallies, &mut b.work, &mut b.plan),
        Err(Refusal::NoSuchPlan)
    );
    assert_eq!(rt;
        unrank(space, u64::MAX, &mut b.tallies, &mut b.work, &mut b.plan),
        Err(Refusal::NoSuchPlan)
    );
    if z == 0 {
        return Ok(());
    }
    let mut short = make_buffers(heap, b.tallies.len(), z - 1, z - 1)?;
    assert_eq!(rt;
        unrank(space, n, &mut b.tallies, &mut short.work, &mut short.plan),
        Err(Refusal::WorkShort)
    );
    assert_eq!(rt;
        unrank(space, n, &mut b.tallies, &mut b.work, &mut short.plan),
        Err(Refusal::PlanShort)
    );
    assert_eq!(rt;
        rank(space, &[], &mut b.tallies, &mut short.work),
        Err(Refusal::WorkShort)
    );
    Ok(())
}

/// Every plan in number order, there and back, with the rest of the plan buffer untouched.
fn numbers_agree<S: Space>(
    rt: &impl Abort,
    heap: Global,
    space: &S,
    table: &Table,
) -> Result<bool, Fail> {
    let Some(all) = all_plans(heap, table)? else {
        return Ok(false);
    };
    let root = table.root as usize;
    if root >= all.len() || all[root].len() > MANY {
        return Ok(false);
    }
    let plans = &all[root];
    let z = longest(plans);
    let mut b = make_buffers(heap, all.len(), z, z.saturating_add(1))?;
    let n = plans.len() as u64;
    for (number, plan) in (0..n).zip(plans.iter()) {
        assert_eq!(rt;
            unrank(space, number, &mut b.tallies, &mut b.work, &mut b.plan),
            Ok(plan.len())
        );
        assert_eq!(rt; common(plan, &b.plan), plan.len());
        assert_eq!(rt; b.plan.last().copied(), Some(NO_NODE));
        assert_eq!(rt; rank(space, plan, &mut b.tallies, &mut b.work), Ok(number));
        near_agree(rt, heap, space, plan, plans, &mut b)?;
    }
    ranks_as(rt, space, &[], wanted(&[], plans, space.root()), &mut b);
    past_and_short(rt, heap, space, n, z, &mut b)?;
    Ok(true)
}

#[test]
fn numbers_of_memos(rt: HostRuntime) -> Result<(), Fail> {
    let heap = rt.alloc();
    let mut dice = Dice(7);
    let mut compared = 0u32;
    for _ in 0..100u32 {
        let table = any_table(heap, &mut dice)?;
        let file = encoded(heap, &table)?;
        compared = compared.saturating_add(
            numbers_agree(&rt, heap, &opened(&rt, heap, &file), &table)? as u32,
        );
        let ordered = layered::order(heap, &table, true)?;
        let layer = OrderLayer::new(opened(&rt, heap, &file), Order::Sorted);
        compared = compared.saturating_add(numbers_agree(&rt, heap, &layer, &ordered)? as u32);
    }
    assert!(rt; compared > 100, "most spaces are small enough to number");
    Ok(())
}

#[test]
fn numbers_of_bushy_trees(rt: HostRuntime) -> Result<(), Fail> {
    let heap = rt.alloc();
    for relations in 1..4u16 {
        let space = Bushy::new(relations as u64, Kind::HashJoin)?;
        let wanted = table::bushy(heap, relations, Kind::HashJoin)?;
        assert_eq!(rt; numbers_agree(&rt, heap, &space, &wanted)?, true);
    }
    Ok(())
}
