//! What a campaign over the rows engine should come to, worked out plan by plan.

use crate::enumeration::children;
use campaigns::counts::Counts;
use numbering::node::Node;
use spaces::kind::Kind;
use std::alloc::{AllocError, Global};

/// Row counts of relations 0 to 2: a scan of relation 2 is a fault, since it has no entry.
pub const ROWS: [u64; 2] = [6, 7];

/// How many rows a node gives: none for a fault, which has the number in the error.
fn node_rows(node: Node, left: u64, right: u64) -> Result<u64, u8> {
    let tag = node.alternative.tag;
    let rows = match node.alternative.kind {
        Kind::Scan | Kind::IndexScan => { *ROWS.get(usize::from(tag)).ok_or(1)? }
        Kind::HashJoin | Kind::MergeJoin | Kind::NestedLoops => left.saturating_mul(right),
        Kind::Filter => left / (tag as u64).saturating_add(1).max(1),
        Kind::Sort => left,
    };
    if rows > 1_000_000_000_000_000_000 {
        Err(2)
    } else {
        Ok(rows)
    }
}

/// A plan's rows, from its last node to its first.
fn plan_rows(heap: Global, plan: &[Node]) -> Result<Result<u64, u8>, AllocError> {
    let mut done: Vec<u64> = Vec::new(heap);
    for node in plan.iter().rev() {
        let arity = children(node.alternative.kind);
        let left = if arity >= 1 {
            done.pop().unwrap_or(0)
        } else {
            0
        };
        let right = if arity == 2 {
            done.pop().unwrap_or(0)
        } else {
            0
        };
        match node_rows(*node, left, right) {
            Ok(rows) => done.push(rows)?,
            Err(fault) => return Ok(Err(fault)),
        }
    }
    Ok(Ok(done.pop().unwrap_or(0)))
}

/// What a campaign should come to: its counts, its finds, and the number of the refusal that it stops with.
#[derive(Drop)]
pub struct Ending {
    pub counts: Counts,
    pub finds: Vec<u64>,
    pub refusal: u8,
}

/// One plan more: whether there is room for it.
fn settle(
    ending: &mut Ending,
    number: u64,
    base: u64,
    rows: Result<u64, u8>,
    room: usize,
) -> Result<bool, AllocError> {
    ending.counts.drawn = ending.counts.drawn.saturating_add(1);
    match rows {
        Err(_) => ending.counts.faulted = ending.counts.faulted.saturating_add(1),
        Ok(rows) => {
            if rows == base {
                ending.counts.agreed = ending.counts.agreed.saturating_add(1);
            } else if ending.finds.len() >= room {
                ending.refusal = 30;
                return Ok(false);
            } else {
                ending.counts.differing = ending.counts.differing.saturating_add(1);
                ending.finds.push(number)?;
            }
        }
    }
    Ok(true)
}

/// The end of a campaign over these plans with room for so many finds.
pub fn ending_of(
    heap: Global,
    plans: &[Vec<Node>],
    start: u64,
    step: u64,
    baseline: u64,
    room: usize,
) -> Result<Ending, AllocError> {
    let mut ending = Ending {
        counts: Counts::default(),
        finds: Vec::new(heap),
        refusal: 28,
    };
    let mut number = start;
    for _ in 0..plans.len() {
        if baseline as usize >= plans.len() || number as usize >= plans.len() {
            return Ok(ending);
        }
        let Ok(base) = plan_rows(heap, &plans[baseline as usize])? else {
            ending.counts.drawn = 1;
            ending.refusal = 29;
            return Ok(ending);
        };
        let rows = plan_rows(heap, &plans[number as usize])?;
        if !settle(&mut ending, number, base, rows, room)? {
            return Ok(ending);
        }
        number = number.saturating_add(step) % plans.len() as u64;
    }
    Ok(ending)
}
