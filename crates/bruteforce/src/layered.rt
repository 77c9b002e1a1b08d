//! The layers over a table, by their rules.

use crate::table::Table;
use spaces::kind::Kind;
use spaces::space::Alternative;
use std::alloc::{AllocError, Global};

/// Only the alternatives whose letter is among these.
pub fn only(heap: Global, table: &Table, letters: &[Kind]) -> Result<Table, AllocError> {
    let mut lists = Vec::new(heap);
    for below in table.lists.iter() {
        let list = below
            .iter()
            .copied()
            .filter(|alternative| letters.contains(&alternative.kind))
            .collect(heap)?;
        lists.push(list)?;
    }
    Ok(Table {
        root: table.root,
        lists,
    })
}

fn doubled(goal: u16, sorted: bool) -> u16 {
    goal.saturating_mul(2).saturating_add(sorted as u16)
}

/// What the children of an operator become where its own output is wanted in any order, and where it is wanted sorted: none where it cannot be.
fn in_any_order(a: Alternative) -> Alternative {
    let (left, right) = match a.kind {
        Kind::Scan | Kind::IndexScan => (0, 0),
        Kind::HashJoin | Kind::NestedLoops => (doubled(a.left, false), doubled(a.right, false)),
        Kind::MergeJoin => (doubled(a.left, true), doubled(a.right, true)),
        Kind::Filter | Kind::Sort => (doubled(a.left, false), 0),
    };
    Alternative {
        kind: a.kind,
        tag: a.tag,
        left,
        right,
    }
}

fn sorted(a: Alternative) -> Option<Alternative> {
    let (left, right) = match a.kind {
        Kind::Scan | Kind::HashJoin => return None,
        Kind::IndexScan => (0, 0),
        Kind::MergeJoin => (doubled(a.left, true), doubled(a.right, true)),
        Kind::NestedLoops => (doubled(a.left, true), doubled(a.right, false)),
        Kind::Filter => (doubled(a.left, true), 0),
        Kind::Sort => (doubled(a.left, false), 0),
    };
    Some(Alternative {
        kind: a.kind,
        tag: a.tag,
        left,
        right,
    })
}

fn both_lists(
    heap: Global,
    goal: u16,
    below: &[Alternative],
) -> Result<(Vec<Alternative>, Vec<Alternative>), AllocError> {
    let any = below
        .iter()
        .map(|alternative| in_any_order(*alternative))
        .collect(heap)?;
    let mut ordered: Vec<Alternative> = below
        .iter()
        .filter_map(|alternative| sorted(*alternative))
        .collect(heap)?;
    ordered.push(Alternative {
        kind: Kind::Sort,
        tag: 0,
        left: doubled(goal, false),
        right: 0,
    })?;
    Ok((any, ordered))
}

/// Every goal in any order and sorted, with the root in the wished order.
pub fn order(heap: Global, table: &Table, wish: bool) -> Result<Table, AllocError> {
    let mut lists = Vec::new(heap);
    if table.lists.len() == 0 || table.lists.len() > 2048 {
        return Ok(Table { root: 0, lists });
    }
    for (goal, below) in (0..2048u16).zip(table.lists.iter()) {
        let (any, ordered) = both_lists(heap, goal, below)?;
        lists.push(any)?;
        lists.push(ordered)?;
    }
    Ok(Table {
        root: doubled(table.root, wish),
        lists,
    })
}
