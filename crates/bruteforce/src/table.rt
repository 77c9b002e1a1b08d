//! A plan space as a plain table, and the spaces that are defined by rules, put down by brute force.

use spaces::kind::Kind;
use spaces::space::Alternative;
use std::alloc::{AllocError, Global};

#[derive(Drop)]
pub struct Table {
    pub root: u16,
    pub lists: Vec<Vec<Alternative>>,
}

/// The alternatives of a goal: none past the last. Apart from the code under test, as all of this table is.
pub fn list_of(table: &Table, goal: u16) -> &[Alternative] {
    match table.lists.get(usize::from(goal)) {
        Some(list) => list,
        None => &[],
    }
}

/// All splits of a set of relations in two, by looking at every smaller mask.
fn splits(heap: Global, mask: u16, join: Kind) -> Result<Vec<Alternative>, AllocError> {
    (1..mask)
        .filter(|left| left & mask == *left)
        .map(|left| Alternative {
            kind: join,
            tag: 0,
            left,
            right: mask ^ left,
        })
        .collect(heap)
}

/// The scan of a relation.
pub fn scan(tag: u16) -> Alternative {
    Alternative {
        kind: Kind::Scan,
        tag,
        left: 0,
        right: 0,
    }
}

/// The one relation of a mask, if it is one of the first sixteen alone.
fn single(mask: u16) -> Option<u16> {
    (0..16u16).find(|relation| mask == 1 << *relation)
}

/// All bushy trees over some relations, at most 6.
pub fn bushy(heap: Global, relations: u16, join: Kind) -> Result<Table, AllocError> {
    let mut lists = Vec::new(heap);
    let goals: u16 = if relations < 7 { 1 << relations } else { 0 };
    for mask in 0..goals {
        lists.push(match single(mask) {
            Some(relation) => vec![in heap; scan(relation); 1]?,
            None => splits(heap, mask, join)?,
        })?;
    }
    Ok(Table {
        root: goals.saturating_sub(1),
        lists,
    })
}
