//! Memo files put together byte by byte.

use crate::enumeration::children;
use crate::table::Table;
use memos::memo::Memo;
use memos::refusal::OpenRefusal;
use spaces::kind::Kind;
use spaces::space::Alternative;
use std::alloc::{AllocError, Global};
use std::process::Abort;

/// The worked memo: three goals, the third joins the first two.
pub const WORKED: [u8; 37] = [
    0x01, 0x03, 0x00, 0x05, 0x00, 0x00, 0x01, 0x00, 0x06, 0x01, 0x01, 0x00, 0x05, 0x01, 0x00, 0x02,
    0x00, 0x1B, 0x02, 0x00, 0x02, 0x00, 0x00, 0x01, 0x00, 0x1A, 0x02, 0x01, 0x00, 0x00, 0x00, 0x1A,
    0x03, 0x00, 0x00, 0x01, 0x00,
];

fn number_of(kind: Kind) -> u8 {
    match kind {
        Kind::Scan => 0,
        Kind::IndexScan => 1,
        Kind::HashJoin => 2,
        Kind::MergeJoin => 3,
        Kind::NestedLoops => 4,
        Kind::Filter => 5,
        Kind::Sort => 6,
    }
}

fn put_two(file: &mut Vec<u8>, n: u16) -> Result<(), AllocError> {
    file.push((n % 256) as u8)?;
    file.push((n / 256) as u8)?;
    Ok(())
}

/// One record; `goal` is written where it is given.
pub fn put_record(file: &mut Vec<u8>, goal: Option<u16>, a: Alternative) -> Result<(), AllocError> {
    let kind = number_of(a.kind);
    let arity = children(a.kind);
    let mut bits = 0u8;
    bits |= u8::from(goal.is_some());
    bits |= u8::from(kind != 0) * 2;
    bits |= u8::from(a.tag != 0) * 4;
    bits |= u8::from(arity >= 1) * 8;
    bits |= u8::from(arity == 2) * 16;
    file.push(bits)?;
    if let Some(g) = goal {
        put_two(file, g)?;
    }
    if kind != 0 {
        file.push(kind)?;
    }
    if a.tag != 0 {
        put_two(file, a.tag)?;
    }
    if arity >= 1 {
        put_two(file, a.left)?;
    }
    if arity == 2 {
        put_two(file, a.right)?;
    }
    Ok(())
}

/// The header: the root is written unless it is the last goal.
pub fn put_header(file: &mut Vec<u8>, goals: u16, root: u16) -> Result<(), AllocError> {
    let written = root.saturating_add(1) != goals;
    file.push(1 + 2 * written as u8)?;
    put_two(file, goals)?;
    if written {
        put_two(file, root)?;
    }
    Ok(())
}

/// The records of one goal.
fn put_goal(file: &mut Vec<u8>, goal: u16, list: &[Alternative]) -> Result<(), AllocError> {
    let mut first = Some(goal);
    for alternative in list {
        put_record(file, first.take(), *alternative)?;
    }
    Ok(())
}

/// The memo file of a table.
pub fn encoded(heap: Global, table: &Table) -> Result<Vec<u8>, AllocError> {
    let mut file = Vec::new(heap);
    put_header(&mut file, table.lists.len().min(4096) as u16, table.root)?;
    for (goal, list) in (0..4096u16).zip(table.lists.iter()) {
        put_goal(&mut file, goal, list)?;
    }
    Ok(file)
}

/// A view of a file that has to open.
pub fn opened(rt: &impl Abort, heap: Global, file: &[u8]) -> Memo {
    let mut memo = Memo::empty(heap);
    assert_eq!(rt; memo.open(file), Ok(()));
    memo
}
