//! Whether a space answers as a table says, and counts as brute force does.

use crate::enumeration::{all_plans, longest};
use crate::table::{Table, list_of};
use numbering::counting::count;
use numbering::refusal::Refusal;
use numbering::tally::Tally;
use spaces::kind::Kind;
use spaces::mask::KindMask;
use spaces::space::{Alternative, Space};
use spaces::table as tables;
use std::alloc::Global;
use std::process::Abort;
use std::test::Fail;

const MARK: Tally = Tally { count: 77, size: 7 };

/// What a mask leaves of a goal's list, against the kinds that it has.
fn same_kinds<S: Space>(
    rt: &impl Abort,
    heap: Global,
    space: &S,
    list: &[Alternative],
    goal: u16,
    bits: u8,
    kinds: &[Kind],
) -> Result<(), Fail> {
    let kept = space.list_of_kinds(goal, KindMask::new(bits)?, heap)?;
    let wanted = list
        .iter()
        .copied()
        .filter(|alternative| kinds.contains(&alternative.kind));
    assert_eq!(rt; kept.iter().copied().eq(wanted), true);
    Ok(())
}

/// Masks of a scan, of joins and a sort, and of nothing.
fn same_masks<S: Space>(
    rt: &impl Abort,
    heap: Global,
    space: &S,
    list: &[Alternative],
    goal: u16,
) -> Result<(), Fail> {
    let joins = [
        Kind::HashJoin,
        Kind::MergeJoin,
        Kind::NestedLoops,
        Kind::Sort,
    ];
    same_kinds(rt, heap, space, list, goal, 0b000_0001, &[Kind::Scan])?;
    same_kinds(rt, heap, space, list, goal, 0b101_1100, &joins)?;
    same_kinds(rt, heap, space, list, goal, 0, &[])
}

/// The list of a goal: one by one, past its end, by the iterator, in one piece, behind another, and what masks leave of it.
fn same_list<S: Space>(
    rt: &impl Abort,
    heap: Global,
    space: &S,
    table: &Table,
    goal: u16,
) -> Result<(), Fail> {
    let list = list_of(table, goal);
    assert_eq!(rt; space.width(goal) as usize, list.len());
    for (index, wanted) in (0..u32::MAX).zip(list.iter()) {
        assert_eq!(rt; space.alternative(goal, index), Some(*wanted));
    }
    if list.len() < 1_000_000 {
        assert_eq!(rt; space.alternative(goal, list.len() as u32), None);
    }
    assert_eq!(rt; space.alternative(goal, u32::MAX), None);
    assert_eq!(rt; space.alternatives(goal).eq(list.iter().copied()), true);
    let mut twice = space.list(goal, heap)?;
    assert_eq!(rt; twice.as_slice() == list, true);
    space.list_into(goal, &mut twice)?;
    assert_eq!(rt; twice.len() / 2, list.len());
    assert_eq!(rt; twice.starts_with(list) && twice.ends_with(list), true);
    same_masks(rt, heap, space, list, goal)
}

/// The questions, in and out of range.
pub fn same_space<S: Space>(
    rt: &impl Abort,
    heap: Global,
    space: &S,
    table: &Table,
) -> Result<(), Fail> {
    assert_eq!(rt; usize::from(space.goals()), table.lists.len());
    assert_eq!(rt; space.root(), table.root);
    for goal in 0..space.goals() {
        same_list(rt, heap, space, table, goal)?;
    }
    same_list(rt, heap, space, table, space.goals())?;
    same_list(rt, heap, space, table, u16::MAX)
}

/// The tally of every goal against its plans, and the entry past the last against what was there.
fn same_tallies(rt: &impl Abort, tallies: &[Tally], plans: &[Vec<Vec<numbering::node::Node>>]) {
    assert_eq!(rt; tallies.len(), plans.len() + 1);
    for (tally, found) in tallies.iter().zip(plans.iter()) {
        assert_eq!(rt; tally.count as usize, found.len());
        assert_eq!(rt; tally.size as usize, longest(found));
    }
    assert_eq!(rt; tallies.last().copied(), Some(MARK));
}

/// Counts against brute force: the answer, every tally, and a buffer that is one entry short. Tells whether it was compared.
pub fn same_count<S: Space>(
    rt: &impl Abort,
    heap: Global,
    space: &S,
    table: &Table,
) -> Result<bool, Fail> {
    let Some(plans) = all_plans(heap, table)? else {
        return Ok(false);
    };
    let mut tallies = vec![in heap; MARK; plans.len()]?;
    if plans.len() == 0 {
        assert_eq!(rt; count(space, &mut tallies), Err(Refusal::NoGoals));
        return Ok(true);
    }
    let mut short = vec![in heap; MARK; plans.len() - 1]?;
    assert_eq!(rt; count(space, &mut short), Err(Refusal::TalliesShort));
    for tally in short.iter() {
        assert_eq!(rt; *tally, MARK);
    }
    tallies.push(MARK)?;
    let root = table.root as usize;
    assert!(rt; root < plans.len());
    let wanted = (plans[root].len() as u64, longest(&plans[root]));
    let Ok((n, z)) = count(space, &mut tallies) else {
        return Err(Fail::new("count refused a small space"));
    };
    assert_eq!(rt; (n, z as usize), wanted);
    same_tallies(rt, &tallies, &plans);
    Ok(true)
}

/// Both, and the questions of a copy.
pub fn agrees<S: Space>(
    rt: &impl Abort,
    heap: Global,
    space: &S,
    table: &Table,
) -> Result<bool, Fail> {
    same_space(rt, heap, space, table)?;
    same_space(rt, heap, &tables::Table::copy(space, heap)?, table)?;
    same_count(rt, heap, space, table)
}
