//! Memo files: generated ones, damaged ones for every refusal with its place, and one cut at each byte.

use crate::agreement::{agrees, same_space};
use crate::generated::{Dice, any_table};
use crate::layered;
use crate::memo_files::{WORKED, encoded, opened, put_header, put_record};
use crate::table::{Table, scan};
use memos::memo::Memo;
use memos::refusal::OpenRefusal;
use spaces::filter::KindFilter;
use spaces::kind::Kind;
use spaces::mask::KindMask;
use spaces::order::{Order, OrderLayer};
use spaces::refusal::MakeRefusal;
use spaces::space::{Alternative, Space};
use std::alloc::Global;
use std::process::Abort;
use std::test::Fail;

const SCAN: Alternative = Alternative {
    kind: Kind::Scan,
    tag: 1,
    left: 0,
    right: 0,
};

/// The worked memo as a table, written down by hand.
pub fn worked_table(heap: Global) -> Result<Table, Fail> {
    let mut first = Vec::new(heap);
    first.push(SCAN)?;
    first.push(Alternative {
        kind: Kind::IndexScan,
        ..SCAN
    })?;
    let mut second = Vec::new(heap);
    second.push(Alternative { tag: 2, ..SCAN })?;
    let mut third = Vec::new(heap);
    let join = Alternative {
        kind: Kind::HashJoin,
        tag: 0,
        left: 0,
        right: 1,
    };
    third.push(join)?;
    third.push(Alternative {
        left: 1,
        right: 0,
        ..join
    })?;
    third.push(Alternative {
        kind: Kind::MergeJoin,
        ..join
    })?;
    let mut lists = Vec::new(heap);
    lists.push(first)?;
    lists.push(second)?;
    lists.push(third)?;
    Ok(Table { root: 2, lists })
}

#[test]
fn worked(rt: HostRuntime) -> Result<(), Fail> {
    let heap = rt.alloc();
    let table = worked_table(heap)?;
    assert_eq!(rt;
        agrees(&rt, heap, &opened(&rt, heap, &WORKED), &table)?,
        true
    );
    assert_eq!(rt;
        agrees(
            &rt,
            heap,
            &Memo::empty(heap),
            &Table {
                root: 0,
                lists: Vec::new(heap),
            },
        )?,
        true
    );
    Ok(())
}

/// A memo under an order and under filters of every sort, each against its table.
fn layers_agree(
    rt: &impl Abort,
    heap: Global,
    table: &Table,
    file: &[u8],
    wish: bool,
) -> Result<(), Fail> {
    let order = if wish { Order::Sorted } else { Order::Any };
    let ordered = layered::order(heap, table, wish)?;
    let _ = agrees(
        rt,
        heap,
        &OrderLayer::new(opened(rt, heap, file), order),
        &ordered,
    )?;
    // H, M, L, F and O stay
    let mask = KindMask::new(0b111_1100)?;
    let letters = [
        Kind::HashJoin,
        Kind::MergeJoin,
        Kind::NestedLoops,
        Kind::Filter,
        Kind::Sort,
    ];
    let above = layered::only(heap, &ordered, &letters)?;
    let _ = agrees(
        rt,
        heap,
        &KindFilter::new(OrderLayer::new(opened(rt, heap, file), order), mask),
        &above,
    )?;
    // S, I, M and F stay
    let mask = KindMask::new(0b010_1011)?;
    let below = layered::only(
        heap,
        table,
        &[Kind::Scan, Kind::IndexScan, Kind::MergeJoin, Kind::Filter],
    )?;
    let _ = agrees(
        rt,
        heap,
        &KindFilter::new(opened(rt, heap, file), mask),
        &below,
    )?;
    let piled = layered::order(heap, &below, wish)?;
    let _ = agrees(
        rt,
        heap,
        &OrderLayer::new(KindFilter::new(opened(rt, heap, file), mask), order),
        &piled,
    )?;
    Ok(())
}

#[test]
fn generated(rt: HostRuntime) -> Result<(), Fail> {
    let heap = rt.alloc();
    let mut dice = Dice(1);
    let mut compared = 0u32;
    let mut memo = Memo::empty(heap);
    for turn in 0..150u32 {
        let table = any_table(heap, &mut dice)?;
        let file = encoded(heap, &table)?;
        assert_eq!(rt; memo.open(&file), Ok(()));
        compared = compared.saturating_add(agrees(&rt, heap, &memo, &table)? as u32);
        layers_agree(&rt, heap, &table, &file, turn % 2 == 0)?;
    }
    assert!(rt; compared > 100, "most spaces are small enough to enumerate");
    Ok(())
}

/// Bytes after a header of three goals, and what they are refused with.
fn refused(rt: &impl Abort, memo: &mut Memo, file: &[u8], wanted: OpenRefusal) {
    assert_eq!(rt; memo.open(file), Err(wanted));
}

#[test]
fn damaged_headers(rt: HostRuntime) -> Result<(), Fail> {
    let heap = rt.alloc();
    let mut memo = opened(&rt, heap, &WORKED);
    refused(&rt, &mut memo, &[], OpenRefusal::HeaderEnds);
    refused(&rt, &mut memo, &[0x00, 0x03, 0x00], OpenRefusal::HeaderBits);
    refused(&rt, &mut memo, &[0x05, 0x03, 0x00], OpenRefusal::HeaderBits);
    refused(&rt, &mut memo, &[0x02], OpenRefusal::HeaderBits);
    refused(&rt, &mut memo, &[0x01, 0x03], OpenRefusal::HeaderEnds);
    refused(
        &rt,
        &mut memo,
        &[0x03, 0x03, 0x00, 0x01],
        OpenRefusal::HeaderEnds,
    );
    refused(&rt, &mut memo, &[0x01, 0x00, 0x00], OpenRefusal::GoalCount);
    refused(&rt, &mut memo, &[0x01, 0x01, 0x10], OpenRefusal::GoalCount);
    refused(
        &rt,
        &mut memo,
        &[0x03, 0x03, 0x00, 0x02, 0x00],
        OpenRefusal::RootWritten,
    );
    refused(
        &rt,
        &mut memo,
        &[0x03, 0x03, 0x00, 0x00, 0x01],
        OpenRefusal::RootWritten,
    );
    let long = vec![in heap; 0u8; 60_001]?;
    refused(&rt, &mut memo, &long, OpenRefusal::LongFile);
    let edge = vec![in heap; 0u8; 60_000]?;
    refused(&rt, &mut memo, &edge, OpenRefusal::HeaderBits);
    same_space(&rt, heap, &memo, &worked_table(heap)?)?;
    assert_eq!(rt; memo.open(&[0x01, 0x00, 0x10]), Ok(()));
    assert_eq!(rt; memo.goals(), 4096);
    assert_eq!(rt; memo.open(&[0x03, 0x03, 0x00, 0x01, 0x00]), Ok(()));
    assert_eq!(rt; memo.root(), 1);
    Ok(())
}

#[test]
fn damaged_records(rt: HostRuntime) -> Result<(), Fail> {
    let heap = rt.alloc();
    let mut memo = opened(&rt, heap, &WORKED);
    let m = &mut memo;
    refused(&rt, m, &[1, 3, 0, 0x20], OpenRefusal::RecordBits(3));
    refused(
        &rt,
        m,
        &[1, 3, 0, 0x05, 0, 0, 1],
        OpenRefusal::RecordEnds(3),
    );
    refused(&rt, m, &[1, 3, 0, 0x04, 1, 0], OpenRefusal::GoalOrder(3));
    refused(
        &rt,
        m,
        &[1, 3, 0, 0x05, 3, 0, 1, 0],
        OpenRefusal::GoalOrder(3),
    );
    refused(
        &rt,
        m,
        &[1, 3, 0, 0x05, 1, 0, 1, 0, 0x05, 1, 0, 2, 0],
        OpenRefusal::GoalOrder(8),
    );
    refused(&rt, m, &[1, 3, 0, 0x03, 0, 0, 7], OpenRefusal::NoKind(3));
    refused(&rt, m, &[1, 3, 0, 0x03, 0, 0, 0], OpenRefusal::NoKind(3));
    refused(
        &rt,
        m,
        &[1, 3, 0, 0x09, 1, 0, 0, 0],
        OpenRefusal::ChildBits(3),
    );
    refused(
        &rt,
        m,
        &[1, 3, 0, 0x0B, 1, 0, 2, 0, 0],
        OpenRefusal::ChildBits(3),
    );
    refused(
        &rt,
        m,
        &[1, 3, 0, 0x1B, 1, 0, 5, 0, 0, 0, 0],
        OpenRefusal::ChildBits(3),
    );
    refused(
        &rt,
        m,
        &[1, 3, 0, 0x05, 0, 0, 0, 0],
        OpenRefusal::ZeroTag(3),
    );
    refused(
        &rt,
        m,
        &[1, 3, 0, 0x0B, 1, 0, 5, 1, 0],
        OpenRefusal::ChildOrder(3),
    );
    refused(
        &rt,
        m,
        &[1, 3, 0, 0x1B, 1, 0, 2, 0, 0, 1, 0],
        OpenRefusal::ChildOrder(3),
    );
    refused(
        &rt,
        m,
        &[1, 3, 0, 0x05, 1, 0, 1, 0, 0x04, 2, 0, 0x04, 1, 0],
        OpenRefusal::Repeated(11),
    );
    // where several rules are broken, the first counts
    refused(
        &rt,
        m,
        &[1, 3, 0, 0x2B, 9, 0, 9],
        OpenRefusal::RecordBits(3),
    );
    refused(
        &rt,
        m,
        &[1, 3, 0, 0x0F, 9, 0, 9, 0, 0, 9],
        OpenRefusal::RecordEnds(3),
    );
    refused(
        &rt,
        m,
        &[1, 3, 0, 0x0F, 9, 0, 9, 0, 0, 9, 9],
        OpenRefusal::GoalOrder(3),
    );
    refused(
        &rt,
        m,
        &[1, 3, 0, 0x0F, 1, 0, 9, 0, 0, 9, 9],
        OpenRefusal::NoKind(3),
    );
    refused(
        &rt,
        m,
        &[1, 3, 0, 0x0F, 1, 0, 2, 0, 0, 9, 9],
        OpenRefusal::ChildBits(3),
    );
    refused(
        &rt,
        m,
        &[1, 3, 0, 0x0F, 1, 0, 5, 0, 0, 9, 9],
        OpenRefusal::ZeroTag(3),
    );
    refused(
        &rt,
        m,
        &[1, 3, 0, 0x0F, 1, 0, 5, 1, 0, 9, 9],
        OpenRefusal::ChildOrder(3),
    );
    same_space(&rt, heap, &memo, &worked_table(heap)?)?;
    Ok(())
}

/// A memo of one goal with scans of tags 1 to `records`.
fn scans(heap: Global, records: u16) -> Result<Vec<u8>, Fail> {
    let mut file = Vec::new(heap);
    put_header(&mut file, 1, 0)?;
    for tag in 1..=records {
        put_record(&mut file, (tag == 1).then_some(0), scan(tag))?;
    }
    Ok(file)
}

#[test]
fn many_records(rt: HostRuntime) -> Result<(), Fail> {
    let heap = rt.alloc();
    let most = opened(&rt, heap, &scans(heap, 4096)?);
    assert_eq!(rt; most.width(0), 4096);
    let mut memo = Memo::empty(heap);
    let file = scans(heap, 4097)?;
    // the header has 3 bytes, the first record 5 and each other one 3
    refused(
        &rt,
        &mut memo,
        &file,
        OpenRefusal::ManyRecords(3 + 5 + 4095 * 3),
    );
    assert_eq!(rt; memo.goals(), 0);
    Ok(())
}

/// The worked memo cut after each number of bytes: at a record's end it opens, inside a record it is refused there.
#[test]
fn cut_at_each_byte(rt: HostRuntime) {
    let heap = rt.alloc();
    let ends = [3usize, 8, 12, 17, 25, 31, 37];
    let mut memo = Memo::empty(heap);
    for cut in 0..37usize {
        let file = &WORKED[0..cut];
        if cut < 3 {
            refused(&rt, &mut memo, file, OpenRefusal::HeaderEnds);
        } else if ends.contains(&cut) {
            assert_eq!(rt; memo.open(file), Ok(()));
        } else {
            let at = ends.iter().copied().filter(|end| *end < cut).max();
            refused(
                &rt,
                &mut memo,
                file,
                OpenRefusal::RecordEnds(at.unwrap_or(0)),
            );
        }
    }
}
