//! The computed spaces and the layers over them.

use crate::agreement::agrees;
use crate::{layered, table};
use spaces::bushy::Bushy;
use spaces::filter::KindFilter;
use spaces::kind::{Kind, NoSuchKind};
use spaces::mask::KindMask;
use spaces::order::{Order, OrderLayer};
use spaces::refusal::MakeRefusal;
use std::test::Fail;

#[test]
fn bushy_spaces(rt: HostRuntime) -> Result<(), Fail> {
    let heap = rt.alloc();
    for relations in 1..6u16 {
        let space = Bushy::new(relations as u64, Kind::HashJoin)?;
        let wanted = table::bushy(heap, relations, Kind::HashJoin)?;
        assert_eq!(rt; agrees(&rt, heap, &space, &wanted)?, true);
    }
    Ok(())
}

#[test]
fn layered_bushy_spaces(rt: HostRuntime) -> Result<(), Fail> {
    let heap = rt.alloc();
    for (kind, wish) in [
        (Kind::MergeJoin, true),
        (Kind::NestedLoops, true),
        (Kind::MergeJoin, false),
    ] {
        let order = if wish { Order::Sorted } else { Order::Any };
        for relations in 1..4u16 {
            let space = Bushy::new(relations as u64, kind)?;
            let bare = table::bushy(heap, relations, kind)?;
            let ordered = layered::order(heap, &bare, wish)?;
            assert_eq!(rt;
                agrees(&rt, heap, &OrderLayer::new(space, order), &ordered)?,
                true
            );
            let mask = KindMask::new(0b100_1001)?;
            let only = layered::only(heap, &ordered, &[Kind::Scan, Kind::MergeJoin, Kind::Sort])?;
            assert_eq!(rt;
                agrees(
                    &rt,
                    heap,
                    &KindFilter::new(OrderLayer::new(space, order), mask),
                    &only,
                )?,
                true
            );
        }
    }
    Ok(())
}

fn refusal_of_bushy(relations: u64, join: Kind) -> Option<MakeRefusal> {
    Bushy::new(relations, join).err()
}

#[test]
fn refused_makings(rt: HostRuntime) {
    assert_eq!(rt;
        refusal_of_bushy(0, Kind::HashJoin),
        Some(MakeRefusal::Relations)
    );
    assert_eq!(rt;
        refusal_of_bushy(11, Kind::Scan),
        Some(MakeRefusal::Relations)
    );
    assert_eq!(rt;
        refusal_of_bushy(u64::MAX, Kind::HashJoin),
        Some(MakeRefusal::Relations)
    );
    assert_eq!(rt; refusal_of_bushy(10, Kind::Scan), Some(MakeRefusal::NoJoin));
    assert_eq!(rt; refusal_of_bushy(10, Kind::Sort), Some(MakeRefusal::NoJoin));
    assert_eq!(rt; refusal_of_bushy(10, Kind::NestedLoops), None);
    assert_eq!(rt; KindMask::new(127).is_ok(), true);
    assert_eq!(rt; KindMask::new(128).is_ok(), false);
    assert_eq!(rt; KindMask::new(255).is_ok(), false);
}

#[test]
fn letters_and_numbers(rt: HostRuntime) {
    let kinds = [
        Kind::Scan,
        Kind::IndexScan,
        Kind::HashJoin,
        Kind::MergeJoin,
        Kind::NestedLoops,
        Kind::Filter,
        Kind::Sort,
    ];
    for ((letter, kind), number) in b"SIHMLFO".iter().zip(kinds.iter()).zip(0..7u8) {
        assert_eq!(rt; kind.letter(), *letter);
        assert_eq!(rt; u8::from(*kind), number);
        assert_eq!(rt; Kind::from_letter(*letter), Some(*kind));
        assert_eq!(rt; Kind::try_from(number), Ok(*kind));
    }
    assert_eq!(rt; Kind::try_from(7), Err(NoSuchKind(7)));
    assert_eq!(rt; Kind::try_from(255), Err(NoSuchKind(255)));
    assert_eq!(rt; Kind::from_letter(b's'), None);
    assert_eq!(rt; Kind::from_letter(0), None);
}
