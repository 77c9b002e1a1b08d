//! The edges: 10^18 plans and one more, 1,024 nodes and one more, 2,048 goals under an order and one more.

use crate::memo_files::{opened, put_header, put_record};
use crate::number_tests::make_buffers;
use crate::table::scan;
use memos::memo::Memo;
use numbering::counting::count;
use numbering::ranking::rank;
use numbering::refusal::Refusal;
use numbering::tally::Tally;
use numbering::unranking::unrank;
use spaces::kind::Kind;
use spaces::order::{Order, OrderLayer};
use spaces::space::{Alternative, Space};
use std::alloc::Global;
use std::test::Fail;

fn join(left: u16, right: u16) -> Alternative {
    Alternative {
        kind: Kind::HashJoin,
        tag: 0,
        left,
        right,
    }
}

/// Ten scans, and joins that square the count: goals of 10, 10^2, 10^4, 10^8, 10^16 and 10^18 plans, the last with one scan more where asked.
fn powers(heap: Global, one_more: bool) -> Result<Vec<u8>, Fail> {
    let mut file = Vec::new(heap);
    put_header(&mut file, 6, 5)?;
    put_record(&mut file, Some(0), scan(0))?;
    for tag in 1..10u16 {
        put_record(&mut file, None, scan(tag))?;
    }
    for goal in 1..5u16 {
        put_record(&mut file, Some(goal), join(goal - 1, goal - 1))?;
    }
    put_record(&mut file, Some(5), join(4, 1))?;
    if one_more {
        put_record(&mut file, None, scan(0))?;
    }
    Ok(file)
}

#[test]
fn most_plans(rt: HostRuntime) -> Result<(), Fail> {
    let heap = rt.alloc();
    let mut tallies = vec![in heap; Tally::default(); 6]?;
    let exact = opened(&rt, heap, &powers(heap, false)?);
    assert_eq!(rt;
        count(&exact, &mut tallies),
        Ok((1_000_000_000_000_000_000, 35))
    );
    assert_eq!(rt;
        tallies.last().copied(),
        Some(Tally {
            count: 1_000_000_000_000_000_000,
            size: 35,
        })
    );
    let over = opened(&rt, heap, &powers(heap, true)?);
    assert_eq!(rt; count(&over, &mut tallies), Err(Refusal::TooManyPlans));
    assert_eq!(rt;
        tallies.last().copied(),
        Some(Tally {
            count: 1_000_000_000_000_000_001,
            size: 35,
        })
    );
    assert_eq!(rt;
        tallies.first().copied(),
        Some(Tally { count: 10, size: 1 })
    );
    Ok(())
}

/// A scan under a chain of sorts, one goal each.
fn chain(heap: Global, goals: u16) -> Result<Vec<u8>, Fail> {
    let mut file = Vec::new(heap);
    put_header(&mut file, goals, goals.saturating_sub(1))?;
    put_record(&mut file, Some(0), scan(0))?;
    for goal in 1..goals {
        put_record(
            &mut file,
            Some(goal),
            Alternative {
                kind: Kind::Sort,
                left: goal - 1,
                ..scan(0)
            },
        )?;
    }
    Ok(file)
}

#[test]
fn most_nodes(rt: HostRuntime) -> Result<(), Fail> {
    let heap = rt.alloc();
    let mut tallies = vec![in heap; Tally::default(); 4096]?;
    assert_eq!(rt;
        count(&opened(&rt, heap, &chain(heap, 1024)?), &mut tallies),
        Ok((1, 1024))
    );
    assert_eq!(rt;
        count(&opened(&rt, heap, &chain(heap, 1025)?), &mut tallies),
        Err(Refusal::PlansTooLarge)
    );
    assert_eq!(rt;
        tallies.get(1024).copied(),
        Some(Tally {
            count: 1,
            size: 1025,
        })
    );
    // a size past the cut-off stays cut off
    assert_eq!(rt;
        count(&opened(&rt, heap, &chain(heap, 1500)?), &mut tallies),
        Err(Refusal::PlansTooLarge)
    );
    assert_eq!(rt;
        tallies.get(1499).copied(),
        Some(Tally {
            count: 1,
            size: 1025,
        })
    );
    Ok(())
}

/// The largest plan there can be, there and back.
#[test]
fn largest_plan(rt: HostRuntime) -> Result<(), Fail> {
    let heap = rt.alloc();
    let space = opened(&rt, heap, &chain(heap, 1024)?);
    let mut b = make_buffers(heap, 1024, 1024, 1024)?;
    assert_eq!(rt;
        unrank(&space, 0, &mut b.tallies, &mut b.work, &mut b.plan),
        Ok(1024)
    );
    let mut goal: u16 = 1024;
    for node in b.plan.iter() {
        goal = goal.saturating_sub(1);
        assert_eq!(rt; node.goal, goal);
    }
    assert_eq!(rt; rank(&space, &b.plan, &mut b.tallies, &mut b.work), Ok(0));
    assert!(rt; b.plan.len() == 1024);
    assert_eq!(rt;
        rank(&space, &b.plan[0..1023], &mut b.tallies, &mut b.work),
        Err(Refusal::ListEnds(1023))
    );
    Ok(())
}

#[test]
fn most_goals(rt: HostRuntime) -> Result<(), Fail> {
    let heap = rt.alloc();
    let mut tallies = vec![in heap; Tally::default(); 4096]?;
    let mut file = Vec::new(heap);
    put_header(&mut file, 2048, 0)?;
    put_record(&mut file, Some(0), scan(0))?;
    let layer = OrderLayer::new(opened(&rt, heap, &file), Order::Sorted);
    assert_eq!(rt; layer.goals(), 4096);
    assert_eq!(rt; count(&layer, &mut tallies), Ok((1, 2)));
    let mut more = Vec::new(heap);
    put_header(&mut more, 2049, 0)?;
    put_record(&mut more, Some(0), scan(0))?;
    let layer = OrderLayer::new(opened(&rt, heap, &more), Order::Sorted);
    assert_eq!(rt; (layer.goals(), layer.root()), (0, 0));
    assert_eq!(rt; count(&layer, &mut tallies), Err(Refusal::NoGoals));
    Ok(())
}
