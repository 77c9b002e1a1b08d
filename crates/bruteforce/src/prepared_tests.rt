//! Prepared spaces and campaigns over them against brute force.

use crate::agreement::same_space;
use crate::endings::{ROWS, ending_of};
use crate::enumeration::{all_plans, longest};
use crate::generated::{Dice, any_table};
use crate::memo_files::{encoded, opened};
use crate::number_tests::{Buffers, NO_NODE, common, lists_near, make_buffers, wanted};
use campaigns::campaign::making::make_prepared;
use campaigns::conduct::conduct_prepared;
use campaigns::refusal::CampaignRefusal;
use engines::rows::Rows;
use memos::memo::Memo;
use numbering::node::Node;
use numbering::refusal::Refusal;
use prepared::prepared::{Prepared, prepare};
use prepared::refusal::PrepareRefusal;
use spaces::space::Space;
use std::alloc::Global;
use std::process::Abort;
use std::test::Fail;

/// Spaces with more plans than this are left out.
const MANY: usize = 40;

/// Every plan in number order, there and back, numbers past the last, and buffers one entry short.
fn numbers_agree(rt: &impl Abort, space: &Prepared, plans: &[Vec<Node>], b: &mut Buffers) {
    let n = plans.len() as u64;
    let z = longest(plans);
    let (count, size) = space.count();
    assert_eq!(rt; (count, usize::from(size)), (n, z));
    for (number, plan) in (0..n).zip(plans.iter()) {
        assert_eq!(rt;
            space.unrank(number, &mut b.work, &mut b.plan),
            Ok(plan.len())
        );
        assert_eq!(rt; common(plan, &b.plan), plan.len());
        assert_eq!(rt; b.plan.last().copied(), Some(NO_NODE));
        assert_eq!(rt; space.rank(plan, &mut b.work), Ok(number));
    }
    assert_eq!(rt;
        space.unrank(n, &mut b.work, &mut b.plan),
        Err(Refusal::NoSuchPlan)
    );
    if z > 0 {
        assert_eq!(rt; space.rank(&[], &mut b.work), Err(Refusal::ListEnds(0)));
        assert_eq!(rt; space.rank(&[], &mut []), Err(Refusal::WorkShort));
        assert_eq!(rt;
            space.unrank(0, &mut b.work, &mut []),
            Err(Refusal::PlanShort)
        );
    }
}

/// The lists near a plan, each ranked.
fn near_agree(
    rt: &impl Abort,
    heap: Global,
    space: &Prepared,
    plan: &[Node],
    plans: &[Vec<Node>],
    b: &mut Buffers,
) -> Result<(), Fail> {
    for list in lists_near(heap, plan)? {
        assert_eq!(rt;
            space.rank(&list, &mut b.work),
            wanted(&list, plans, space.root())
        );
    }
    Ok(())
}

/// A whole campaign with room for every find, conducted over the rows engine.
fn campaign_agrees(
    rt: &impl Abort,
    heap: Global,
    space: &Prepared,
    plans: &[Vec<Node>],
    baseline: u64,
    b: &mut Buffers,
) -> Result<(), Fail> {
    let engine = Rows::new(ROWS.to_vec(heap)?);
    let mut values = vec![in heap; 0u64; b.work.len()]?;
    let mut finds = vec![in heap; 77u64; plans.len()]?;
    let wanted = ending_of(heap, plans, 0, 1, baseline, plans.len())?;
    let Ok(ready) = make_prepared(space, 0, 1, baseline) else {
        return Err(Fail::new("a step of one is usable"));
    };
    let ended = conduct_prepared(
        ready,
        space,
        &engine,
        u64::MAX,
        &mut b.work,
        &mut b.plan,
        &mut values,
        &mut finds,
    );
    let (counts, why) = match ended {
        Ok(state) => (state.close(), CampaignRefusal::OtherSpace),
        Err(stopped) => stopped.close(),
    };
    assert_eq!(rt; (counts, why.number()), (wanted.counts, wanted.refusal));
    let found = wanted.finds.len().min(finds.len());
    assert_eq!(rt; &finds[0..found] == wanted.finds.as_slice(), true);
    Ok(())
}

#[test]
fn prepared_memos(rt: HostRuntime) -> Result<(), Fail> {
    let heap = rt.alloc();
    let mut dice = Dice(11);
    let mut compared = 0u32;
    for _ in 0..60u32 {
        let table = any_table(heap, &mut dice)?;
        let Some(all) = all_plans(heap, &table)? else {
            continue;
        };
        let root = usize::from(table.root);
        if root >= all.len() || all[root].len() > MANY {
            continue;
        }
        let plans = &all[root];
        let Ok(space) = prepare(&opened(&rt, heap, &encoded(heap, &table)?), heap) else {
            return Err(Fail::new("a small space is prepared"));
        };
        same_space(&rt, heap, &space, &table)?;
        let z = longest(plans);
        let mut b = make_buffers(heap, 0, z, z.saturating_add(1))?;
        numbers_agree(&rt, &space, plans, &mut b);
        for plan in plans {
            near_agree(&rt, heap, &space, plan, plans, &mut b)?;
        }
        for baseline in 0..plans.len() as u64 {
            campaign_agrees(&rt, heap, &space, plans, baseline, &mut b)?;
        }
        compared = compared.saturating_add(1);
    }
    assert!(rt; compared > 30, "enough small spaces were met");
    assert_eq!(rt;
        prepare(&Memo::empty(heap), heap).err(),
        Some(PrepareRefusal::Count(Refusal::NoGoals))
    );
    Ok(())
}
