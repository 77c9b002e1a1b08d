//! Campaigns against brute force: the numbers drawn, the outcomes and the finds of whole histories over small spaces with planted differences and faults.

use crate::endings::{ROWS, ending_of};
use crate::enumeration::{all_plans, longest};
use crate::generated::{Dice, any_table};
use crate::memo_files::{WORKED, encoded, opened};
use crate::number_tests::{Buffers, make_buffers};
use campaigns::campaign::making::make;
use campaigns::campaign::{Drawn, NotDrawn, NotRun, Pending, Ran, Ready};
use campaigns::conduct::conduct;
use campaigns::counts::Counts;
use campaigns::refusal::CampaignRefusal;
use engines::cover::{Cover, Covered};
use engines::rows::Rows;
use memos::memo::Memo;
use numbering::node::Node;
use numbering::refusal::Refusal;
use std::alloc::Global;
use std::process::Abort;
use std::test::Fail;

fn share_a_divisor(a: u64, b: u64) -> bool {
    (2..=a).any(|d| d != 0 && a % d == 0 && b % d == 0)
}

/// One whole campaign with room for so many finds, conducted over the rows engine.
fn whole(
    rt: &impl Abort,
    heap: Global,
    memo: &Memo,
    plans: &[Vec<Node>],
    walk: (u64, u64, u64),
    room: usize,
    b: &mut Buffers,
) -> Result<(), Fail> {
    let (start, step, baseline) = walk;
    let n = plans.len() as u64;
    let engine = Rows::new(ROWS.to_vec(heap)?);
    let mut values = vec![in heap; 0u64; b.work.len()]?;
    let mut finds = vec![in heap; 77u64; room]?;
    let wanted = ending_of(heap, plans, start, step, baseline, room)?;
    match make(memo, start, step, baseline, &mut b.tallies) {
        Err(why) => {
            assert_eq!(rt; why, CampaignRefusal::BadStep);
            assert_eq!(rt; step == 0 || step > n || share_a_divisor(step, n), true);
            Ok(())
        }
        Ok(ready) => {
            let end = match conduct(
                ready,
                memo,
                &engine,
                u64::MAX,
                &mut b.tallies,
                &mut b.work,
                &mut b.plan,
                &mut values,
                &mut finds,
            ) {
                Ok(state) => (state.close(), CampaignRefusal::OtherSpace),
                Err(stopped) => stopped.close(),
            };
            assert_eq!(rt; share_a_divisor(step, n), false);
            assert_eq!(rt; (end.0, end.1.number()), (wanted.counts, wanted.refusal));
            let found = wanted.finds.len().min(finds.len());
            assert_eq!(rt; &finds[0..found] == wanted.finds.as_slice(), true);
            for entry in &finds[found..] {
                assert_eq!(rt; *entry, 77);
            }
            Ok(())
        }
    }
}

fn turned(x: u64, n: u64) -> u64 {
    if n == 0 { 0 } else { x % n }
}

#[test]
fn whole_campaigns(rt: HostRuntime) -> Result<(), Fail> {
    let heap = rt.alloc();
    let mut dice = Dice(3);
    let mut compared = 0u32;
    for _ in 0..60u32 {
        let table = any_table(heap, &mut dice)?;
        let Some(all) = all_plans(heap, &table)? else {
            continue;
        };
        let root = table.root as usize;
        if root >= all.len() || all[root].len() == 0 || all[root].len() > 40 {
            continue;
        }
        let plans = &all[root];
        let memo = opened(&rt, heap, &encoded(heap, &table)?);
        let z = longest(plans);
        let mut b = make_buffers(heap, all.len(), z, z)?;
        let n = plans.len() as u64;
        for step in 0..n.saturating_add(2) {
            let walk = (turned(step / 2, n), step, turned(step / 3, n));
            whole(&rt, heap, &memo, plans, walk, plans.len(), &mut b)?;
            whole(&rt, heap, &memo, plans, walk, step as usize % 2, &mut b)?;
        }
        compared = compared.saturating_add(1);
    }
    assert!(rt; compared > 20, "enough small spaces were met");
    Ok(())
}

/// The numbers that draws hand back, skipped one by one, and the refusal at the end.
fn skipped_through(
    heap: Global,
    ready: Ready,
    memo: &Memo,
    b: &mut Buffers,
) -> (Vec<u64>, Counts, CampaignRefusal) {
    let mut numbers = Vec::new(heap);
    let mut state = ready;
    for _ in 0..100u32 {
        match state.draw(memo, &mut b.tallies, &mut b.work, &mut b.plan) {
            Ok(drawn) => {
                let Drawn {
                    pending,
                    number,
                    len: _,
                } = drawn;
                let _ = numbers.push(number);
                state = pending.skip();
            }
            Err(refused) => {
                let NotDrawn { ready, why } = refused;
                return (numbers, ready.close(), why);
            }
        }
    }
    (numbers, state.close(), CampaignRefusal::OtherSpace)
}

#[test]
fn worked_campaign(rt: HostRuntime) -> Result<(), Fail> {
    let heap = rt.alloc();
    let memo = opened(&rt, heap, &WORKED);
    let mut b = make_buffers(heap, 3, 3, 3)?;
    let Ok(ready) = make(&memo, 2, 5, 0, &mut b.tallies) else {
        return Err(Fail::new("the worked campaign is made"));
    };
    let (numbers, counts, why) = skipped_through(heap, ready, &memo, &mut b);
    assert_eq!(rt;
        numbers.as_slice() == [2u64, 1, 0, 5, 4, 3].as_slice(),
        true
    );
    assert_eq!(rt;
        (counts.drawn, counts.skipped, why),
        (6, 6, CampaignRefusal::AllDrawn)
    );
    let mut refusals = Vec::new(heap);
    for (start, step, baseline) in [
        (6u64, 5u64, 0u64),
        (2, 5, 6),
        (2, 4, 0),
        (2, 0, 0),
        (2, 7, 0),
    ] {
        match make(&memo, start, step, baseline, &mut b.tallies) {
            Err(why) => refusals.push(why.number())?,
            Ok(ready) => {
                ready.close();
            }
        }
    }
    assert_eq!(rt;
        refusals.as_slice() == [45u8, 46, 47, 47, 47].as_slice(),
        true
    );
    Ok(())
}

/// The reason of a run with these buffers, if it is refused, and the counts of the campaign then.
fn run_once(
    memo: &Memo,
    pending: Pending,
    b: &mut Buffers,
    values: &mut [Covered],
    finds: &mut [u64],
) -> (Option<CampaignRefusal>, Counts) {
    match pending.run(
        memo,
        &Cover,
        &mut b.tallies,
        &mut b.work,
        &mut b.plan,
        values,
        finds,
    ) {
        Ok(ran) => {
            let Ran { ready, outcome: _ } = ran;
            (None, ready.close())
        }
        Err(not) => {
            let NotRun { pending, why } = not;
            let counts = pending.counts();
            pending.skip().close();
            (Some(why), counts)
        }
    }
}

/// The plan drawn first in the worked memo, if the draw is accepted.
fn first_pending(memo: &Memo, b: &mut Buffers) -> Option<Pending> {
    let Ok(ready) = make(memo, 2, 5, 0, &mut b.tallies) else {
        return None;
    };
    match ready.draw(memo, &mut b.tallies, &mut b.work, &mut b.plan) {
        Ok(drawn) => {
            let Drawn {
                pending,
                number: _,
                len: _,
            } = drawn;
            Some(pending)
        }
        Err(not) => {
            let NotDrawn { ready, why: _ } = not;
            ready.close();
            None
        }
    }
}

/// Each run with one of its buffers short, over a plan that agrees.
#[test]
fn refused_runs(rt: HostRuntime) -> Result<(), Fail> {
    let heap = rt.alloc();
    let memo = opened(&rt, heap, &WORKED);
    let mut enough = make_buffers(heap, 3, 3, 3)?;
    let mut few_values = vec![in heap; Covered::default(); 2]?;
    let mut values = vec![in heap; Covered::default(); 3]?;
    for (tallies, work, plan, room, wanted) in [
        (3usize, 3usize, 3usize, 2usize, 26u8),
        (2, 3, 3, 3, 21),
        (3, 2, 3, 3, 24),
        (3, 3, 2, 3, 25),
        (3, 3, 3, 3, 0),
    ] {
        let mut b = make_buffers(heap, tallies, work, plan)?;
        let Some(pending) = first_pending(&memo, &mut enough) else {
            return Err(Fail::new("the first draw is accepted"));
        };
        let (why, counts) = if room == 2 {
            run_once(&memo, pending, &mut b, &mut few_values, &mut [])
        } else {
            run_once(&memo, pending, &mut b, &mut values, &mut [])
        };
        assert_eq!(rt; why.map_or(0, |refusal| refusal.number()), wanted);
        assert_eq!(rt; (counts.drawn, counts.agreed), (1, (wanted == 0) as u64));
    }
    Ok(())
}
