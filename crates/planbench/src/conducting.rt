//! A campaign from make to its last draw, and what is printed of it.

use crate::campaign::Request;
use crate::failure::Failure;
use crate::plan::print_report;
use crate::room::Room;
use campaigns::campaign::Ready;
use campaigns::campaign::making::make;
use campaigns::conduct::{Stopped, conduct};
use campaigns::counts::Counts;
use campaigns::refusal::CampaignRefusal;
use engines::engine::Engine;
use spaces::space::Space;

/// A campaign of more draws than this tells how far it is.
const LONG: u64 = 10_000;

/// How often it does at the most.
const PARTS: u64 = 20;

/// What a campaign came to: its counts, and why it stopped before its last draw, if it did.
#[derive(Clone, Copy)]
struct Ended {
    counts: Counts,
    why: Option<CampaignRefusal>,
}

/// The end of a campaign at a refused call: that every plan is drawn is no failure.
fn end_of(stopped: Stopped) -> Ended {
    let (counts, why) = stopped.close();
    let why = match why {
        CampaignRefusal::AllDrawn => None,
        _ => Some(why),
    };
    Ended { counts, why }
}

/// Draws and runs in parts, with a word on standard error after each.
fn conduct_in_parts<S: Space, E: Engine>(
    rt: &HostRuntime,
    ready: Ready,
    space: &S,
    engine: &E,
    draws: u64,
    room: &mut Room,
    values: &mut [E::Output],
    finds: &mut [u64],
) -> Ended {
    let part = draws / PARTS + 1;
    let all = draws.min(room.plans);
    let mut left = draws;
    let mut state = ready;
    for _ in 0..PARTS {
        let now = left.min(part);
        match conduct(
            state,
            space,
            engine,
            now,
            &mut room.tallies,
            &mut room.work,
            &mut room.plan,
            values,
            finds,
        ) {
            Ok(next) => state = next,
            Err(stopped) => return end_of(stopped),
        }
        left -= now;
        if draws > LONG {
            let counts = state.counts();
            let _ = eprintln!(rt;
                "drawn {} of {all}, differing {}",
                counts.drawn, counts.differing
            );
        }
    }
    Ended {
        counts: state.close(),
        why: None,
    }
}

fn print_counts(rt: &HostRuntime, counts: Counts) -> Result<(), Failure> {
    println!(rt; "drawn {}", counts.drawn)?;
    println!(rt; "agreed {}", counts.agreed)?;
    println!(rt; "differing {}", counts.differing)?;
    println!(rt; "faulted {}", counts.faulted)?;
    println!(rt; "skipped {}", counts.skipped)?;
    Ok(())
}

/// Makes the campaign, conducts it, and prints its counts and a line for each find. Where the finds are full it does so too, and then fails.
pub fn run_campaign<S: Space, E: Engine>(
    rt: &HostRuntime,
    space: &S,
    engine: &E,
    request: Request,
    room: &mut Room,
    values: &mut [E::Output],
) -> Result<(), Failure> {
    let mut finds = vec![in rt.alloc(); 0u64; request.finds as usize]?;
    // one draw more than there are plans, so that the last one is refused
    let draws = request.draws.unwrap_or(room.plans.saturating_add(1));
    let ready = make(
        space,
        request.start,
        request.step,
        request.baseline,
        &mut room.tallies,
    )?;
    let end = conduct_in_parts(rt, ready, space, engine, draws, room, values, &mut finds);
    match end.why {
        None | Some(CampaignRefusal::FindsShort) => {}
        Some(why) => return Err(why.into()),
    }
    print_counts(rt, end.counts)?;
    let found = (end.counts.differing as usize).min(finds.len());
    print_report(rt, space, &finds[0..found], room)?;
    match end.why {
        Some(why) => Err(why.into()),
        None => Ok(()),
    }
}
