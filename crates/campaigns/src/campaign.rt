//! The two states of a campaign, and what its calls hand back.
//!
//! A campaign is ready, or pending while a drawn plan waits to be run or skipped. Neither state can be
//! copied or let go: a pending one is settled, and a ready one draws again or is closed.
//! Each is a type of plain numbers, so what both have, and what always holds of it, stands in both.

ghost use Rattle.std.specs.Prelude.{◌≡◌, ◌+◌, ◌<◌, ◌≤◌};
ghost use Rattle.campaigns.specs.Divisors.{Coprime};
ghost use Rattle.campaigns.specs.Walks.{walk};

use crate::counts::Counts;
use crate::outcome::Outcome;
use crate::refusal::CampaignRefusal;

pub mod baseline;
mod comparing;
pub mod drawing;
pub mod making;
pub mod running;
pub mod settling;
pub mod telling;

/// A campaign with no plan pending.
pub struct Ready {
    // how many plans there are
    n: u64,
    start: u64,
    step: u64,
    baseline: u64,
    // the number that the next draw concerns
    next: u64,
    counts: Counts,
    ghost starts: { start < n },
    ghost based: { baseline < n },
    ghost steps: { step ≤ n },
    ghost coprime: { Coprime step n },
    ghost upcoming: { next ≡ walk n start step counts.drawn },
    ghost within: { counts.drawn ≤ n },
    ghost settled: { counts.drawn ≡ counts.agreed + counts.differing + counts.faulted + counts.skipped },
}

/// A campaign whose last drawn plan is neither run nor skipped yet.
pub struct Pending {
    // how many plans there are
    n: u64,
    start: u64,
    step: u64,
    baseline: u64,
    // the number of the plan that waits
    number: u64,
    counts: Counts,
    ghost starts: { start < n },
    ghost based: { baseline < n },
    ghost steps: { step ≤ n },
    ghost coprime: { Coprime step n },
    ghost chosen: { number ≡ walk n start step (counts.agreed + counts.differing + counts.faulted + counts.skipped) },
    ghost within: { counts.drawn ≤ n },
    ghost settled: { counts.drawn ≡ counts.agreed + counts.differing + counts.faulted + counts.skipped + 1 },
}

/// An accepted draw: the plan's number, and how many nodes of it stand in the plan buffer, which is the caller's.
pub struct Drawn {
    pub pending: Pending,
    pub number: u64,
    pub len: usize,
}

/// A refused draw, with the campaign as it was.
pub struct NotDrawn {
    pub ready: Ready,
    pub why: CampaignRefusal,
}

/// An accepted run.
pub struct Ran {
    pub ready: Ready,
    pub outcome: Outcome,
}

/// A refused run, with the campaign as it was.
pub struct NotRun {
    pub pending: Pending,
    pub why: CampaignRefusal,
}
