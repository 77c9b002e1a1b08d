//! Settling a drawn plan.

ghost use Rattle.std.specs.Prelude.{◌≡◌, ◌+◌, ◌%◌, ◌<◌, ◌≤◌};
ghost use Rattle.campaigns.specs.Calls.{counting, of_pending, of_ready, Skipped};
ghost use Rattle.campaigns.specs.Counting.{settled as settled_in};

use crate::campaign::{Pending, Ready};
use crate::counts::Counts;

/// The number a step past another, modulo n.
fn onward(n: u64, step: u64, number: u64) -> u64
    requires { (step ≤ n) × (number < n) }
    ensures { result ≡ (number + step) % n }
{
    // the sum itself may not fit
    let left = n - step;
    if number < left {
        number + step
    } else {
        number - left
    }
}

impl Pending {
    /// What the campaign has counted.
    pub fn counts(&self) -> Counts
        ensures { result ≡ self.now.counts }
    {
        self.counts
    }

    /// The campaign once the counts say how its plan was settled.
    pub(crate) fn settle(self, counts: Counts) -> Ready
        requires drawn { counts.drawn ≡ self.counts.drawn }
        requires settled { counts.drawn ≡ settled_in counts }
        ensures { of_ready result ≡ counting (of_pending self) counts }
    {
        let Pending {
            n,
            start,
            step,
            baseline,
            number,
            counts: _,
        } = self;
        Ready {
            n,
            start,
            step,
            baseline,
            next: onward(n, step, number),
            counts,
        }
    }

    /// Gives the drawn plan up.
    pub fn skip(self) -> Ready
        ensures { Skipped self result }
    {
        let mut counts = self.counts;
        counts.skipped += 1;
        self.settle(counts)
    }
}
