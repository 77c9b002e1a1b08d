//! What a ready campaign tells.

ghost use Rattle.std.specs.Prelude.{◌≡◌};

use crate::campaign::Ready;
use crate::counts::Counts;

impl Ready {
    /// What the campaign has counted.
    pub fn counts(&self) -> Counts
        ensures { result ≡ self.now.counts }
    {
        self.counts
    }

    /// Ends the campaign and gives its counts.
    pub fn close(self) -> Counts
        ensures { result ≡ self.counts }
    {
        let Ready {
            n: _,
            start: _,
            step: _,
            baseline: _,
            next: _,
            counts,
        } = self;
        counts
    }
}
