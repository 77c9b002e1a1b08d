//! Spaces whose tallies stand, and how their alternatives are found by numbers.

ghost use Rattle.std.specs.Prelude.{◌<◌, Some};
ghost use Rattle.numbering.specs.Plans.{count as count_of};
ghost use Rattle.numbering.specs.Standing.{Before, Falls, Standing};

use crate::node::Node;
use crate::standing::alternative_count;
use crate::tally::Tally;
use spaces::space::{Alternative, Space};

/// A space whose tallies stand.
///
/// A space that can find its alternatives by numbers faster than along the lists answers that itself.
pub trait Counted: Space + Sized {
    /// The tallies of all goals.
    fn tallies(&self) -> &[Tally]
        ensures { Standing (Self.meaning self.now) result.now };

    /// The alternative that a number of a goal falls to, and what the number leaves there.
    fn pick(&self, goal: u16, number: u64) -> (Alternative, u64)
        requires within { goal < (Self.meaning self.now).goals }
        requires below { number < count_of (Self.meaning self.now) (Some goal) }
        ensures { Falls (Self.meaning self.now) goal number result.0 result.1 }
    {
        let tallies = self.tallies();
        let mut rest = number;
        for alternative in self.alternatives(goal) {
            let count = alternative_count(tallies, alternative);
            if rest < count {
                return (alternative, rest);
            }
            rest -= count;
        }
        unreachable()
    }

    /// The counts of the alternatives before the node's own, added up: none where it is no live alternative of its goal.
    fn counts_before(&self, node: Node) -> Option<u64>
        requires { node.goal < (Self.meaning self.now).goals }
        ensures { Before (Self.meaning self.now) node.goal node.alternative result }
    {
        let tallies = self.tallies();
        let mut before = 0;
        for alternative in self.alternatives(node.goal) {
            let count = alternative_count(tallies, alternative);
            if alternative == node.alternative {
                return (count > 0).then_some(before);
            }
            before += count;
        }
        None
    }
}
