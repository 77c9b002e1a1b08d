//! How the alternatives of a prepared space are found by numbers.

ghost use Rattle.std.specs.Prelude.{◌≡◌, ◌≢◌, ℕ, MatchOption, Some};
ghost use Rattle.std.specs.List.{slice_get};
ghost use Rattle.numbering.specs.Standing.{Standing};
ghost use Rattle.prepared.specs.Prepares.{table};

use crate::prepared::Prepared;
use crate::seeking::seek;
use numbering::counted::Counted;
use numbering::node::Node;
use numbering::standing::alternative_count;
use numbering::tally::Tally;
use spaces::space::Alternative;

/// The place of an alternative in a list, if it stands there.
fn place_of(list: &[Alternative], alternative: Alternative) -> Option<usize>
    ensures { MatchOption result ((i : ℕ) → slice_get list.now i ≢ Some alternative) (λ i. slice_get list.now i ≡ Some alternative) }
{
    list.iter().position(|item| *item == alternative)
}

impl Prepared {
    /// The tallies of all goals.
    pub fn tallies(&self) -> &[Tally]
        ensures { Standing (table self.now) result.now }
    {
        self.tallies.as_slice()
    }
}

impl Counted for Prepared {
    fn tallies(&self) -> &[Tally] {
        Prepared::tallies(self)
    }

    fn pick(&self, goal: u16, number: u64) -> (Alternative, u64) {
        let sums = self.sums[usize::from(goal)].as_slice();
        let place = seek(sums, number);
        (self.table.goal_list(goal)[place], number - sums[place])
    }

    // the counts before the node's alternative have been added up already
    fn counts_before(&self, node: Node) -> Option<u64> {
        let place = place_of(self.table.goal_list(node.goal), node.alternative)?;
        let count = alternative_count(Prepared::tallies(self), node.alternative);
        (count > 0).then_some(self.sums[usize::from(node.goal)][place])
    }
}
