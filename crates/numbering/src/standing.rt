//! Reading tallies that are known to stand in a buffer.

ghost use Rattle.std.specs.Prelude.{◌≡◌, ◌≤◌};
ghost use Rattle.numbering.specs.Plans.{left_due, right_due, ways};
ghost use Rattle.numbering.specs.Tallies.{look, most_plans};

use crate::counting::due_tally;
use crate::dues::{left_due, right_due};
use crate::tally::Tally;
use spaces::space::Alternative;

/// How many plans an alternative has, where no count in its way is cut off.
pub fn alternative_count(tallies: &[Tally], alternative: Alternative) -> u64
    requires { ways (λ o. (look tallies.now o).count) alternative ≤ most_plans }
    ensures { result ≡ ways (λ o. (look tallies.now o).count) alternative }
{
    left_count(tallies, alternative) * due_tally(tallies, right_due(alternative)).count
}

/// How many plans the goal of the left child has: one where there is no such child.
pub(crate) fn left_count(tallies: &[Tally], alternative: Alternative) -> u64
    ensures { result ≡ (look tallies.now (left_due alternative)).count }
{
    due_tally(tallies, left_due(alternative)).count
}
