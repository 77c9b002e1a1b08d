//! The plan of a number.

ghost use Rattle.std.specs.Prelude.{◌≡◌, length};
ghost use Rattle.numbering.specs.Numbers.{Numbering};
ghost use Rattle.numbering.specs.Ranks.{unrank_checks, Unranked, UnrankedOnly};
ghost use Rattle.numbering.specs.Refusals.{after_tally, first_of};

use crate::due::Due;
use crate::node::Node;
use crate::ready::ready_to_write;
use crate::refusal::Refusal;
use crate::tallied::Tallied;
use crate::tally::Tally;
use crate::writing::write_plan;
use spaces::space::Space;

/// Writes the list of the plan that has the number into the first entries of `plan`, and gives its length.
///
/// The tallies of the space are written as by `count`. Refused, the call leaves `plan` as it was.
/// `work` may hold anything afterwards.
pub fn unrank<S: Space>(
    space: &S,
    number: u64,
    tallies: &mut [Tally],
    work: &mut [Due],
    plan: &mut [Node],
) -> Result<usize, Refusal>
    ensures answer { Unranked (S.meaning space.now) (first_of (unrank_checks (S.meaning space.now) number (length tallies.old) (length work.old) (length plan.old))) number result plan.old plan.new }
    ensures only { UnrankedOnly (S.meaning space.now) (first_of (unrank_checks (S.meaning space.now) number (length tallies.old) (length work.old) (length plan.old))) number result plan.old plan.new }
    ensures tallies { tallies.new ≡ after_tally (S.meaning space.now) tallies.old }
    ensures numbering { Numbering (S.meaning space.now) }
{
    let (plans, _) = ready_to_write(space, tallies, work.len(), plan.len())?;
    if number >= plans {
        return Err(Refusal::NoSuchPlan);
    }
    let counted = Tallied { space, tallies };
    Ok(write_plan(&counted, number, work, plan))
}
