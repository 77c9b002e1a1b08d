//! The tallies of a space, in memory of their own.

ghost use Rattle.std.specs.Prelude.{◌<◌, MatchResult};
ghost use Rattle.numbering.specs.Standing.{Standing};
ghost use Rattle.prepared.specs.Refusals.{NotPrepared};

use crate::refusal::PrepareRefusal;
use numbering::counting::count;
use numbering::tally::Tally;
use spaces::space::Space;
use std::alloc::Global;

/// The tallies of all goals, or why the space is not counted.
pub fn tally_goals<S: Space>(space: &S, heap: Global) -> Result<Vec<Tally>, PrepareRefusal>
    requires { 0 < (S.meaning space.now).goals }
    ensures { MatchResult result (λ ts. Standing (S.meaning space.now) ts.items) (λ e. NotPrepared (S.meaning space.now) e) }
{
    let mut tallies = vec![in heap; Tally::default(); space.goals() as usize]?;
    count(space, tallies.as_mut_slice())?;
    Ok(tallies)
}
