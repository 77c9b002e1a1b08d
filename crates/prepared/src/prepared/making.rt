//! The preparing of a space.

ghost use Rattle.std.specs.Result.{MatchResult};
ghost use Rattle.prepared.specs.Prepares.{table};
ghost use Rattle.prepared.specs.Refusals.{NotPrepared, Prepares};

use crate::prepared::Prepared;
use crate::refusal::PrepareRefusal;
use crate::summing::sum_goals;
use crate::tallying::tally_goals;
use numbering::refusal::Refusal;
use numbering::tallied::Tallied;
use spaces::space::Space;
use spaces::table::Table;
use std::alloc::Global;

/// Prepares a space: the same space, in tables.
pub fn prepare<S: Space>(space: &S, heap: Global) -> Result<Prepared, PrepareRefusal>
    ensures { MatchResult result (λ p. Prepares (S.meaning space.now) (table p)) (λ e. NotPrepared (S.meaning space.now) e) }
{
    if space.goals() == 0 {
        return Err(PrepareRefusal::Count(Refusal::NoGoals));
    }
    let table = Table::copy(space, heap)?;
    let tallies = tally_goals(&table, heap)?;
    let sums = sum_goals(
        &Tallied {
            space: &table,
            tallies: tallies.as_slice(),
        },
        heap,
    )?;
    Ok(Prepared {
        table,
        tallies,
        sums,
    })
}
