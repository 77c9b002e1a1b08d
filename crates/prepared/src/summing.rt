//! Running sums of the counts of a table's alternatives.

ghost use Rattle.std.specs.Prelude.{◌≡◌, ◌<◌, IfOk, map, vec_items};
ghost use Rattle.spaces.specs.TableSpaces.{table_space};
ghost use Rattle.prepared.specs.Sums.{goal_sums, Summed};

use numbering::standing::alternative_count;
use numbering::tallied::Tallied;
use spaces::space::Space;
use spaces::table::Table;
use std::alloc::{AllocError, Global};

/// For each alternative of a goal, the counts of those before it added up.
fn sum_goal(counted: &Tallied<'_, Table>, goal: u16, heap: Global) -> Result<Vec<u64>, AllocError>
    requires { goal < (table_space counted.now.space.now).goals }
    ensures { IfOk result (λ sums. sums.items ≡ goal_sums (table_space counted.now.space.now) goal) }
{
    let list = counted.space.goal_list(goal);
    let mut sums = Vec::with_capacity(heap, list.len())?;
    let mut before = 0;
    for alternative in list {
        sums.push(before)?;
        before += alternative_count(counted.tallies, *alternative);
    }
    Ok(sums)
}

/// The running sums of all goals, each goal's in a list of their own.
pub fn sum_goals(counted: &Tallied<'_, Table>, heap: Global) -> Result<Vec<Vec<u64>>, AllocError>
    ensures { IfOk result (λ sums. Summed (table_space counted.now.space.now) (map vec_items sums.items)) }
{
    let mut sums = Vec::with_capacity(heap, usize::from(counted.goals()))?;
    for goal in 0..counted.goals() {
        sums.push(sum_goal(counted, goal, heap)?)?;
    }
    Ok(sums)
}
