//! The number of a plan.

ghost use Rattle.std.specs.Prelude.{◌≡◌, length};
ghost use Rattle.numbering.specs.Numbers.{Numbering};
ghost use Rattle.numbering.specs.Ranks.{rank_checks, Ranked, RankedOnly};
ghost use Rattle.numbering.specs.Refusals.{after_tally, first_of};

use crate::due::Due;
use crate::node::Node;
use crate::reading::number_of;
use crate::ready::ready_to_rank;
use crate::refusal::Refusal;
use crate::tallied::Tallied;
use crate::tally::Tally;
use spaces::space::Space;

/// The number of the complete plan whose list is `nodes`, or where and why the list is none.
///
/// The tallies of the space are written as by `count`. `work` may hold anything afterwards.
pub fn rank<S: Space>(
    space: &S,
    nodes: &[Node],
    tallies: &mut [Tally],
    work: &mut [Due],
) -> Result<u64, Refusal>
    ensures answer { Ranked (S.meaning space.now) (first_of (rank_checks (S.meaning space.now) (length tallies.old) (length work.old))) nodes.now result }
    ensures only { RankedOnly (S.meaning space.now) (first_of (rank_checks (S.meaning space.now) (length tallies.old) (length work.old))) nodes.now result }
    ensures tallies { tallies.new ≡ after_tally (S.meaning space.now) tallies.old }
    ensures numbering { Numbering (S.meaning space.now) }
{
    ready_to_rank(space, tallies, work.len())?;
    number_of(&Tallied { space, tallies }, nodes, work)
}
