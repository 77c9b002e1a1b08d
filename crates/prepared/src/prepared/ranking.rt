//! The number of a plan of a prepared space.

ghost use Rattle.std.specs.Prelude.{◌≡◌, ◌≤◌, length, None, OnOk};
ghost use Rattle.numbering.specs.Numbers.{Numbering};
ghost use Rattle.numbering.specs.Ranks.{rank_checks, Ranked, RankedOnly};
ghost use Rattle.numbering.specs.Refusals.{answered, count_checks, first_of, largest, plans};
ghost use Rattle.prepared.specs.Prepares.{table};

use crate::prepared::Prepared;
use numbering::due::Due;
use numbering::node::Node;
use numbering::reading::number_of;
use numbering::refusal::Refusal;

impl Prepared {
    /// The number of plans and the size of the largest, where the work buffer is long enough for it. Of its own, since the
    /// check of numbering tallies the space first.
    pub(crate) fn ready_to_rank(&self, work: usize) -> Result<(u64, u16), Refusal>
        ensures answer { result ≡ answered (first_of (rank_checks (table self.now) (table self.now).goals work)) (plans (table self.now), largest (table self.now)) }
        ensures room { OnOk result (largest (table self.now) ≤ work) }
    {
        let (plans, size) = self.count();
        if work < size as usize {
            return Err(Refusal::WorkShort);
        }
        Ok((plans, size))
    }

    /// The number of the complete plan whose list is `nodes`, or where and why the list is none.
    ///
    /// It answers as the plain call does with a tally buffer that is just long enough. `work` may hold anything afterwards.
    #[tactic(auto, using(crate::proofs::Held::counted_of, crate::proofs::Held::numbering_of))]
    pub fn rank(&self, nodes: &[Node], work: &mut [Due]) -> Result<u64, Refusal>
        ensures answer { Ranked (table self.now) (first_of (rank_checks (table self.now) (table self.now).goals (length work.old))) nodes.now result }
        ensures only { RankedOnly (table self.now) (first_of (rank_checks (table self.now) (table self.now).goals (length work.old))) nodes.now result }
        ensures counted { first_of (count_checks (table self.now) (table self.now).goals) ≡ None }
        ensures numbering { Numbering (table self.now) }
    {
        self.ready_to_rank(work.len())?;
        number_of(self, nodes, work)
    }
}
