//! The plan of a number of a prepared space.

ghost use Rattle.std.specs.Prelude.{◌≡◌, ◌≤◌, length, None, OnOk};
ghost use Rattle.numbering.specs.Numbers.{Numbering};
ghost use Rattle.numbering.specs.Ranks.{unrank_checks, Unranked, UnrankedOnly, write_checks};
ghost use Rattle.numbering.specs.Refusals.{answered, count_checks, first_of, largest, plans};
ghost use Rattle.prepared.specs.Prepares.{table};

use crate::prepared::Prepared;
use numbering::due::Due;
use numbering::node::Node;
use numbering::refusal::Refusal;
use numbering::writing::write_plan;

impl Prepared {
    /// The number of plans and the size of the largest, where the buffers are long enough to write plans: without the tally
    /// pass of numbering's own check.
    pub fn ready_to_write(&self, work: usize, plan: usize) -> Result<(u64, u16), Refusal>
        ensures answer { result ≡ answered (first_of (write_checks (table self.now) (table self.now).goals work plan)) (plans (table self.now), largest (table self.now)) }
        ensures room { OnOk result ((largest (table self.now) ≤ work) × (largest (table self.now) ≤ plan)) }
    {
        let (plans, size) = self.ready_to_rank(work)?;
        if plan < size as usize {
            return Err(Refusal::PlanShort);
        }
        Ok((plans, size))
    }

    /// Writes the list of the plan that has the number into the first entries of `plan`, and gives its length.
    ///
    /// It answers as the plain call does with a tally buffer that is just long enough. Refused, the call leaves `plan` as it
    /// was. `work` may hold anything afterwards.
    #[tactic(auto, using(crate::proofs::Held::counted_of, crate::proofs::Held::numbering_of))]
    pub fn unrank(&self, number: u64, work: &mut [Due], plan: &mut [Node]) -> Result<usize, Refusal>
        ensures answer { Unranked (table self.now) (first_of (unrank_checks (table self.now) number (table self.now).goals (length work.old) (length plan.old))) number result plan.old plan.new }
        ensures only { UnrankedOnly (table self.now) (first_of (unrank_checks (table self.now) number (table self.now).goals (length work.old) (length plan.old))) number result plan.old plan.new }
        ensures counted { first_of (count_checks (table self.now) (table self.now).goals) ≡ None }
        ensures numbering { Numbering (table self.now) }
    {
        let (plans, _) = self.ready_to_write(work.len(), plan.len())?;
        if number >= plans {
            return Err(Refusal::NoSuchPlan);
        }
        Ok(write_plan(self, number, work, plan))
    }
}
