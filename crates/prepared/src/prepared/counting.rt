//! How many plans a prepared space holds.

ghost use Rattle.std.specs.Prelude.{◌≡◌};
ghost use Rattle.numbering.specs.Census.{Census};
ghost use Rattle.numbering.specs.Refusals.{largest, plans};
ghost use Rattle.prepared.specs.Prepares.{table};

use crate::prepared::Prepared;
use spaces::space::Space;

impl Prepared {
    /// How many complete plans the space holds, and how many nodes the largest has.
    #[tactic(auto, using(crate::proofs::Held::census_of))]
    pub fn count(&self) -> (u64, u16)
        ensures answer { result ≡ (plans (table self.now), largest (table self.now)) }
        ensures census { Census (table self.now) result.0 result.1 }
    {
        let root = self.tallies[usize::from(self.table.root())];
        (root.count, root.size)
    }
}
