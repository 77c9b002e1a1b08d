//! The layer that keeps only some kinds of operator.

ghost use Rattle.std.specs.Prelude.{◌≡◌};
ghost use Rattle.spaces.specs.Filters.{filtered};
ghost use Rattle.spaces.specs.FiltersLemmas.{filtered_lawful};

use crate::keep::{kept_at, kept_width};
use crate::mask::KindMask;
use crate::space::{Alternative, Space};
use std::alloc::{AllocError, Global};

/// The space below with only the alternatives whose kind is in the mask.
#[derive(Drop)]
pub struct KindFilter<S> {
    below: S,
    mask: KindMask,
}

impl<S: Space> KindFilter<S> {
    /// The layer over a space.
    pub fn new(below: S, mask: KindMask) -> KindFilter<S>
        ensures { (result.below ≡ below) × (result.mask ≡ mask) }
    {
        KindFilter { below, mask }
    }
}

impl<S: Space> Space for KindFilter<S> {
    ghost meaning = { λ s. filtered (S.Space.meaning s.below) s.mask.bits };

    ghost lawful = { λ s. filtered_lawful _ _ (S.Space.lawful s.below) };

    fn goals(&self) -> u16 {
        self.below.goals()
    }

    fn root(&self) -> u16 {
        self.below.root()
    }

    fn width(&self, goal: u16) -> u32 {
        kept_width(&self.below, &self.mask, goal)
    }

    fn alternative(&self, goal: u16, index: u32) -> Option<Alternative> {
        kept_at(&self.below, &self.mask, goal, index)
    }

    fn list(&self, goal: u16, heap: Global) -> Result<Vec<Alternative>, AllocError> {
        self.below.list_of_kinds(goal, self.mask, heap)
    }
}
