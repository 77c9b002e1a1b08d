//! A space beside a buffer in which its tallies stand.

ghost use Rattle.numbering.specs.Standing.{Standing};

use crate::counted::Counted;
use crate::tally::Tally;
use spaces::space::{Alternative, Space};
use std::alloc::{AllocError, Global};

/// A space with its tallies, as `count` leaves them in a caller's buffer.
#[derive(Drop)]
pub struct Tallied<'a, S: Space> {
    pub space: &'a S,
    pub tallies: &'a [Tally],
    pub ghost standing: { Standing (S.meaning space.now) tallies.now },
}

/// Question by question, since there is no other way to hand a trait on to a field.
impl<S: Space> Space for Tallied<'_, S> {
    ghost meaning = { λ s. S.Space.meaning s.space.now };

    ghost lawful = { λ s. S.Space.lawful s.space.now };

    fn goals(&self) -> u16 {
        self.space.goals()
    }

    fn root(&self) -> u16 {
        self.space.root()
    }

    fn width(&self, goal: u16) -> u32 {
        self.space.width(goal)
    }

    fn alternative(&self, goal: u16, index: u32) -> Option<Alternative> {
        self.space.alternative(goal, index)
    }

    fn list(&self, goal: u16, heap: Global) -> Result<Vec<Alternative>, AllocError> {
        self.space.list(goal, heap)
    }
}

impl<S: Space> Counted for Tallied<'_, S> {
    fn tallies(&self) -> &[Tally] {
        self.tallies
    }
}
