//! The prepared space as a space: question by question, since there is no other way to hand a trait on to a field.

ghost use Rattle.prepared.specs.Prepares.{table};

use crate::prepared::Prepared;
use spaces::space::{Alternative, Space};
use std::alloc::{AllocError, Global};

impl Space for Prepared {
    ghost meaning = { table };

    ghost lawful = { λ p. p.table.lawful };

    fn goals(&self) -> u16 {
        self.table.goals()
    }

    fn root(&self) -> u16 {
        self.table.root()
    }

    fn width(&self, goal: u16) -> u32 {
        self.table.width(goal)
    }

    fn alternative(&self, goal: u16, index: u32) -> Option<Alternative> {
        self.table.alternative(goal, index)
    }

    fn list(&self, goal: u16, heap: Global) -> Result<Vec<Alternative>, AllocError> {
        self.table.list(goal, heap)
    }
}
