//! The goals still due, as a stack in the work buffer.

ghost use Rattle.std.specs.Prelude.{◌≡◌, ◌+◌, ◌<◌, ◌≤◌, [], ◌∷◌, length};
ghost use Rattle.numbering.specs.Dues.{children, places, popped, push as pushed};
ghost use Rattle.numbering.specs.Plans.{left_due, right_due};

use crate::due::Due;
use crate::dues::{left_due, right_due};
use spaces::space::Alternative;
use std::marker::Model;

/// The goals due, the next one on top. A clause sees them from the top down, and how many the buffer holds.
#[derive(Drop)]
pub(crate) struct Stack<'a> {
    work: &'a mut [Due],
    depth: usize,
}

impl<'a> Model for Stack<'a> {
    ghost use Rattle.std.specs.Prelude.{◌≤◌, length};
    ghost use Rattle.numbering.specs.Dues.{Pile, stack};

    ghost Value = { Pile };

    ghost view = { λ s. record { dues = stack s.depth s.work.now; room = length s.work.now } };

    ghost invariant = { λ s. s.depth ≤ length s.work.now };
}

impl<'a> Stack<'a> {
    pub(crate) fn new(work: &'a mut [Due]) -> Stack<'a>
        ensures { result ≡ record { dues = []; room = length work.old } }
    {
        Stack { work, depth: 0 }
    }

    pub(crate) fn push(&mut self, due: Due)
        requires { length self.old.dues < self.old.room }
        ensures { self.new ≡ record self.old { dues = due ∷ self.old.dues } }
    {
        self.work[self.depth] = due;
        self.depth += 1;
    }

    pub(crate) fn pop(&mut self) -> Option<Due>
        ensures dues { popped result self.new.dues ≡ self.old.dues }
        ensures room { self.new.room ≡ self.old.room }
    {
        if self.depth == 0 {
            return None;
        }
        self.depth -= 1;
        Some(self.work[self.depth])
    }

    /// Puts what is due at a child's place on top.
    fn push_due(&mut self, due: Option<u16>, number: u64)
        requires { length self.old.dues + places due ≤ self.old.room }
        ensures { self.new ≡ record self.old { dues = pushed due number self.old.dues } }
    {
        if let Some(goal) = due {
            self.push(Due { goal, number });
        }
    }

    /// Puts the children of an alternative on top, the left one over the right one.
    pub(crate) fn push_children(&mut self, alternative: Alternative, left: u64, right: u64)
        requires { length self.old.dues + (places (left_due alternative) + places (right_due alternative)) ≤ self.old.room }
        ensures { self.new ≡ record self.old { dues = children alternative left right self.old.dues } }
    {
        self.push_due(right_due(alternative), right);
        self.push_due(left_due(alternative), left);
    }
}
