//! The interface of a plan space.

ghost use Rattle.std.specs.Prelude.{◌≡◌, filter, length, IfOk};
ghost use Rattle.std.specs.Iterator.{YieldsFirst, item_count};
ghost use Rattle.std.specs.List.{slice_get};
ghost use Rattle.spaces.specs.Masks.{passes};
ghost use Rattle.spaces.specs.Spaces.{Appended, Lawful, Meaning, ahead};

use crate::kind::Kind;
use crate::mask::KindMask;
use std::alloc::{AllocError, Global};

/// One way to reach a goal: an operator and the goals of its children. An unused child is 0.
#[derive(Clone, Copy, PartialEq, Eq, Default, Debug)]
pub struct Alternative {
    pub kind: Kind,
    pub tag: u16,
    pub left: u16,
    pub right: u16,
}

/// A plan space: goals from 0, each with a list of alternatives, and a root.
///
/// `meaning` is the space as a value, which every answer is taken from, and `lawful` what holds of
/// every space: few goals, short lists without repeats, and children below their goal.
pub trait Space {
    ghost meaning: { Self → Meaning };

    /// How many goals there are.
    fn goals(&self) -> u16
        ensures { result ≡ (meaning self.now).goals };

    /// The goal that complete plans are for.
    fn root(&self) -> u16
        ensures { result ≡ (meaning self.now).root };

    /// How many alternatives a goal has: none past the last goal.
    fn width(&self, goal: u16) -> u32
        ensures { result ≡ length ((meaning self.now).lists goal) };

    /// The alternative number `index` of a goal.
    fn alternative(&self, goal: u16, index: u32) -> Option<Alternative>
        ensures { result ≡ slice_get ((meaning self.now).lists goal) index };

    /// All alternatives of a goal in their order, in a list of its own.
    ///
    /// A space that can give them faster than one by one, as a layer can, answers it itself.
    fn list(&self, goal: u16, heap: Global) -> Result<Vec<Alternative>, AllocError>
        ensures { IfOk result (λ list. list.items ≡ (meaning self.now).lists goal) }
    {
        let mut list = Vec::new(heap);
        // not over `alternatives`, since `Self` may have no size here
        for index in 0..self.width(goal) {
            if let Some(alternative) = self.alternative(goal, index) {
                list.push(alternative)?;
            }
        }
        Ok(list)
    }

    /// The alternatives of a goal whose kinds are in the mask, in their order, in a list of its own.
    ///
    /// A space that knows what kinds a goal has without a look at each alternative answers it itself.
    fn list_of_kinds(
        &self,
        goal: u16,
        mask: KindMask,
        heap: Global,
    ) -> Result<Vec<Alternative>, AllocError>
        ensures { IfOk result (λ list. list.items ≡ filter (passes mask.bits) ((meaning self.now).lists goal)) }
    {
        let mut list = self.list(goal, heap)?;
        list.retain(|alternative| mask.has(alternative.kind));
        Ok(list)
    }

    /// Appends all alternatives of a goal in their order to a list that the caller has. Where memory is short,
    /// what stood in that list still stands at its front.
    fn list_into(&self, goal: u16, into: &mut Vec<Alternative>) -> Result<(), AllocError>
        ensures { Appended into.old.items into.new.items ((meaning self.now).lists goal) result }
    {
        let list = self.list(goal, *into.allocator())?;
        into.extend_from_slice(&list)
    }

    /// All alternatives of a goal one by one, in their order.
    fn alternatives(&self, goal: u16) -> Alternatives<'_, Self>
    where
        Self: Sized,
        ensures { ahead meaning result ≡ (meaning self.now).lists goal }
    {
        Alternatives {
            space: self,
            goal,
            index: 0,
        }
    }

    ghost lawful: { (s : Self) → Lawful (meaning s) };
}

/// The alternatives of a goal one by one, in their order.
#[derive(Drop)]
pub struct Alternatives<'a, S> {
    space: &'a S,
    goal: u16,
    index: u32,
}

impl<S: Space> Iterator for Alternatives<'_, S> {
    type Item = Alternative;

    ghost next_gives = { YieldsFirst (ahead S.Space.meaning) };

    ghost remaining = { item_count (ahead S.Space.meaning) };

    fn next(&mut self) -> Option<Alternative> {
        let Some(alternative) = self.space.alternative(self.goal, self.index) else {
            return None;
        };
        self.index += 1;
        Some(alternative)
    }
}
