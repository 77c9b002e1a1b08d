//! The alternatives of all goals, as the records of a file fill them.

ghost use Rattle.std.specs.Prelude.{◌≡◌, ◌+◌, ◌<◌, ◌≤◌, [], vec_len, OnOk};
ghost use Rattle.memos.specs.Opens.{Stored};
ghost use Rattle.memos.specs.Rules.{among};
ghost use Rattle.memos.specs.Slices.{Indexed, begins, sliced};

use crate::fields::Record;
use spaces::space::Alternative;
use std::alloc::{AllocError, Global};

/// The alternatives of all goals in one list, those of goal `g` from `starts[g]` up to `starts[g + 1]`. A start that is not
/// written is the end of the list. Lists of their own, as a `Table` has, would be an allocation for each goal.
#[derive(Drop)]
pub struct Lists {
    pub items: Vec<Alternative>,
    pub starts: Vec<u16>,
    ghost indexed: { Indexed items.items starts.items },
}

impl Lists {
    /// No alternatives.
    pub fn new(heap: Global) -> Lists
        ensures items { result.items.items ≡ [] }
        ensures starts { result.starts.items ≡ [] }
    {
        Lists {
            items: Vec::new(heap),
            starts: Vec::new(heap),
        }
    }

    /// Where the alternatives of a goal begin.
    fn begin(&self, goal: usize) -> usize
        ensures { result ≡ begins self.now.items.items self.now.starts.items goal }
    {
        self.starts
            .get(goal)
            .map_or(self.items.len(), |start| usize::from(*start))
    }

    /// The alternatives of a goal, in their order.
    pub fn goal_list(&self, goal: u16) -> &[Alternative]
        ensures { result.now ≡ sliced self.now.items.items self.now.starts.items goal }
    {
        let goal = usize::from(goal);
        let from = self.begin(goal);
        let end = self.begin(goal + 1);
        &self.items[from..end]
    }

    /// Whether a goal has the alternative of an entry already.
    pub fn repeated(&self, entry: Record) -> bool
        ensures { result ≡ among (sliced self.now.items.items self.now.starts.items entry.goal) entry.alternative }
    {
        self.goal_list(entry.goal).contains(&entry.alternative)
    }

    /// Puts an entry's alternative behind those of its goal, which is the last.
    pub fn store(&mut self, entry: Record) -> Result<(), AllocError>
        requires last { vec_len self.old.starts ≤ entry.goal + 1 }
        requires room { vec_len self.old.items < 4096 }
        ensures lists { OnOk result (Stored (sliced self.old.items.items self.old.starts.items) (sliced self.new.items.items self.new.starts.items) entry) }
        ensures lens { OnOk result ((vec_len self.new.starts ≡ entry.goal + 1) × (vec_len self.new.items ≡ vec_len self.old.items + 1)) }
    {
        let end = self.items.len() as u16;
        self.starts.resize(usize::from(entry.goal) + 1, end)?;
        self.items.push(entry.alternative)?;
        Ok(())
    }
}
