//! A view of a memo file.

ghost use Rattle.spaces.specs.Laws.{lawful_prop};
ghost use Rattle.spaces.specs.Spaces.{Lawful};
ghost use Rattle.memos.specs.Slices.{slice_space};

use crate::cursor::Cursor;
use crate::header::read_header;
use crate::lists::Lists;
use crate::load::read_records;
use crate::refusal::OpenRefusal;
use spaces::space::{Alternative, Space};
use std::alloc::{AllocError, Global};

/// A plan space as a memo file holds it.
#[derive(Drop)]
pub struct Memo {
    heap: Global,
    goals: u16,
    root: u16,
    lists: Lists,
    ghost lawful: { Lawful (slice_space goals root lists.items.items lists.starts.items) } by { lawful_prop _ },
}

impl Memo {
    ghost use Rattle.std.specs.Prelude.{◌≡◌, MatchResult, OnErr};
    ghost use Rattle.memos.specs.Opens.{NotOpened, Opened, Settled};
    ghost use Rattle.memos.specs.Views.{no_goals, view};

    /// A view of no goals.
    pub fn empty(heap: Global) -> Memo
        ensures { view result ≡ no_goals }
    {
        Memo {
            heap,
            goals: 0,
            root: 0,
            lists: Lists::new(heap),
        }
    }

    /// The memo that a file holds.
    fn read(heap: Global, file: &[u8]) -> Result<Memo, OpenRefusal>
        ensures { MatchResult result (λ m. Opened file.now (view m)) (λ e. NotOpened file.now e) }
    {
        let header = read_header(file)?;
        let lists = read_records(heap, Cursor::new(file, header.end), header.goals)?;
        Ok(Memo {
            heap,
            goals: header.goals,
            root: header.root,
            lists,
        })
    }

    /// Fills the view with the memo that the file holds. A refused file leaves the view as it was.
    pub fn open(&mut self, file: &[u8]) -> Result<(), OpenRefusal>
        ensures opened { MatchResult result (λ _. Opened file.now (view self.new)) (λ e. NotOpened file.now e) }
        ensures same { OnErr result (self.new ≡ self.old) }
        ensures format { Settled file.now }
    {
        let memo = Memo::read(self.heap, file)?;
        *self = memo;
        Ok(())
    }
}

impl Space for Memo {
    ghost use Rattle.memos.specs.Views.{view};

    ghost meaning = { view };

    ghost lawful = { λ s. s.lawful };

    fn goals(&self) -> u16 {
        self.goals
    }

    fn root(&self) -> u16 {
        self.root
    }

    fn width(&self, goal: u16) -> u32 {
        self.lists.goal_list(goal).len() as u32
    }

    fn alternative(&self, goal: u16, index: u32) -> Option<Alternative> {
        self.lists.goal_list(goal).get(index as usize).copied()
    }

    fn list(&self, goal: u16, heap: Global) -> Result<Vec<Alternative>, AllocError> {
        self.lists.goal_list(goal).to_vec(heap)
    }
}
