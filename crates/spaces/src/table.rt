//! A space whose lists are kept as they are.

ghost use Rattle.std.specs.Prelude.{◌≡◌, map, IfOk};
ghost use Rattle.std.specs.List.{range_with_len};
ghost use Rattle.spaces.specs.Spaces.{Lawful};
ghost use Rattle.spaces.specs.Laws.{lawful_prop};
ghost use Rattle.spaces.specs.Tables.{held, tabled};

use crate::space::{Alternative, Space};
use std::alloc::{AllocError, Global};

/// A space whose lists are kept as they are, in the order of the goals. A goal past the last list has no alternatives.
#[derive(Drop)]
pub struct Table {
    goals: u16,
    root: u16,
    lists: Vec<Vec<Alternative>>,
    ghost lawful: { Lawful (tabled goals root (held lists.items)) } by { lawful_prop _ },
}

/// Copies the lists of all goals in order.
fn copy_lists<S: Space>(space: &S, heap: Global) -> Result<Vec<Vec<Alternative>>, AllocError>
    ensures { IfOk result (λ lists. held lists.items ≡ map (S.meaning space.now).lists (range_with_len 0 (S.meaning space.now).goals)) }
{
    let mut lists = Vec::with_capacity(heap, usize::from(space.goals()))?;
    for goal in 0..space.goals() {
        let mut list = space.list(goal, heap)?;
        // a layer's list has room for what it left out of the list below
        list.shrink_to_fit();
        lists.push(list)?;
    }
    Ok(lists)
}

impl Table {
    ghost use Rattle.spaces.specs.TableSpaces.{table_space};

    /// The table with these lists.
    pub fn new(goals: u16, root: u16, lists: Vec<Vec<Alternative>>) -> Table
        requires { Lawful (tabled goals root (held lists.items)) }
        ensures { table_space result ≡ tabled goals root (held lists.items) }
    {
        Table { goals, root, lists }
    }

    /// A copy of a space.
    pub fn copy<S: Space>(space: &S, heap: Global) -> Result<Table, AllocError>
        ensures { IfOk result (λ t. table_space t ≡ S.meaning space.now) }
    {
        let lists = copy_lists(space, heap)?;
        Ok(Table {
            goals: space.goals(),
            root: space.root(),
            lists,
        })
    }

    /// The alternatives of a goal, in their order.
    pub fn goal_list(&self, goal: u16) -> &[Alternative]
        ensures { result.now ≡ (table_space self.now).lists goal }
    {
        match self.lists.get(usize::from(goal)) {
            Some(list) => list.as_slice(),
            None => &[],
        }
    }
}

impl Space for Table {
    ghost use Rattle.spaces.specs.TableSpaces.{table_space};

    ghost meaning = { table_space };

    ghost lawful = { λ s. s.lawful };

    fn goals(&self) -> u16 {
        self.goals
    }

    fn root(&self) -> u16 {
        self.root
    }

    fn width(&self, goal: u16) -> u32 {
        self.goal_list(goal).len() as u32
    }

    fn alternative(&self, goal: u16, index: u32) -> Option<Alternative> {
        self.goal_list(goal).get(index as usize).copied()
    }

    fn list(&self, goal: u16, heap: Global) -> Result<Vec<Alternative>, AllocError> {
        self.goal_list(goal).to_vec(heap)
    }
}
