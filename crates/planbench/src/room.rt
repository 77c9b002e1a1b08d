//! Buffers for the calls on a space.

use crate::failure::Failure;
use numbering::counting::count;
use numbering::due::Due;
use numbering::node::Node;
use numbering::tally::Tally;
use spaces::space::Space;
use std::alloc::Global;

/// Buffers that are long enough for a space, how many plans it has and how large the largest is.
#[derive(Drop)]
pub struct Room {
    pub plans: u64,
    pub largest: usize,
    pub tallies: Vec<Tally>,
    pub work: Vec<Due>,
    pub plan: Vec<Node>,
}

impl Room {
    /// Counts the space, and takes what its largest plan needs.
    pub fn new<S: Space>(heap: Global, space: &S) -> Result<Room, Failure> {
        let mut tallies = vec![in heap; Tally::default(); usize::from(space.goals())]?;
        let (plans, size) = count(space, &mut tallies)?;
        let largest = usize::from(size);
        Ok(Room {
            plans,
            largest,
            tallies,
            work: vec![in heap; Due::default(); largest]?,
            plan: vec![in heap; Node::default(); largest]?,
        })
    }
}
