//! The command `count`.

use crate::failure::Failure;
use crate::pile::{Pile, Task};
use crate::words::Words;
use numbering::counting;
use numbering::tally::Tally;
use spaces::space::Space;

/// Prints how many plans a space holds and how large the largest is.
#[derive(Clone, Copy)]
struct Count;

impl Task for Count {
    fn run<S: Space + Drop>(&self, rt: &HostRuntime, space: S) -> Result<(), Failure> {
        let mut tallies = vec![in rt.alloc(); Tally::default(); usize::from(space.goals())]?;
        let (plans, largest) = counting::count(&space, &mut tallies)?;
        println!(rt; "plans {plans}\nlargest {largest}")?;
        Ok(())
    }
}

/// `count SPACE`
pub fn run_count(rt: &HostRuntime, words: &mut Words) -> Result<(), Failure> {
    let pile = Pile::read(words)?;
    words.end()?;
    pile.run(rt, Count)
}
