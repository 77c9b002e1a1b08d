//! Writing and ranking plans of a prepared space.

use crate::bench::Bench;
use std::alloc::Global;

impl Bench {
    /// Writes the plan that has the number, and gives its length.
    fn write(&mut self, number: u64) -> Option<usize> {
        self.space
            .unrank(number, &mut self.work, &mut self.plan)
            .ok()
    }

    /// The number of the plan that the first nodes of the plan buffer list.
    fn read(&mut self, len: usize) -> Option<u64> {
        self.space.rank(self.plan.get(..len)?, &mut self.work).ok()
    }
}

fn unrank_rounds(heap: Global, relations: u64, rounds: u64) -> Option<u64> {
    Bench::bushy(heap, relations)?.sum(rounds, |bench, number| {
        bench.write(number).map(|len| len as u64)
    })
}

fn rank_rounds(heap: Global, relations: u64, rounds: u64) -> Option<u64> {
    Bench::bushy(heap, relations)?.sum(rounds, |bench, number| {
        let len = bench.write(number)?;
        bench.read(len)
    })
}

/// Writes plans: the sum of their lengths.
#[unsafe(no_mangle)]
pub extern "C" fn planbench_unrank(heap: Global, relations: u64, rounds: u64) -> u64 {
    unrank_rounds(heap, relations, rounds).unwrap_or(0)
}

/// Writes plans and ranks them: the sum of their numbers.
#[unsafe(no_mangle)]
pub extern "C" fn planbench_rank(heap: Global, relations: u64, rounds: u64) -> u64 {
    rank_rounds(heap, relations, rounds).unwrap_or(0)
}
