//! A prepared space, and buffers that are long enough for its plans.

use numbering::due::Due;
use numbering::node::Node;
use prepared::prepared::{Prepared, prepare};
use spaces::bushy::Bushy;
use spaces::kind::Kind;
use std::alloc::Global;

/// Numbers are taken by steps of this length.
const STEP: u64 = 7919;

/// A prepared space, how many plans it has, and buffers for its calls.
#[derive(Drop)]
pub struct Bench {
    pub space: Prepared,
    pub plans: u64,
    pub work: Vec<Due>,
    pub plan: Vec<Node>,
}

impl Bench {
    /// The bushy space with hash joins over some relations, prepared.
    pub fn bushy(heap: Global, relations: u64) -> Option<Bench> {
        let bushy = Bushy::new(relations, Kind::HashJoin).ok()?;
        let space = prepare(&bushy, heap).ok()?;
        let (plans, largest) = space.count();
        let largest = usize::from(largest);
        Some(Bench {
            space,
            plans,
            work: vec![in heap; Due::default(); largest].ok()?,
            plan: vec![in heap; Node::default(); largest].ok()?,
        })
    }

    /// The sum of what `work` gives for `rounds` numbers of plans.
    pub fn sum<F: Fn(&mut Bench, u64) -> Option<u64>>(
        &mut self,
        rounds: u64,
        work: F,
    ) -> Option<u64>
        requires { F.IsAlwaysCallable work }
    {
        let mut sum: u64 = 0;
        let mut number: u64 = 0;
        for _ in 0..rounds {
            sum = sum.wrapping_add(work(self, number)?);
            number = number.wrapping_add(STEP);
            if number >= self.plans {
                number = 0;
            }
        }
        Some(sum)
    }
}
