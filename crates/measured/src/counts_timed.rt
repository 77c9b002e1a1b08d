//! Counting and preparing.

use numbering::counting::count;
use numbering::tally::Tally;
use prepared::prepared::prepare;
use spaces::bushy::Bushy;
use spaces::filter::KindFilter;
use spaces::kind::Kind;
use spaces::mask::KindMask;
use spaces::order::{Order, OrderLayer};
use spaces::space::Space;
use std::alloc::Global;

/// The mask of all seven kinds.
const EVERY_KIND: u8 = 0b111_1111;

/// The sum of what the work gives, done so many times. A round that fails, which it does only for want of memory, adds nothing.
fn sum_rounds<F: FnMut() -> Option<u64>>(rounds: u64, mut work: F) -> u64
    requires { F.IsAlwaysCallable work }
{
    let mut sum: u64 = 0;
    for _ in 0..rounds {
        sum = sum.wrapping_add(work().unwrap_or(0));
    }
    sum
}

fn count_rounds(heap: Global, relations: u64, rounds: u64) -> Option<u64> {
    let space = Bushy::new(relations, Kind::HashJoin).ok()?;
    let mut tallies = vec![in heap; Tally::default(); usize::from(space.goals())].ok()?;
    Some(sum_rounds(rounds, || {
        let (plans, _) = count(&space, &mut tallies).ok()?;
        Some(plans)
    }))
}

fn prepare_rounds<S: Space>(heap: Global, space: &S, rounds: u64) -> u64 {
    sum_rounds(rounds, || {
        let (plans, _) = prepare(space, heap).ok()?.count();
        Some(plans)
    })
}

/// Prepares the bushy space with merge joins, bare or under layers, which C names by their number.
fn prepare_layered(heap: Global, relations: u64, layers: u64, rounds: u64) -> Option<u64> {
    let bare = Bushy::new(relations, Kind::MergeJoin).ok()?;
    let mask = KindMask::new(EVERY_KIND).ok()?;
    let filtered = KindFilter::new(bare, mask);
    let sum = match layers {
        0 => prepare_rounds(heap, &bare, rounds),
        1 => prepare_rounds(heap, &filtered, rounds),
        2 => prepare_rounds(heap, &OrderLayer::new(filtered, Order::Any), rounds),
        _ => {
            let ordered = OrderLayer::new(filtered, Order::Any);
            prepare_rounds(heap, &KindFilter::new(ordered, mask), rounds)
        }
    };
    Some(sum)
}

/// Counts the bushy space with hash joins by the plain call.
#[unsafe(no_mangle)]
pub extern "C" fn planbench_count(heap: Global, relations: u64, rounds: u64) -> u64 {
    count_rounds(heap, relations, rounds).unwrap_or(0)
}

/// Prepares the bushy space with merge joins, bare (0 layers), or under a filter (1), a filter and an order (2), a filter, an
/// order and a filter (3). The filters keep every kind, so that each layer has all of the work.
#[unsafe(no_mangle)]
pub extern "C" fn planbench_prepare(heap: Global, relations: u64, layers: u64, rounds: u64) -> u64 {
    prepare_layered(heap, relations, layers, rounds).unwrap_or(0)
}
