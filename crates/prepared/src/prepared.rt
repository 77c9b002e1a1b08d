//! A prepared space.

ghost use Rattle.std.specs.Prelude.{map, vec_items};
ghost use Rattle.spaces.specs.TableSpaces.{table_space};
ghost use Rattle.numbering.specs.Standing.{Standing};
ghost use Rattle.prepared.specs.Sums.{Summed};

use numbering::tally::Tally;
use spaces::table::Table;

mod counting;
mod lookup;
mod making;
mod ranking;
mod unranking;
mod view;

pub use crate::prepared::making::prepare;

/// A space with all that calls on its plans need: its alternatives, the tallies of its goals, and for each goal the counts
/// of its alternatives, added up: at each place those of the alternatives before it.
#[derive(Drop)]
pub struct Prepared {
    table: Table,
    tallies: Vec<Tally>,
    // beside the table, not in its rows: the table is a space of its own, which is counted before there are sums
    sums: Vec<Vec<u64>>,
    ghost standing: { Standing (table_space table) tallies.items },
    ghost summed: { Summed (table_space table) (map vec_items sums.items) },
}
