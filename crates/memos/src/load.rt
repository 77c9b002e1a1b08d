//! The records of a file in memory.

ghost use Rattle.std.specs.Prelude.{[], MatchResult};
ghost use Rattle.memos.specs.Opens.{FirstFits, ReadAll, Stops};
ghost use Rattle.memos.specs.Reading.{read_records};
ghost use Rattle.memos.specs.Slices.{sliced};

use crate::cursor::Cursor;
use crate::lists::Lists;
use crate::record::read_alone;
use crate::refusal::OpenRefusal;
use std::alloc::Global;

const MOST_RECORDS: usize = 4096;

/// Reads the records up to the end of a file. The number of starts is one above the goal of the record before.
pub fn read_records(heap: Global, mut cursor: Cursor, goals: u16) -> Result<Lists, OpenRefusal>
    ensures { MatchResult result
        (λ lists. ReadAll cursor.entry.file.now goals cursor.entry.at (sliced lists.items.items lists.starts.items))
        (λ e. Stops (FirstFits cursor.entry.file.now goals cursor.entry.at) e (read_records 4096 cursor.entry.file.now goals [] 0 cursor.entry.at)) }
{
    let mut lists = Lists::new(heap);
    while cursor.has_more() {
        let at = cursor.at;
        if lists.items.len() >= MOST_RECORDS {
            return Err(OpenRefusal::ManyRecords(at));
        }
        let entry = read_alone(&mut cursor, goals, lists.starts.len() as u16)?;
        if lists.repeated(entry) {
            return Err(OpenRefusal::Repeated(at));
        }
        lists.store(entry)?;
    }
    Ok(lists)
}
