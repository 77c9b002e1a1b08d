//! The header of a file.

ghost use Rattle.std.specs.Prelude.{◌≡◌};
ghost use Rattle.memos.specs.Reading.{read_header};

use crate::cursor::Cursor;
use crate::fields::Header;
use crate::refusal::OpenRefusal;

const LONGEST_FILE: usize = 60_000;

const MOST_GOALS: u16 = 4096;

/// The header, or the first rule on it that the file breaks.
pub fn read_header(file: &[u8]) -> Result<Header, OpenRefusal>
    ensures { result ≡ read_header file.now }
{
    if file.len() > LONGEST_FILE {
        return Err(OpenRefusal::LongFile);
    }
    let mut cursor = Cursor::new(file, 0);
    let map = cursor.byte().ok_or(OpenRefusal::HeaderEnds)?;
    if map % 2 == 0 || map > 3 {
        return Err(OpenRefusal::HeaderBits);
    }
    let goals = cursor.word().ok_or(OpenRefusal::HeaderEnds)?;
    let root = cursor
        .field(map / 2 % 2 == 1, Cursor::word)
        .ok_or(OpenRefusal::HeaderEnds)?;
    if goals == 0 || goals > MOST_GOALS {
        return Err(OpenRefusal::GoalCount);
    }
    let last = goals - 1;
    if root.is_some_and(|root| last <= root) {
        return Err(OpenRefusal::RootWritten);
    }
    Ok(Header {
        goals,
        root: root.unwrap_or(last),
        end: cursor.at,
    })
}
