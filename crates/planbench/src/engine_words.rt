//! The engines that the command line names.

use crate::failure::Failure;

#[derive(Clone, Copy)]
pub enum EngineWord<'a> {
    Cover,
    /// The row counts of relations 0, 1, and so on, in decimal with commas between.
    Rows(&'a str),
}

/// `cover`, or `rows:` and row counts.
impl<'a> TryFrom<&'a str> for EngineWord<'a> {
    type Error = Failure;

    fn try_from(word: &'a str) -> Result<EngineWord<'a>, Failure> {
        if word == "cover" {
            return Ok(EngineWord::Cover);
        }
        match word.strip_prefix("rows:") {
            Some(counts) => Ok(EngineWord::Rows(counts)),
            None => Err(Failure::Usage(
                "an engine is cover, or rows: and row counts with commas between",
            )),
        }
    }
}
