//! Why a file is not opened.

ghost use Rattle.std.specs.Prelude.{◌≡◌};
ghost use Rattle.memos.specs.Refusals.{number_of, place_of};
ghost use Rattle.memos.specs.declared.refusal.OpenRefusal.TheVariants.{NoMemory};

use std::alloc::{AllocError, AllocFailed};
use std::fmt;
use thiserror::Error;

/// Why a file is not opened: the first rule of the format that it breaks, or want of memory.
///
/// The rules on records carry a place, the offset of the bit map of the record that breaks the rule.
#[derive(Clone, Copy, PartialEq, Eq, Debug, Error)]
pub enum OpenRefusal {
    /// The file is longer than 60,000 bytes.
    LongFile,
    /// The header's bit map lacks bit 0, or has a bit above 1.
    HeaderBits,
    /// The file ends inside the header.
    HeaderEnds,
    /// The number of goals is 0 or above 4,096.
    GoalCount,
    /// The root is written and is not below the last goal.
    RootWritten,
    /// There are 4,096 records before this one.
    ManyRecords(usize),
    /// The record's bit map has a bit above 4.
    RecordBits(usize),
    /// The file ends inside the record.
    RecordEnds(usize),
    /// The first record has no goal, or a goal is written that does not exist or does not rise.
    GoalOrder(usize),
    /// The kind is above 6, or 0 and written.
    NoKind(usize),
    /// The children that are written are not those that the kind has.
    ChildBits(usize),
    /// The tag is written and 0.
    ZeroTag(usize),
    /// A child is not below the record's goal.
    ChildOrder(usize),
    /// The goal has an equal record already.
    Repeated(usize),
    /// There is no memory for the memo.
    NoMemory,
}

impl OpenRefusal {
    /// The refusal's number, 1 to 14: want of memory has none.
    pub fn number(self) -> Option<u8>
        ensures { result ≡ number_of self }
    {
        match self {
            OpenRefusal::LongFile => Some(1),
            OpenRefusal::HeaderBits => Some(2),
            OpenRefusal::HeaderEnds => Some(3),
            OpenRefusal::GoalCount => Some(4),
            OpenRefusal::RootWritten => Some(5),
            OpenRefusal::ManyRecords(_) => Some(6),
            OpenRefusal::RecordBits(_) => Some(7),
            OpenRefusal::RecordEnds(_) => Some(8),
            OpenRefusal::GoalOrder(_) => Some(9),
            OpenRefusal::NoKind(_) => Some(10),
            OpenRefusal::ChildBits(_) => Some(11),
            OpenRefusal::ZeroTag(_) => Some(12),
            OpenRefusal::ChildOrder(_) => Some(13),
            OpenRefusal::Repeated(_) => Some(14),
            OpenRefusal::NoMemory => None,
        }
    }

    /// Where the file breaks the rule: 0 in the header, else the offset of a record's bit map. Want of memory has no place.
    pub fn place(self) -> Option<usize>
        ensures { result ≡ place_of self }
    {
        match self {
            OpenRefusal::LongFile
            | OpenRefusal::HeaderBits
            | OpenRefusal::HeaderEnds
            | OpenRefusal::GoalCount
            | OpenRefusal::RootWritten => Some(0),
            OpenRefusal::ManyRecords(at)
            | OpenRefusal::RecordBits(at)
            | OpenRefusal::RecordEnds(at)
            | OpenRefusal::GoalOrder(at)
            | OpenRefusal::NoKind(at)
            | OpenRefusal::ChildBits(at)
            | OpenRefusal::ZeroTag(at)
            | OpenRefusal::ChildOrder(at)
            | OpenRefusal::Repeated(at) => Some(at),
            OpenRefusal::NoMemory => None,
        }
    }

    /// The rule in plain words, for a message.
    pub fn reason(&self) -> &'static str {
        match self {
            OpenRefusal::LongFile => "the file is longer than 60,000 bytes",
            OpenRefusal::HeaderBits => "the header's bit map is none that a header can have",
            OpenRefusal::HeaderEnds => "the file ends inside the header",
            OpenRefusal::GoalCount => "the number of goals is not 1 to 4,096",
            OpenRefusal::RootWritten => "a written root is not below the last goal",
            OpenRefusal::ManyRecords(_) => "this record comes after 4,096 others",
            OpenRefusal::RecordBits(_) => "this record's bit map has a bit above 4",
            OpenRefusal::RecordEnds(_) => "the file ends inside this record",
            OpenRefusal::GoalOrder(_) =>
                "this record has no goal, or one that is too high or does not rise",
            OpenRefusal::NoKind(_) => "this record's kind is above 6, or 0 and written",
            OpenRefusal::ChildBits(_) => "this record's children do not fit its kind",
            OpenRefusal::ZeroTag(_) => "this record's tag is 0 and written",
            OpenRefusal::ChildOrder(_) => "a child of this record is not below its goal",
            OpenRefusal::Repeated(_) => "this record repeats another of its goal",
            OpenRefusal::NoMemory => "there is no memory for the memo",
        }
    }
}

/// The reason.
impl fmt::Display for OpenRefusal {
    fn fmt<W: fmt::Write>(&self, f: &mut fmt::Formatter<W>) -> fmt::Result {
        f.write_str(self.reason())
    }
}

// By hand, since what a derive writes has no contract; and twice, since `vec!` and `push` fail with errors of their own.
impl From<AllocError> for OpenRefusal {
    ghost from_gives = { λ _ r. r ≡ NoMemory };

    fn from(_e: AllocError) -> OpenRefusal {
        OpenRefusal::NoMemory
    }
}

impl<T: Drop> From<AllocFailed<T>> for OpenRefusal {
    ghost from_gives = { λ _ r. r ≡ NoMemory };

    fn from(_e: AllocFailed<T>) -> OpenRefusal {
        OpenRefusal::NoMemory
    }
}
