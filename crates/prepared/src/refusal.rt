//! Why a space is not prepared.

ghost use Rattle.std.specs.Prelude.{◌≡◌};
ghost use Rattle.prepared.specs.Refusals.{number_of};
ghost use Rattle.prepared.specs.declared.refusal.PrepareRefusal.TheVariants.{Count, NoMemory};

use numbering::refusal::Refusal;
use std::alloc::{AllocError, AllocFailed};
use std::fmt;
use thiserror::Error;

/// Why a space is not prepared.
#[derive(Clone, Copy, PartialEq, Eq, Debug, Error)]
pub enum PrepareRefusal {
    /// The space is none that is counted: it has no goals, too many plans or too large ones.
    Count(Refusal),
    /// There is no memory for the tables.
    NoMemory,
}

impl PrepareRefusal {
    /// The refusal's number, 20, 22 or 23: want of memory has none.
    pub fn number(self) -> Option<u8>
        ensures { result ≡ number_of self }
    {
        match self {
            PrepareRefusal::Count(refusal) => Some(refusal.number()),
            PrepareRefusal::NoMemory => None,
        }
    }

    /// The refusal in plain words.
    pub fn reason(self) -> &'static str {
        match self {
            PrepareRefusal::Count(refusal) => refusal.reason(),
            PrepareRefusal::NoMemory => "there is no memory for the tables",
        }
    }
}

/// The reason.
impl fmt::Display for PrepareRefusal {
    fn fmt<W: fmt::Write>(&self, f: &mut fmt::Formatter<W>) -> fmt::Result {
        f.write_str(self.reason())
    }
}

// By hand, as the two below: a derive gives a From without a contract, and `prepare` needs to know which refusal comes.
impl From<Refusal> for PrepareRefusal {
    ghost from_gives = { λ e r. r ≡ Count e };

    fn from(e: Refusal) -> PrepareRefusal {
        PrepareRefusal::Count(e)
    }
}

// Twice, since `vec!` and `push` fail with errors of their own.
impl From<AllocError> for PrepareRefusal {
    ghost from_gives = { λ _ r. r ≡ NoMemory };

    fn from(_e: AllocError) -> PrepareRefusal {
        PrepareRefusal::NoMemory
    }
}

impl<T: Drop> From<AllocFailed<T>> for PrepareRefusal {
    ghost from_gives = { λ _ r. r ≡ NoMemory };

    fn from(_e: AllocFailed<T>) -> PrepareRefusal {
        PrepareRefusal::NoMemory
    }
}
