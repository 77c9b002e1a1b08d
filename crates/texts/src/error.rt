//! Why a text is no plan's.

ghost use Rattle.std.specs.Prelude.{◌≡◌};
ghost use Rattle.texts.specs.declared.error.TextError.TheVariants.{NoMemory};
ghost use Rattle.texts.specs.Places.{place as place_of};

use std::alloc::{AllocError, AllocFailed};
use std::fmt;
use thiserror::Error;

/// Why a text is no plan's: what is due at which byte and does not stand there, or want of memory.
#[derive(Clone, Copy, PartialEq, Eq, Debug, Error)]
pub enum TextError {
    /// A node is due at this byte: a letter, a tag, `@` and a goal.
    NoNode(usize),
    /// A parenthesis or a comma is due at this byte.
    NoMark(usize),
    /// The plan is complete at this byte, and the text should end.
    BytesFollow(usize),
    /// There is no memory for the plan.
    NoMemory,
}

impl TextError {
    /// The byte at which the text stops being a plan's.
    pub fn place(self) -> Option<usize>
        ensures { result ≡ place_of self }
    {
        match self {
            TextError::NoNode(at) | TextError::NoMark(at) | TextError::BytesFollow(at) => Some(at),
            TextError::NoMemory => None,
        }
    }

    /// The reason in words.
    pub fn reason(self) -> &'static str {
        match self {
            TextError::NoNode(_) => "a node is due: a letter, a tag, '@' and a goal",
            TextError::NoMark(_) => "another parenthesis or comma is due",
            TextError::BytesFollow(_) => "the plan is complete, and the text should end",
            TextError::NoMemory => "there is no memory for the plan",
        }
    }
}

/// The reason.
impl fmt::Display for TextError {
    fn fmt<W: fmt::Write>(&self, f: &mut fmt::Formatter<W>) -> fmt::Result {
        f.write_str(self.reason())
    }
}

// By hand, since what a derive writes has no contract; and twice, since `vec!` and `push` fail with errors of their own.
impl From<AllocError> for TextError {
    ghost from_gives = { λ _ r. r ≡ NoMemory };

    fn from(_e: AllocError) -> TextError {
        TextError::NoMemory
    }
}

impl<T: Drop> From<AllocFailed<T>> for TextError {
    ghost from_gives = { λ _ r. r ≡ NoMemory };

    fn from(_e: AllocFailed<T>) -> TextError {
        TextError::NoMemory
    }
}
