ghost use Rattle.std.specs.Prelude.{◌≡◌};
ghost use Rattle.spaces.specs.Refusals.{number as number_of};

use std::fmt;
use thiserror::Error;

/// Why a space or a layer is not made.
#[derive(Clone, Copy, PartialEq, Eq, Debug, Error)]
pub enum MakeRefusal {
    /// The number of relations is not 1 to 10.
    Relations,
    /// The kind is no join.
    NoJoin,
    /// The mask has bit 7, which no kind has.
    NoSuchKind,
}

impl MakeRefusal {
    /// The refusal's number. A method, as at the refusals of which some have none, so that all are asked alike.
    pub fn number(self) -> u8
        ensures { result ≡ number_of self }
    {
        match self {
            MakeRefusal::Relations => 15,
            MakeRefusal::NoJoin => 16,
            MakeRefusal::NoSuchKind => 17,
        }
    }

    /// The reason in words.
    pub fn reason(self) -> &'static str {
        match self {
            MakeRefusal::Relations => "the number of relations is not 1 to 10",
            MakeRefusal::NoJoin => "the operator is no join",
            MakeRefusal::NoSuchKind => "the mask has a bit that no kind has",
        }
    }
}

/// The reason.
impl fmt::Display for MakeRefusal {
    fn fmt<W: fmt::Write>(&self, f: &mut fmt::Formatter<W>) -> fmt::Result {
        f.write_str(self.reason())
    }
}
