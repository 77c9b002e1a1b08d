//! The faults that the engines of this crate tell by number.

ghost use Rattle.std.specs.Prelude.{◌≡◌};
ghost use Rattle.engines.specs.Faults.{number_of};

/// Why an engine of this crate gives a node no result.
#[derive(Clone, Copy, PartialEq, Eq, Debug)]
pub enum Fault {
    /// A scan of a relation that there is not.
    NoSuchRelation,
    /// A result of more than 10^18 rows.
    TooManyRows,
    /// A join of two sides that share a relation.
    SidesOverlap,
    /// A merge join with a child that is not sorted.
    ChildUnsorted,
    /// Children whose number is not the kind's.
    ChildrenMisfit,
}

/// The number by which an engine tells the fault.
impl From<Fault> for u8 {
    ghost from_gives = { λ fault number. number ≡ number_of fault };

    fn from(fault: Fault) -> u8 {
        match fault {
            Fault::NoSuchRelation => 1,
            Fault::TooManyRows => 2,
            Fault::SidesOverlap => 3,
            Fault::ChildUnsorted => 4,
            Fault::ChildrenMisfit => 7,
        }
    }
}
