//! Sets of the relations 0 to 63 as bits: relation `r` is bit `r`.
//!
//! They are plain numbers, with no type of their own: the engine's results hand them out as numbers.

ghost use Rattle.std.specs.Prelude.{◌≡◌, ◌^◌, ◌<◌, not, Decides, ◌==◌, bit_and, bit_or};
ghost use Rattle.engines.specs.Members.{Only, Shared, Union};

/// The set of one relation.
pub(crate) fn only(relation: u16) -> u64
    requires { relation < 64 }
    ensures value { result ≡ 2 ^ relation }
    ensures members { Only relation result }
{
    1 << relation
}

/// The relations of either set.
#[tactic(auto, using(crate::proofs::Members::union_of))]
pub(crate) fn united(a: u64, b: u64) -> u64
    ensures value { result ≡ bit_or a b }
    ensures members { Union a b result }
{
    a | b
}

/// Whether some relation is in both sets.
#[tactic(auto, using(crate::proofs::Members::shared_of))]
pub(crate) fn overlap(a: u64, b: u64) -> bool
    ensures value { result ≡ not (bit_and a b == 0) }
    ensures members { Decides result (Shared a b) }
{
    a & b != 0
}
