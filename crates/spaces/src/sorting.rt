//! The order rules: when an operator's output is sorted, and what it wants of its children.
//! They are given the tag as well as the kind, although no rule reads it yet.

ghost use Rattle.std.specs.Prelude.{◌≡◌};
ghost use Rattle.spaces.specs.Sorting.{output_sorted, wants_left, wants_right};

use crate::kind::Kind;

/// Whether an operator's output is sorted, where `left` says whether its left (or only) child's is.
pub fn output_is_sorted(kind: Kind, _tag: u16, left: bool) -> bool
    ensures { result ≡ output_sorted kind _tag left }
{
    match kind {
        Kind::Scan | Kind::HashJoin => false,
        Kind::IndexScan | Kind::MergeJoin | Kind::Sort => true,
        Kind::NestedLoops | Kind::Filter => left,
    }
}

/// Whether the left (or only) child has to be sorted, where `asked` says whether the operator's own output has to be.
pub fn wants_left_sorted(kind: Kind, _tag: u16, asked: bool) -> bool
    ensures { result ≡ wants_left kind _tag asked }
{
    match kind {
        Kind::MergeJoin => true,
        Kind::NestedLoops | Kind::Filter => asked,
        Kind::Scan | Kind::IndexScan | Kind::HashJoin | Kind::Sort => false,
    }
}

/// Whether the right child has to be sorted.
pub fn wants_right_sorted(kind: Kind, _tag: u16) -> bool
    ensures { result ≡ wants_right kind _tag }
{
    match kind {
        Kind::MergeJoin => true,
        Kind::Scan
        | Kind::IndexScan
        | Kind::HashJoin
        | Kind::NestedLoops
        | Kind::Filter
        | Kind::Sort => false,
    }
}
