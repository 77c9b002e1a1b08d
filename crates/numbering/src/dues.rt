//! What is due at the children's places of an alternative: a goal, or nothing.
//!
//! A function for each side: one for both would match on a side that each caller has to name.

ghost use Rattle.std.specs.Prelude.{◌≡◌};
ghost use Rattle.numbering.specs.Plans.{left_due, right_due};

use spaces::space::Alternative;

/// The goal of the left (or only) child.
pub fn left_due(alternative: Alternative) -> Option<u16>
    ensures { result ≡ left_due alternative }
{
    (alternative.kind.arity() >= 1).then_some(alternative.left)
}

/// The goal of the right child.
pub fn right_due(alternative: Alternative) -> Option<u16>
    ensures { result ≡ right_due alternative }
{
    (alternative.kind.arity() == 2).then_some(alternative.right)
}
