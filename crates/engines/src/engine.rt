//! The interface of an execution engine.

ghost use Rattle.std.specs.Prelude.{◌≡◌, ℕ, Bool, true, List, Result};
ghost use Rattle.spaces.specs.declared.kind.Kind.{Kind};

use spaces::kind::Kind;

/// An engine gives each node of a plan a result of its own type, or a fault number: a number, since every
/// engine has faults of its own.
///
/// `rule` is what it gives, from the node's kind and tag and the children's results, left first.
/// `alike` says whether two results, the baseline's first, are the same.
pub trait Engine {
    type Output: Drop;

    ghost rule: { Self → Kind → ℕ → List Self.Output → Result Self.Output ℕ };

    ghost alike: { Self → Self.Output → Self.Output → Bool };

    /// The result of a node, or its fault.
    fn node(&self, kind: Kind, tag: u16, children: &[Self::Output]) -> Result<Self::Output, u8>
        ensures { result ≡ rule self.now kind tag children.now };

    /// Whether two results are the same.
    fn same(&self, baseline: &Self::Output, other: &Self::Output) -> bool
        ensures { result ≡ alike self.now baseline.now other.now };

    ghost reflexive: { (e : Self) (a : Self.Output) → alike e a a ≡ true };
}
