//! Sets of kinds.

ghost use Rattle.std.specs.Prelude.{◌≡◌, ◌<◌, Some, None, MatchResult};
ghost use Rattle.spaces.specs.Masks.{holds, mask_refusal, passes as passes_mask};

use crate::keep::Test;
use crate::kind::Kind;
use crate::refusal::MakeRefusal;
use crate::space::Alternative;

/// A set of kinds: bit `k` stands for the kind with the number `k`.
#[derive(Clone, Copy)]
pub struct KindMask {
    bits: u8,
    ghost fits: { bits < 128 },
}

impl KindMask {
    /// The set with these bits: refused where bit 7 stands, since no kind has the number 7.
    pub fn new(bits: u8) -> Result<KindMask, MakeRefusal>
        ensures { MatchResult result (λ m. (mask_refusal bits ≡ None) × (m.bits ≡ bits)) (λ e. mask_refusal bits ≡ Some e) }
    {
        if bits >= 128 {
            return Err(MakeRefusal::NoSuchKind);
        }
        Ok(KindMask { bits })
    }

    /// Whether a kind is in the set.
    pub fn has(self, kind: Kind) -> bool
        ensures { result ≡ holds self.bits kind }
    {
        (self.bits >> u8::from(kind)) % 2 == 1
    }
}

/// An alternative passes where its kind is in the set.
impl Test for KindMask {
    ghost picks = { λ s. passes_mask s.bits };

    fn passes(&self, alternative: Alternative) -> bool {
        self.has(alternative.kind)
    }
}
