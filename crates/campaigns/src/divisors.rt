//! Common divisors.

ghost use Rattle.std.specs.Prelude.{◌≡◌, ℕ, ◌%◌, ◌<◌, true, not};
ghost use Rattle.campaigns.specs.Divisors.{Coprime, Exactly, shares};

/// The greatest common divisor: it divides both, and whatever divides both divides it.
pub fn greatest_common_divisor(a: u64, b: u64) -> u64
    ensures left { a % result ≡ 0 }
    ensures right { b % result ≡ 0 }
    ensures greatest { (d : ℕ) → a % d ≡ 0 → b % d ≡ 0 → result % d ≡ 0 }
{
    let mut x = a;
    let mut y = b;
    while y != 0 {
        let rest = x % y;
        x = y;
        y = rest;
    }
    x
}

/// Whether no number above 1 divides both.
pub fn coprime(a: u64, b: u64) -> bool
    ensures exactly { Exactly (result ≡ true) (Coprime a b) }
    ensures tried { 0 < b → result ≡ not (shares a b b) }
{
    greatest_common_divisor(a, b) == 1
}
