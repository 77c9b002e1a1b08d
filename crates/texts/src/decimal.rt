//! Decimal numerals without needless zeros.

ghost use Rattle.std.specs.Prelude.{◌≡◌, length, decimal};

/// How many digits a number has.
pub(crate) fn digits(number: u64) -> usize
    ensures { result ≡ length (decimal number) }
{
    // Most numerals have one digit, and a logarithm takes longer than this test.
    if number < 10 {
        return 1;
    }
    number.ilog10() as usize + 1
}
