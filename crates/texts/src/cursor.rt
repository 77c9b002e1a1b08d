//! A text as it is read: bytes, numbers, and nodes' own parts.

ghost use Rattle.std.specs.Prelude.{◌≡◌, ◌+◌, ◌^◌, ◌<◌, ◌≤◌, ◌∷◌, true, drop, length, if◌then◌else◌, None, Some, MatchOption, OnSome, SomeIff};
ghost use Rattle.std.specs.Char.{is_ascii_digit};
ghost use Rattle.std.specs.List.{between, prefix_len};
ghost use Rattle.std.specs.Str.{all_ascii_digits};
ghost use Rattle.std.specs.Str.Parse.{digits_value};
ghost use Rattle.texts.specs.Parts.{LabelAt, NumberAt, Run, byte_at};

use numbering::node::Node;
use spaces::kind::Kind;
use spaces::space::Alternative;

/// How many digits the bytes begin with.
fn digit_count(bytes: &[u8]) -> usize
    ensures value { result ≡ prefix_len is_ascii_digit bytes.now }
    ensures within { result ≤ length bytes.now }
{
    bytes
        .iter()
        .take_while(|byte| byte.is_ascii_digit())
        .count()
}

/// The number that digits write, if it fits 16 bits.
fn value(digits: &[u8]) -> Option<u16>
    requires { all_ascii_digits digits.now ≡ true }
    ensures { SomeIff result (digits_value 10 digits.now < 2 ^ 16) (digits_value 10 digits.now) }
{
    let mut number: u16 = 0;
    for digit in digits {
        number = number.checked_mul(10)?.checked_add((*digit - b'0') as u16)?;
    }
    Some(number)
}

/// A text, and the place up to which it has been read.
#[derive(Drop)]
pub(crate) struct Cursor<'t> {
    text: &'t [u8],
    pub(crate) at: usize,
    ghost within: { at ≤ length text.now },
}

impl<'t> Cursor<'t> {
    /// A text of which nothing has been read.
    pub(crate) fn new(text: &'t [u8]) -> Cursor<'t>
        ensures text { result.text.now ≡ text.now }
        ensures at { result.at ≡ 0 }
    {
        Cursor { text, at: 0 }
    }

    /// Passes the next byte.
    fn byte(&mut self) -> Option<u8>
        ensures text { self.new.text.now ≡ self.old.text.now }
        ensures byte { MatchOption result
            (length self.old.text.now ≤ self.old.at)
            (λ b. drop self.old.at self.old.text.now ≡ b ∷ drop self.new.at self.old.text.now) }
        ensures at { OnSome result (self.new.at ≡ self.old.at + 1) }
    {
        let byte = *self.text.get(self.at)?;
        self.at += 1;
        Some(byte)
    }

    /// Passes this byte, if it stands next.
    pub(crate) fn eat(&mut self, byte: u8) -> bool
        ensures text { self.new.text.now ≡ self.old.text.now }
        ensures value { result ≡ byte_at self.old.text.now self.old.at byte }
        ensures at { self.new.at ≡ (if result then self.old.at + 1 else self.old.at) }
    {
        let stands = self.text.get(self.at) == Some(&byte);
        if stands {
            self.at += 1;
        }
        stands
    }

    /// Passes the digits that stand next.
    fn digits(&mut self) -> &'t [u8]
        ensures text { self.new.text.now ≡ self.old.text.now }
        ensures value { result.now ≡ between self.old.at self.new.at self.old.text.now }
        ensures run { Run self.old.text.now self.old.at self.new.at }
    {
        let rest = &self.text[self.at..];
        let count = digit_count(rest);
        self.at += count;
        &rest[..count]
    }

    /// Passes the number that stands next, without needless zeros, if it fits 16 bits.
    fn number(&mut self) -> Option<u16>
        ensures text { self.new.text.now ≡ self.old.text.now }
        ensures number { MatchOption result
            (NumberAt self.old.text.now self.old.at None)
            (λ n. NumberAt self.old.text.now self.old.at (Some (n, self.new.at))) }
    {
        let digits = self.digits();
        if digits.is_empty() {
            return None;
        }
        if digits.len() > 1 && digits[0] == b'0' {
            return None;
        }
        value(digits)
    }

    /// Passes the own part of a node: letter, tag, `@` and goal. Its children's goals are 0.
    pub(crate) fn label(&mut self) -> Option<Node>
        ensures text { self.new.text.now ≡ self.old.text.now }
        ensures label { MatchOption result
            (LabelAt self.old.text.now self.old.at None)
            (λ n. LabelAt self.old.text.now self.old.at (Some (n, self.new.at))) }
    {
        let kind = Kind::from_letter(self.byte()?)?;
        let tag = self.number()?;
        if !self.eat(b'@') {
            return None;
        }
        let goal = self.number()?;
        let alternative = Alternative {
            kind,
            tag,
            left: 0,
            right: 0,
        };
        Some(Node { goal, alternative })
    }
}
