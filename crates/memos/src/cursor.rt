//! A file as it is read: bytes, numbers of two bytes, and the fields of a record.

ghost use Rattle.std.specs.Prelude.{◌≡◌, ◌+◌, ◌-◌, ◌*◌, ◌<◌, ◌≤◌, length, nat_lt, slice_index, MatchOption, MatchBool, Option, Some, None, option_map};
ghost use Rattle.std.specs.Fn.{FnOnceReturnsAtMut};
ghost use Rattle.memos.specs.Memos.{digit, provided};
ghost use Rattle.memos.specs.Rules.{end_from, fields_at, word_at};

use crate::fields::Fields;

/// A file, and the place up to which it has been read. Texts have one of their own: that passes bytes that are due, this one
/// numbers, and common is only the field and `byte`.
#[derive(Drop)]
pub struct Cursor<'f> {
    file: &'f [u8],
    pub at: usize,
    ghost within: { at ≤ length file.now },
}

impl<'f> Cursor<'f> {
    /// A file that has been read up to a place.
    pub fn new(file: &'f [u8], at: usize) -> Cursor<'f>
        requires { at ≤ length file.now }
        ensures file { result.file.now ≡ file.now }
        ensures at { result.at ≡ at }
    {
        Cursor { file, at }
    }

    /// Whether something is left to read.
    pub fn has_more(&self) -> bool
        ensures { result ≡ nat_lt self.now.at (length self.now.file.now) }
    {
        self.at < self.file.len()
    }

    /// Passes a byte, if one is left.
    pub fn byte(&mut self) -> Option<u8>
        ensures file { self.new.file.now ≡ self.old.file.now }
        ensures byte { MatchOption result
            (length self.old.file.now < self.old.at + 1)
            (λ b. (b ≡ slice_index self.old.file.now self.old.at) × (self.new.at ≡ self.old.at + 1)) }
    {
        let byte = *self.file.get(self.at)?;
        self.at += 1;
        Some(byte)
    }

    /// Passes a number of two bytes, low byte first, if they are left.
    pub fn word(&mut self) -> Option<u16>
        ensures file { self.new.file.now ≡ self.old.file.now }
        ensures word { MatchOption result
            (length self.old.file.now < self.old.at + 2)
            (λ w. (w ≡ word_at self.old.file.now self.old.at) × (self.new.at ≡ self.old.at + 2)) }
    {
        let bytes = *self.file[self.at..].first_chunk::<2>()?;
        self.at += 2;
        Some(u16::from_le_bytes(bytes))
    }

    /// Passes a field where its bit stands, if the file has it.
    pub fn field<T, R: FnOnce(&mut Cursor<'f>) -> Option<T>>(
        &mut self,
        stands: bool,
        read: R,
    ) -> Option<Option<T>>
        requires { R.IsAlwaysCallable read }
        ensures { MatchBool stands
            ((o : Option _) × FnOnceReturnsAtMut R.FnOnce read self.old o self.new × (result ≡ option_map Some o))
            ((result ≡ Some None) × (self.new ≡ self.old)) }
    {
        if stands {
            Some(Some(read(self)?))
        } else {
            Some(None)
        }
    }

    /// Passes the fields that a bit map says, if the file has them all. The bit map has just been passed.
    pub fn fields(&mut self, map: u8) -> Option<Fields>
        requires { 0 < self.old.at }
        ensures file { self.new.file.now ≡ self.old.file.now }
        ensures fields { MatchOption result
            (length self.old.file.now < end_from map (self.old.at - 1))
            (λ f. (f ≡ fields_at self.old.file.now map (self.old.at - 1)) × (self.new.at ≡ end_from map (self.old.at - 1))) }
    {
        Some(Fields {
            goal: self.field(map % 2 == 1, Cursor::word)?,
            kind: self.field(map / 2 % 2 == 1, Cursor::byte)?,
            tag: self.field(map / 4 % 2 == 1, Cursor::word)?,
            left: self.field(map / 8 % 2 == 1, Cursor::word)?,
            right: self.field(map / 16 % 2 == 1, Cursor::word)?,
        })
    }
}
