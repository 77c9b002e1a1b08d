//! The words of the command line.

use crate::failure::Failure;
use spaces::kind::Kind;
use spaces::mask::KindMask;
use std::alloc::Global;

/// The words that are not read yet.
#[derive(Drop)]
pub struct Words<'a> {
    rest: &'a [String],
}

impl<'a> Words<'a> {
    /// All words after the program's name.
    pub fn new(words: &'a [String]) -> Words<'a> {
        let mut words = Words { rest: words };
        words.next();
        words
    }

    /// The next word, if there is one.
    pub fn next(&mut self) -> Option<&'a str> {
        let (word, rest) = self.rest.split_first()?;
        self.rest = rest;
        Some(word.as_str())
    }

    /// The next word, which has to be there.
    pub fn wanted(&mut self, missing: &'static str) -> Result<&'a str, Failure> {
        self.next().ok_or(Failure::Usage(missing))
    }

    /// Reads the next word if it is this one, and tells whether it was.
    pub fn skip(&mut self, word: &str) -> bool {
        match self.rest.split_first() {
            Some((next, rest)) if next.as_str() == word => {
                self.rest = rest;
                true
            }
            _ => false,
        }
    }

    /// All other words.
    pub fn rest(&mut self) -> &'a [String] {
        let rest = self.rest;
        self.rest = &[];
        rest
    }

    /// Nothing may follow.
    pub fn end(&self) -> Result<(), Failure> {
        if self.rest.is_empty() {
            Ok(())
        } else {
            Err(Failure::Usage("there is a word too many"))
        }
    }
}

/// A number in decimal digits.
pub fn number(word: &str) -> Result<u64, Failure> {
    word.parse().map_err(|_| Failure::Usage("a number in decimal digits, below 2^64, is wanted"))
}

/// The kind of a letter that stands alone.
pub fn lone_kind(word: &str) -> Option<Kind> {
    match word.as_bytes() {
        [letter] => Kind::from_letter(*letter),
        _ => None,
    }
}

/// The kinds of some letters.
pub fn kinds(letters: &str) -> Result<KindMask, Failure> {
    let mut bits: u8 = 0;
    for letter in letters.bytes() {
        let Some(kind) = Kind::from_letter(letter) else {
            return Err(Failure::Usage("--only wants letters of SIHMLFO"));
        };
        bits |= 1 << u8::from(kind);
    }
    Ok(KindMask::new(bits)?)
}

/// Numbers with commas between; none where there is no text.
pub fn numbers(heap: Global, text: &str) -> Result<Vec<u64>, Failure> {
    if text.is_empty() {
        return Ok(Vec::new(heap));
    }
    text.split(',').map(number).try_collect(heap)
}
