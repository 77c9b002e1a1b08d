//! Reading a file or standard input.

use crate::failure::Failure;
use std::io::Read;
use std::{fs, io};

/// At most so many bytes are read: one more than a memo may have, so that a longer one shows.
const MOST_BYTES: u64 = 60_001;

/// And so many of a text.
const MOST_TEXT: u64 = 1 << 20;

/// What can take all that is read.
trait Sink {
    fn fill<R: Read + Drop>(&mut self, from: R) -> io::Result<usize>;
}

impl Sink for Vec<u8> {
    fn fill<R: Read + Drop>(&mut self, mut from: R) -> io::Result<usize> {
        from.read_to_end(self)
    }
}

impl Sink for String {
    fn fill<R: Read + Drop>(&mut self, mut from: R) -> io::Result<usize> {
        from.read_to_string(self)
    }
}

/// Reads a file, or standard input where its name is `-`.
fn read_into<T: Sink>(
    rt: &HostRuntime,
    name: &str,
    most: u64,
    into: &mut T,
) -> Result<(), Failure> {
    let read = if name == "-" {
        into.fill(rt.stdin().take(most))
    } else {
        fs::open(rt, name).and_then(|file| into.fill(file.take(most)))
    };
    read.map(|_| ()).map_err(|e| Failure::Unread(e))
}

/// The bytes of a file, or of standard input where its name is `-`.
pub fn read_bytes(rt: &HostRuntime, name: &str) -> Result<Vec<u8>, Failure> {
    let mut bytes = Vec::new(rt.alloc());
    read_into(rt, name, MOST_BYTES, &mut bytes)?;
    Ok(bytes)
}

/// The text of a file, or of standard input where its name is `-`.
pub fn read_text(rt: &HostRuntime, name: &str) -> Result<String, Failure> {
    let mut text = String::new(rt.alloc());
    read_into(rt, name, MOST_TEXT, &mut text)?;
    Ok(text)
}
