//! The parts of a file as values.

use spaces::space::Alternative;

/// What a header says, and where it ends.
#[derive(Clone, Copy)]
pub struct Header {
    pub goals: u16,
    pub root: u16,
    pub end: usize,
}

/// The fields of a record as they are written.
#[derive(Clone, Copy)]
pub struct Fields {
    pub goal: Option<u16>,
    pub kind: Option<u8>,
    pub tag: Option<u16>,
    pub left: Option<u16>,
    pub right: Option<u16>,
}

/// An alternative and the goal that it is for.
#[derive(Clone, Copy)]
pub struct Record {
    pub goal: u16,
    pub alternative: Alternative,
}
