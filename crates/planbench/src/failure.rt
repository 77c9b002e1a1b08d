//! Why the program stops with status 1.

use campaigns::refusal::CampaignRefusal;
use memos::refusal::OpenRefusal;
use numbering::refusal::Refusal;
use spaces::refusal::MakeRefusal;
use std::alloc::AllocError;
use std::{fmt, io};
use texts::error::TextError;
use thiserror::Error;

#[derive(Debug, Drop, Error)]
pub enum Failure {
    /// The command line is not one of those that the usage text shows.
    Usage(&'static str),
    Make(#[from] MakeRefusal),
    Open(#[from] OpenRefusal),
    Call(#[from] Refusal),
    Campaign(#[from] CampaignRefusal),
    Text(#[from] TextError),
    /// A line of a node file, counted from 0, is no node.
    Line(usize),
    NoMemory(#[from(alloc)] AllocError),
    /// A file cannot be read.
    Unread(io::Error),
    /// The arguments cannot be had, or the answer cannot be written.
    Io(#[from] io::Error),
}

/// A refusal with its number and its place. One without a number is want of memory.
fn refused<W: fmt::Write, R: fmt::Display>(
    f: &mut fmt::Formatter<W>,
    number: Option<u8>,
    place: Option<usize>,
    reason: &R,
) -> fmt::Result {
    match (number, place) {
        (Some(number), Some(place)) => write!(f, "refused {number} at {place}: {reason}"),
        (Some(number), None) => write!(f, "refused {number}: {reason}"),
        (None, _) => f.write_str("out of memory"),
    }
}

/// By hand, since the derive shows no field beside what a method of it gives.
impl fmt::Display for Failure {
    fn fmt<W: fmt::Write>(&self, f: &mut fmt::Formatter<W>) -> fmt::Result {
        match self {
            Failure::Usage(reason) => f.write_str(reason),
            Failure::Make(why) => refused(f, Some(why.number()), None, why),
            Failure::Open(why) => refused(f, why.number(), why.place(), why),
            Failure::Call(why) => refused(f, Some(why.number()), why.place(), why),
            Failure::Campaign(why) => refused(f, Some(why.number()), None, why),
            Failure::Text(why) => match why.place() {
                Some(byte) => write!(
                    f,
                    "the plan's text stops making sense at byte {byte}: {why}"
                ),
                None => f.write_str("out of memory"),
            },
            Failure::Line(line) => write!(
                f,
                "line {line} of the nodes, from 0, is not goal, letter, tag, left and right goal"
            ),
            Failure::NoMemory(_) => f.write_str("out of memory"),
            Failure::Unread(e) => write!(f, "cannot read the file: {e}"),
            Failure::Io(e) => e.fmt(f),
        }
    }
}
