//! Plans as text: a plan, its line with its number, a report of many lines, and texts read back.
#![tactic(auto)]

mod cursor;
mod decimal;
pub mod error;
mod line;
mod link;
mod punctuation;
pub mod read;
pub mod report;
pub mod text;
mod writer;
