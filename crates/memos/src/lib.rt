//! The memo file as a plan space: its format, the reading of a file, and the view that answers from it.
#![tactic(auto)]

mod cursor;
mod fields;
mod header;
mod lists;
mod load;
pub mod memo;
mod record;
pub mod refusal;
