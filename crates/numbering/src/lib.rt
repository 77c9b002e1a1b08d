//! Plans and their numbers over any space.
#![tactic(auto)]

pub mod counted;
pub mod counting;
pub mod due;
pub mod dues;
pub mod node;
pub mod ranking;
pub mod reading;
pub mod ready;
pub mod refusal;
mod stack;
pub mod standing;
pub mod tallied;
pub mod tally;
pub mod unranking;
pub mod writing;
