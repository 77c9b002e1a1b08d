//! A space prepared once: its alternatives, tallies and running sums in tables that answer at once.
#![tactic(auto)]

pub mod prepared;
pub mod refusal;
mod seeking;
mod summing;
mod tallying;
