//! Campaigns: plans drawn by a step through the numbers, each run beside a baseline.
#![tactic(auto)]

pub mod campaign;
pub mod conduct;
pub mod counts;
pub mod divisors;
pub mod outcome;
pub mod refusal;
mod writing;
