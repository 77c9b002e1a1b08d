//! Worked examples of the definitions, proved by computation.
#![tactic(auto)]

pub mod rows;
