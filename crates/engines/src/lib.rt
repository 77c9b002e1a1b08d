//! What an engine is, two engines, and what a plan comes to under any of them.
#![tactic(auto)]

pub mod cover;
pub mod engine;
pub mod evaluation;
pub mod fault;
pub mod rows;
mod sets;
mod stack;
