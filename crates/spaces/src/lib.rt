//! What a plan space is, and the spaces that are computed.
#![tactic(auto)]

pub mod bushy;
pub mod filter;
pub mod keep;
pub mod kind;
pub mod mask;
pub mod order;
mod ordered_goal;
pub mod refusal;
pub mod sorting;
pub mod space;
pub mod table;
