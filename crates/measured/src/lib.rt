//! The calls that the benchmark times, exported for a static library.
//!
//! Each does its work several times and gives a sum over the answers, by which the benchmark sees that the plain program did
//! the same; 0, since C has no `Option`, where the space or its buffers are not to be had. What the calls answer is proved in the crates below.
#![tactic(auto)]

mod bench;
pub mod campaigns_timed;
pub mod counts_timed;
pub mod plans_timed;
