//! Tests against brute force: spaces as plain tables, all their plans written out one by one, and memo files put together byte by byte.
//! Nothing here is taken from the crates under test but their types.
#![tactic(auto)]

#[cfg(test)]
mod agreement;
#[cfg(test)]
mod bushy_tests;
#[cfg(test)]
mod campaign_tests;
#[cfg(test)]
mod edge_tests;
#[cfg(test)]
mod endings;
#[cfg(test)]
mod enumeration;
#[cfg(test)]
mod generated;
#[cfg(test)]
mod layered;
#[cfg(test)]
mod memo_files;
#[cfg(test)]
mod memo_tests;
#[cfg(test)]
mod number_tests;
#[cfg(test)]
mod prepared_tests;
#[cfg(test)]
mod table;
#[cfg(test)]
mod text_tests;
