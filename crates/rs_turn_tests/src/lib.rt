//! Tests of the turn lock through its public calls. Nothing stands on this crate.
#![tactic(auto)]

#[cfg(test)]
mod counting;
#[cfg(test)]
mod rows;
