//! Tests of the keeper over a database through its public calls, in memory and over files. Nothing stands on this crate.
#![tactic(auto)]

#[cfg(test)]
mod keeping;
#[cfg(test)]
mod kinds;
#[cfg(test)]
mod runs;
