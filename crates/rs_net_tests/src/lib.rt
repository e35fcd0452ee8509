//! Tests of the network through the public calls of `rs_net`. Nothing stands on this crate.
#![tactic(auto)]

#[cfg(test)]
mod accepting;
#[cfg(test)]
mod drawing;
#[cfg(test)]
mod serving;
