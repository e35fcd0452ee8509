//! Tests of the streams through their public calls. Nothing stands on this crate.
#![tactic(auto)]

#[cfg(test)]
mod streaming;
