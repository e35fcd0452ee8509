//! Tests of workers: connections of a listener in memory, served over one user's desk.
#![tactic(auto)]

#[cfg(test)]
mod objects;
#[cfg(test)]
mod workers;
