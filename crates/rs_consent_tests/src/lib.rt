//! Tests of discovery and of grants by password over whole connections: `pipe` run over objects in memory, byte for byte.
#![tactic(auto)]

#[cfg(test)]
mod discovery_tests;
#[cfg(test)]
mod exchanges;
#[cfg(test)]
mod failure_tests;
#[cfg(test)]
mod grant_tests;
#[cfg(test)]
mod page_tests;
#[cfg(test)]
mod word_tests;
