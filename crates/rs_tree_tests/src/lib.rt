//! Tests that run both trees on the same requests. Nothing stands on this crate.
#![tactic(auto)]

#[cfg(test)]
mod alike_tests;
#[cfg(test)]
mod asking;
#[cfg(test)]
mod climb_tests;
#[cfg(test)]
mod dice;
#[cfg(test)]
mod draws;
#[cfg(test)]
mod full_tests;
#[cfg(test)]
mod telling;
