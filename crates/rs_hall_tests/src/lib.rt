//! Tests of halls and of desks that share them. Nothing stands on this crate.
#![tactic(auto)]

#[cfg(test)]
mod asking;
#[cfg(test)]
mod hall_tests;
#[cfg(test)]
mod held_gate;
#[cfg(test)]
mod held_turn_tests;
