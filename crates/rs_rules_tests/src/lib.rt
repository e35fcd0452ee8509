//! Tests of the rules, of the trees and of a user's state, through their public calls, and examples of the rules,
//! computed from the definitions. Nothing stands on this crate.
#![tactic(auto)]

#[cfg(test)]
mod asking;
#[cfg(test)]
mod cond_tests;
#[cfg(test)]
mod plain_answer;
#[cfg(test)]
mod rows;
#[cfg(test)]
mod step_cases;
#[cfg(test)]
mod step_tests;
#[cfg(test)]
mod tree_tests;
#[cfg(test)]
mod turn_cases;
#[cfg(test)]
mod turn_tests;
