//! Tests of what the command `serve` is told: tables of words and of configuration files, with their answers.
#![tactic(auto)]

#[cfg(test)]
mod config_tests;
#[cfg(test)]
mod word_tests;
