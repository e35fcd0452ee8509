//! Tests of the public calls of `rs_cli`: words read as commands, and commands run over objects in memory, byte for byte.
#![tactic(auto)]

#[cfg(test)]
mod command_tests;
#[cfg(test)]
mod exchanges;
#[cfg(test)]
mod granting_tests;
#[cfg(test)]
mod message_tests;
#[cfg(test)]
mod note_tests;
#[cfg(test)]
mod outside_tests;
#[cfg(test)]
mod storage_tests;
