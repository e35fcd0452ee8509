//! Tests of a user's state where there is no room: for one more record, and for one more item of a folder. Nothing stands
//! on this crate.
#![tactic(auto)]

#[cfg(test)]
mod asking;
#[cfg(test)]
mod cases;
#[cfg(test)]
mod counted_rows;
#[cfg(test)]
mod folder_tests;
#[cfg(test)]
mod history_tests;
#[cfg(test)]
mod rows;
#[cfg(test)]
mod telling;
