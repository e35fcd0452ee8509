//! Tests of public calls on a client's journal: rows, places of events, what the client tells, and its calls.
#![tactic(auto)]

#[cfg(test)]
mod answer_tests;
#[cfg(test)]
mod call_tests;
#[cfg(test)]
mod command_tests;
#[cfg(test)]
mod place_tests;
#[cfg(test)]
mod row_tests;
#[cfg(test)]
mod spelling;
