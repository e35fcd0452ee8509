//! Tests of public calls on words and rows: names, paths, items, scopes, tokens, records, and the fakes of the outside.
#![tactic(auto)]

#[cfg(test)]
mod outside;
#[cfg(test)]
mod rows;
#[cfg(test)]
mod scopes;
#[cfg(test)]
mod words;
