//! Tests of public calls on what a client talks with: roots, bearer tokens, changes, asks and answers.
#![tactic(auto)]

#[cfg(test)]
mod answers;
#[cfg(test)]
mod asks;
#[cfg(test)]
mod rows;
#[cfg(test)]
mod words;
