//! The tree as plain lists: the documents, and the last write of each path. It is scanned, and meant to be read.
#![tactic(auto)]

mod documents;
mod full;
mod listing;
mod names;
mod plain_tree;
mod room;
mod steps;
mod versions;
mod write;
mod writes;

pub use plain_tree::PlainTree;
