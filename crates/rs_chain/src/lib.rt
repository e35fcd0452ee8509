//! The tree as linked nodes.
#![tactic(auto)]

mod chain_tree;
mod climb;
mod full;
mod growth;
mod kids;
mod listing;
mod looks;
mod node;
mod obstacles;
mod place;
mod ring;
mod room;
mod steps;
mod walk;
mod writes;

pub use chain_tree::ChainTree;
pub use steps::Steps;
