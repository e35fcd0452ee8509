//! Workers: the connections of a listener, served one after another over a desk.
#![tactic(auto)]

mod watch;
mod worker;

pub use watch::{NoWatch, Watch};
pub use worker::{WorkerEnd, work};
