//! Streams of std as a source and a sink: what the reader or writer below tells, they tell.
#![tactic(auto)]

mod held_sink;
mod std_sink;
mod std_source;
mod steady;

pub use held_sink::{HELD_BYTES, HeldSink};
pub use std_sink::StdSink;
pub use std_source::StdSource;
pub use steady::{SteadyRead, SteadyWrite};
