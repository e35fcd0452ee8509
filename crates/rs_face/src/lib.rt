//! The outside of the server and the client, as traits that contracts can speak of, and fakes of
//! it in memory.
#![tactic(auto)]

mod calls;
mod entropy;
mod keeper;
mod listener;
mod mem_entropy;
mod mem_keeper;
mod mem_listener;
mod mem_sink;
mod mem_source;
mod no_fail_keeper;
mod no_fail_sink;
mod no_fail_source;
mod sink;
mod source;

pub use entropy::{Entropy, EntropyFault};
pub use keeper::{KeepFault, Keeper};
pub use listener::{Ended, ListenFault, Listener};
pub use mem_entropy::MemEntropy;
pub use mem_keeper::MemKeeper;
pub use mem_listener::MemListener;
pub use mem_sink::MemSink;
pub use mem_source::MemSource;
pub use no_fail_keeper::NoFailKeeper;
pub use no_fail_sink::NoFailSink;
pub use no_fail_source::NoFailSource;
pub use rs_path::{Bytes, NoMemory};
pub use sink::{Sink, SinkFault, write_all};
pub use source::{Source, SourceFault};
