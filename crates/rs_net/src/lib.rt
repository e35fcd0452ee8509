//! The network and the system's random bytes, as the outside of the server: a socket that listens, the two ends of a connection,
//! and an entropy.
#![tactic(auto)]

mod accept_error;
mod connection;
mod entropy;
mod net_listener;

pub use accept_error::AcceptError;
pub use connection::{LINGER_MILLISECONDS, TcpSink, TcpSource, close, two_ends};
pub use entropy::OsEntropy;
pub use net_listener::{
    DEFAULT_WAIT_SECONDS, MOST_TRIES, NetListener, PAUSE_MILLISECONDS, next_stream,
};
