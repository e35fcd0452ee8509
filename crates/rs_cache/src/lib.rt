//! A client's journal: events, oldest first, the rows that keep them, and the client that they leave.
#![tactic(auto)]

mod applying;
mod cache_fault;
mod clash;
mod client;
mod conflict;
mod connection;
mod doubts;
mod event;
mod event_reading;
mod event_writing;
mod first;
mod laws;
mod limits;
mod listing;
mod noting;
mod opening;
mod pending;
mod placing;
mod resolve;
mod row_laws;
mod spot;
mod summary;

pub use cache_fault::CacheFault;
pub use client::Client;
pub use conflict::Conflict;
pub use connection::Connection;
pub use event::Event;
pub use event_reading::read_event;
pub use event_writing::event_row;
pub use laws::{base_laws, change_laws, fate_law, kept_laws, record_laws};
pub use limits::{MAX_JOURNAL, MAX_SHOWN_BODY, limit_laws};
pub use pending::Pending;
pub use resolve::Resolve;
pub use row_laws::event_row_laws;
pub use rs_row::OpenFault;
pub use summary::Summary;
