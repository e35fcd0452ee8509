//! The command `serve`: the top call over posts, keepers and a sink.
#![tactic(auto)]

mod laws;
mod running;
mod serve_status;

pub use laws::serve_completeness_law;
pub use running::run_serve;
pub use serve_status::ServeStatus;
