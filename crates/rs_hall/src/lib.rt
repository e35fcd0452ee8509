//! Many users over shared states: a turn lock for each user, and desks that share them.
#![tactic(auto)]

mod ask;
mod closing;
mod gate;
mod hall;
mod hall_fault;
mod limits;
mod opening;
mod room;
mod shared_desk;
mod split_fault;
mod splitting;

pub use gate::{Gate, OpenGate};
pub use hall::{Hall, Seats};
pub use hall_fault::HallFault;
pub use limits::{MAX_USERS, limit_laws};
pub use room::Room;
pub use shared_desk::SharedDesk;
pub use split_fault::SplitFault;
