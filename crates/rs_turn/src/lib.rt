//! The turn lock: all callers of one value take turns, and what they do is one history.
#![tactic(auto)]

mod board;
mod deed;
mod held;
mod limits;
mod lock;
mod meeting;
mod plays;
mod seat;
mod seat_fault;
mod splitting;
mod steps;
mod turn;
mod waiting;

pub use deed::Deed;
pub use held::Held;
pub use limits::{MAX_SEATS, limit_laws};
pub use lock::TurnLock;
pub use seat::Seat;
pub use seat_fault::SeatFault;
