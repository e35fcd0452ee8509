//! Why no seat was split off.

/// Why `TurnLock::seat` gives no seat.
#[derive(Debug, Clone, Copy, PartialEq, Eq)]
pub enum SeatFault {
    /// A lock numbers at most 4,294,967,295 seats. So many were numbered at least when the parent
    /// looked last: `made`.
    Full { made: u64 },
}
