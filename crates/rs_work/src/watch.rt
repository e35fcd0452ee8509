//! Who is told of each connection's end.

use rs_front::End;

/// Who is told how each connection of some workers ended. Workers in several threads may share one.
pub trait Watch {
    /// A connection of the worker with this number ended so. The connection's number is counted from 1, for each call of `work`
    /// anew.
    fn ended(&self, worker: u32, connection: u64, end: &End);
}

/// A watch that does nothing.
#[derive(Clone, Copy, Debug, PartialEq, Eq)]
pub struct NoWatch;

impl Watch for NoWatch {
    fn ended(&self, _worker: u32, _connection: u64, _end: &End) {}
}
