//! Gates.

/// What is told of each turn while it is held. A test can hold a turn open by it.
pub trait Gate {
    /// The turn of a user has begun, by the seat with the number `who`. Nothing is decided yet.
    fn enter(&self, user: u32, who: u64);

    /// That turn is about to end: the request was decided.
    fn leave(&self, user: u32, who: u64);
}

/// A gate that does nothing.
#[derive(Clone, Copy, Debug)]
pub struct OpenGate;

impl Gate for OpenGate {
    fn enter(&self, _user: u32, _who: u64) {}

    fn leave(&self, _user: u32, _who: u64) {}
}
