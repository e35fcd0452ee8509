//! Entries of a list that several make together.

/// One entry of such a list: who made it, and what it is.
///
/// `who` is the number under which an entry was made; 0 is for what was there before anybody had a number.
#[derive(Debug, Drop)]
pub struct LogEntry<W> {
    pub who: u64,
    pub what: W,
}
