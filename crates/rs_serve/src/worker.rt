//! Posts at work.

use rs_work::WorkerEnd;

/// A post at work.
#[derive(Drop)]
pub(crate) struct Worker<P: Drop, D: Drop> {
    /// Its place among the posts, from 0.
    pub(crate) place: u32,
    pub(crate) post: P,
    /// The seats of its own desk. None where no seat was left: it is served after the others, over the first one's desk.
    pub(crate) desk: Option<D>,
    /// What it did; nothing yet at first.
    pub(crate) end: WorkerEnd,
}
