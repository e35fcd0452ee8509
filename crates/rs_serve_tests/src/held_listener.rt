//! A listener in memory whose connections may come only behind another post's turn.

use crate::latch::Latch;
use rs_face::{ListenFault, Listener, MemListener, MemSink, MemSource};
use std::sync::Arc;

/// The connections of a listener in memory, which come at once or once the latch is open.
#[derive(Drop)]
pub struct HeldListener {
    pub inner: MemListener,
    /// Whose turn is waited for. None where the connections come at once.
    pub behind: Option<Arc<Latch>>,
}

impl Listener for HeldListener {
    type In = MemSource;

    type Out = MemSink;

    ghost use Rattle.std.specs.Prelude.{Some};

    ghost coming = { λ s. Some s.inner.coming };

    ghost back = { λ s. Some s.inner.back };

    ghost given = { λ s. s.inner.given };

    ghost ends = { λ s. s.inner.ends };

    ghost faults = { λ s. s.inner.calls.faults };

    fn accept(&mut self) -> Result<Option<(MemSource, MemSink)>, ListenFault> {
        if let Some(latch) = &self.behind {
            latch.wait();
        }
        self.inner.accept()
    }

    fn end(&mut self, source: MemSource, sink: MemSink, starved: bool) {
        self.inner.end(source, sink, starved);
    }
}
