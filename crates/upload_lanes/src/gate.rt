//! What the uploaders of a round wait for before they read.
use std::sync::{OnceLock, Wait};

/// Opened once all threads of a round were started, or shut where one could not be: no message is asked for before.
#[derive(Drop)]
pub(crate) struct Gate {
    open: OnceLock<bool>,
}

impl Gate {
    pub(crate) fn new() -> Gate {
        Gate {
            open: OnceLock::new(),
        }
    }

    pub(crate) fn open<W: Wait>(&self, rt: &W) {
        let _told = self.open.set(rt, true);
    }

    pub(crate) fn shut<W: Wait>(&self, rt: &W) {
        let _told = self.open.set(rt, false);
    }

    /// Waits until it was opened or shut. Whether uploads may be read.
    pub(crate) fn may_pass<W: Wait>(&self, rt: &W) -> bool {
        *self.open.wait(rt)
    }
}
