//! How a call waits for a change of the queue: it tries again for some turns, then it sleeps until it is told of one.
use crossbeam_utils::Backoff;
use crossbeam_utils::sync::Key;
use std::sync::Wait;
use std::thread;

/// The turns of one wait before its sleep.
#[derive(Drop)]
pub(crate) enum Turns {
    /// The thread pauses, each time longer, and at the last ones yields the processor.
    Pauses(Backoff),
    /// So many times more it yields the processor.
    Yields(u32),
}

impl Turns {
    /// Whether it is time to sleep. The sleep is announced before one more try, so that no change is missed.
    pub(crate) fn are_over(&self) -> bool {
        match self {
            Turns::Pauses(pauses) => pauses.is_completed(),
            Turns::Yields(left) => *left == 0,
        }
    }

    fn take_one(&mut self) {
        match self {
            Turns::Pauses(pauses) => pauses.snooze(),
            Turns::Yields(left) => {
                *left = left.saturating_sub(1);
                thread::yield_now();
            }
        }
    }
}

/// Sleeps where that was announced, else waits for a moment.
pub(crate) fn rest<R: Wait>(rt: &R, turns: &mut Turns, sleep: Option<Key<'_>>) {
    match sleep {
        Some(sleep) => sleep.wait(rt),
        None => turns.take_one(),
    }
}
