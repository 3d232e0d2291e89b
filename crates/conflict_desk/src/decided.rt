//! Decisions, and how a visit stands after them.

/// What the administrator chooses for a conflict.
#[derive(Clone, Copy, Debug, PartialEq, Eq)]
pub enum Choice {
    /// The visit goes, and the visits that it led to, as far as the docket tells: a visit that isn't in the docket cuts the chain of parents, and what it
    /// led to stays.
    Cancel,
    /// The visit stays, with the requests before its conflict.
    Keep,
}

/// What a docket keeps of a decision on its visit of that number.
#[derive(Clone, Copy, Debug, PartialEq, Eq)]
pub struct Decided {
    pub visit: u64,
    pub choice: Choice,
}

/// How a visit stands, whatever its outcome: `Cancelled` goes before the others.
#[derive(Clone, Copy, Debug, PartialEq, Eq)]
pub enum Standing {
    /// Its address isn't in the patch, so nothing was replayed.
    Untouched,
    /// All of it was replayed.
    Done,
    /// A conflict that is to be decided.
    Waiting,
    /// A conflict that was decided: it stays, with the requests before it.
    Kept,
    /// It was cancelled, or a visit that it descends from was.
    Cancelled,
}
