//! What replaying a visit gives.
ghost use Rattle.std.specs.Prelude.{◌≡◌, Some};
ghost use Rattle.visit_replay.specs.Conflict.{conflict_code};

use crate::requests::Requests;
use std::fmt;
use std::mem::size_of;

/// Why a visit can't be replayed as it was. Its text is its code, as `K5`.
#[derive(Clone, Copy, Debug, PartialEq, Eq)]
pub enum ConflictKind {
    /// K1: the site has no page there.
    NoPage,
    /// K2: an event's path selects nothing on the page.
    NoTarget,
    /// K3: an event's path selects several places.
    ManyTargets,
    /// K4: the target takes no input, or no click.
    NotAField,
    /// K5: the text that was there before an input has changed.
    BaseChanged,
    /// K6: the target of a click that made a request is no link.
    NotALink,
    /// K7: the target of a submit is no form, or the button that was pressed is none of it.
    NotAForm,
    /// K8: the log kept only a part of the visit.
    LogCut,
    /// K9: the site's own test signals a conflict.
    Ui,
    /// K10: the request that opened the visit goes elsewhere now.
    Moved,
    /// K11: it is known which element an event acted on, and it, or its form, sends something else now.
    Changed,
}

impl fmt::Display for ConflictKind {
    ghost output = { λ kind. Some (conflict_code kind) };

    fn fmt<W: fmt::Write>(&self, f: &mut fmt::Formatter<W>) -> fmt::Result {
        f.write_str(conflict_code(*self))
    }
}

/// The code of a conflict, as `K5`.
pub fn conflict_code(kind: ConflictKind) -> &'static str
    ensures { result.now ≡ conflict_code kind }
{
    match kind {
        ConflictKind::NoPage => "K1",
        ConflictKind::NoTarget => "K2",
        ConflictKind::ManyTargets => "K3",
        ConflictKind::NotAField => "K4",
        ConflictKind::BaseChanged => "K5",
        ConflictKind::NotALink => "K6",
        ConflictKind::NotAForm => "K7",
        ConflictKind::LogCut => "K8",
        ConflictKind::Ui => "K9",
        ConflictKind::Moved => "K10",
        ConflictKind::Changed => "K11",
    }
}

/// What replaying a visit gives. Its events are numbered from 1, the load is event 0.
#[derive(Debug, Drop)]
pub enum Outcome {
    /// The visit's address is not in the patch.
    Untouched,
    /// All of it was replayed.
    Done {
        requests: Requests,
    },
    /// Replay stopped at an event, or behind the last one; the requests are those of the events before.
    Conflict {
        requests: Requests,
        at: u64,
        kind: ConflictKind,
    },
}

// Those of all visits stand in lists, of untouched ones too.
const _: () = prove!(size_of::<Outcome>() <= 40);
