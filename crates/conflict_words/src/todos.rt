//! What to do about a conflict, in the words of `docs/CODES.md`.
ghost use Rattle.std.specs.Prelude.{◌≡◌};
ghost use Rattle.conflict_words.specs.Todos.{todo_of};

use visit_replay::ConflictKind;

const DO_K1: &str =
    "Add the page under it. If the repair took the page away, what was done there is void: undo it.";

const DO_K2: &str =
    "If the attack had put the element there, undo what was done by it. If the repair moved it, make it fit.";

const DO_K3: &str =
    "Find out which one it was, and make it fit. Where it is gone with the attack's own entry, cancel.";

const DO_K4: &str = "Decide by hand what the user wanted.";

const DO_K5: &str =
    "Compare the two texts, and join by hand what was typed with what stands there now.";

const DO_K6: &str = "Where the link was the attack's, undo the request. Else make it by hand.";

const DO_K7: &str =
    "If the attack had put the form there, undo what was sent by it. Else send by hand what was typed.";

const DO_K8: &str = "Raise quota and run again.";

const DO_K9: &str =
    "Ask whether the user would have done this with the text that stands there now; keep it, or cancel it.";

const DO_K10: &str =
    "If the attack had led there, cancel it. If the repair moved the page, replay has nothing to go by: keep it, and do by hand what the user did there.";

const DO_K11: &str =
    "Where the attack had changed what it sent, cancel. Where only a token or a time differs, declare its name in same, decoded, and run again. Before you keep it, look at what it opened: that isn't K10 then.";

/// What to do about that conflict.
#[tactic(auto, unfolding(crate::specs::Todos::todo_of))]
pub fn todo_of(kind: ConflictKind) -> &'static str
    ensures { result.now ≡ todo_of kind }
{
    match kind {
        ConflictKind::NoPage => DO_K1,
        ConflictKind::NoTarget => DO_K2,
        ConflictKind::ManyTargets => DO_K3,
        ConflictKind::NotAField => DO_K4,
        ConflictKind::BaseChanged => DO_K5,
        ConflictKind::NotALink => DO_K6,
        ConflictKind::NotAForm => DO_K7,
        ConflictKind::LogCut => DO_K8,
        ConflictKind::Ui => DO_K9,
        ConflictKind::Moved => DO_K10,
        ConflictKind::Changed => DO_K11,
    }
}
