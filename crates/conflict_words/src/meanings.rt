//! What the code of a conflict means, in the words of `docs/CODES.md`.
ghost use Rattle.std.specs.Prelude.{◌≡◌};
ghost use Rattle.conflict_words.specs.Meanings.{meaning_of};

use visit_replay::ConflictKind;

const K1: &str = "The address was repaired, and the site has no page at the visit's whole address.";

const K2: &str =
    "The event has no target on the repaired page: its path selects nothing there, or by elements nothing looks so.";

const K3: &str =
    "The event has several targets: its path selects several elements on the repaired page, or by elements several look so, there or on the page that the user saw.";

const K4: &str =
    "The element takes no input, or no click: it is no text field any more, or is disabled, or is a radio button, which always is K4.";

const K5: &str = "The field starts with another text than it did for the user.";

const K6: &str = "The click made a request, and what was clicked is no link now.";

const K7: &str =
    "The form is gone, or the button that was pressed is none of its enabled submit buttons.";

const K8: &str = "The log kept only a part of the visit, for want of room.";

const K9: &str = "All could be replayed, and a watched text has changed.";

const K10: &str =
    "The link or form that led to this visit leads elsewhere now, so the user would not have come here.";

const K11: &str =
    "It is known which element it was, and it, its form, or what looked so around it sends something else now: another address, another hidden value; or a field that was touched stands under the submitted form on one of the two pages alone.";

/// What that conflict means.
#[tactic(auto, unfolding(crate::specs::Meanings::meaning_of))]
pub fn meaning_of(kind: ConflictKind) -> &'static str
    ensures { result.now ≡ meaning_of kind }
{
    match kind {
        ConflictKind::NoPage => K1,
        ConflictKind::NoTarget => K2,
        ConflictKind::ManyTargets => K3,
        ConflictKind::NotAField => K4,
        ConflictKind::BaseChanged => K5,
        ConflictKind::NotALink => K6,
        ConflictKind::NotAForm => K7,
        ConflictKind::LogCut => K8,
        ConflictKind::Ui => K9,
        ConflictKind::Moved => K10,
        ConflictKind::Changed => K11,
    }
}
