//! Whether a text is what counts of the address that a form sends to: without the pairs of fresh names. It is compared with the pairs as these come, up to
//! the first byte that differs.
ghost use Rattle.std.specs.Prelude.{ℕ, List, ◌≡◌, [], ◌++◌, All, map, true, codes};
ghost use Rattle.std.specs.Str.{bytes_eq};
ghost use Rattle.form_urlencoded.specs.Form.{extend_pairs, serialize_pair};
ghost use Rattle.page_looks.specs.Sending.{query_text, without_fresh};
ghost use Rattle.visit_replay.specs.Form.{bare};
ghost use Rattle.visit_replay.specs.inside.FieldsNow.{told};
ghost use Rattle.visit_replay.specs.inside.Senders.{SaysFresh, IsSender, sent_all};

use crate::address::bare;
use crate::comparing::{behind, pair_behind};
use crate::forms::{Filled, sent_by};
use crate::senders::Sender;

/// Whether the text is what counts of an action, a `?` and the pairs of a form whose senders these are.
pub(crate) fn is_what_counts(
    filled: &Filled<'_, '_>,
    senders: &[Sender<'_>],
    action: &str,
    text: &str,
) -> bool
    requires { All (IsSender filled.now.page.now) senders.now }
    ensures { (names : List (List ℕ)) → All (SaysFresh names) senders.now → result ≡ bytes_eq (without_fresh names
        (bare action.now ++ codes "?" ++ extend_pairs [] (sent_all filled.now senders.now))) text.now }
{
    match behind(bare(action), text.as_bytes()) {
        Some(query) => are_counted_pairs(filled, senders, query),
        None => false,
    }
}

// Whether the text is those pairs of these that count, the first behind a `?`.
fn are_counted_pairs<'a>(filled: &Filled<'a, '_>, senders: &'a [Sender<'_>], text: &[u8]) -> bool
    requires { All (IsSender filled.now.page.now) senders.now }
    ensures { (names : List (List ℕ)) → All (SaysFresh names) senders.now → result ≡ bytes_eq (query_text
        (map serialize_pair (told true names (sent_all filled.now senders.now)))) text.now }
{
    let mut mark = "?";
    let mut rest = text;
    for sender in senders {
        if sender.is_fresh {
            continue;
        }
        let Some(sent) = sent_by(filled, sender) else {
            continue;
        };
        let Some(left) = pair_behind(mark, &sent, rest) else {
            return false;
        };
        mark = "&";
        rest = left;
    }
    rest.is_empty()
}
