//! Whether an address is the one that a form sends to. It is compared with the form's pairs as these come, up to the first byte that differs: no text of
//! them is made.
ghost use Rattle.std.specs.Prelude.{◌≡◌, [], ◌++◌, All, option_map, codes};
ghost use Rattle.std.specs.List.{flat_map};
ghost use Rattle.std.specs.Str.{bytes_eq};
ghost use Rattle.form_urlencoded.specs.Form.{byte_serialize, extend_pairs, serialize_pair};
ghost use Rattle.visit_replay.specs.inside.FieldsNow.{left_behind, pair_of, value_sent};
ghost use Rattle.visit_replay.specs.inside.Senders.{IsSender, sent_all};

use crate::encoded_words::word_behind;
use crate::forms::{Filled, SentPair, SentValue, sent_by};
use crate::senders::Sender;
use page_tree::ChildTexts;

/// Whether the address is that start, a `?` and the pairs of a form whose senders these are.
pub(crate) fn is_sent_to(
    filled: &Filled<'_, '_>,
    senders: &[Sender<'_>],
    start: &str,
    address: &str,
) -> bool
    requires { All (IsSender filled.now.page.now) senders.now }
    ensures { result ≡ bytes_eq (start.now ++ codes "?" ++ extend_pairs [] (sent_all filled.now senders.now)) address.now }
{
    match query_behind(start, address) {
        Some(query) => are_pairs(filled, senders, query),
        None => false,
    }
}

/// What stands behind that start and a `?`.
pub(crate) fn query_behind<'t>(start: &str, address: &'t str) -> Option<&'t [u8]>
    ensures { option_map (λ query. query.now) result ≡ left_behind (start.now ++ codes "?") address.now }
{
    let rest = behind(start, address.as_bytes())?;
    behind("?", rest)
}

/// Whether the text is what these send.
pub(crate) fn are_pairs<'a>(filled: &Filled<'a, '_>, senders: &'a [Sender<'_>], text: &[u8]) -> bool
    requires { All (IsSender filled.now.page.now) senders.now }
    ensures { result ≡ bytes_eq (extend_pairs [] (sent_all filled.now senders.now)) text.now }
{
    let mut mark = "";
    let mut rest = text;
    for sender in senders {
        let Some(sent) = sent_by(filled, sender) else {
            continue;
        };
        let Some(left) = pair_behind(mark, &sent, rest) else {
            return false;
        };
        mark = "&";
        rest = left;
    }
    rest.is_empty()
}

// ---- what is left of a text; none where it begins otherwise

/// Behind the mark and the pair as it is encoded.
pub(crate) fn pair_behind<'t>(mark: &str, sent: &SentPair<'_>, text: &'t [u8]) -> Option<&'t [u8]>
    ensures { option_map (λ rest. rest.now) result
        ≡ left_behind (mark.now ++ serialize_pair (pair_of sent.now)) text.now }
{
    let name = behind(mark, text)?;
    let equals = word_behind(sent.name, name)?;
    let value = behind("=", equals)?;
    value_behind(sent.value, value)
}

// Behind the value as it is encoded.
fn value_behind<'t>(value: SentValue<'_>, text: &'t [u8]) -> Option<&'t [u8]>
    ensures { option_map (λ rest. rest.now) result ≡ left_behind (byte_serialize (value_sent value.entry)) text.now }
{
    match value {
        SentValue::Text(word) => word_behind(word, text),
        SentValue::Children { page, number } => words_behind(page.child_texts_of(number), text),
    }
}

fn words_behind<'t>(words: ChildTexts<'_>, text: &'t [u8]) -> Option<&'t [u8]>
    ensures { option_map (λ rest. rest.now) result ≡ left_behind (byte_serialize (flat_map (λ w. w) words.entry)) text.now }
{
    let mut words = words;
    let mut rest = text;
    while let Some(word) = words.next() {
        rest = word_behind(word, rest)?;
    }
    Some(rest)
}

/// Behind that front.
pub(crate) fn behind<'t>(front: &str, text: &'t [u8]) -> Option<&'t [u8]>
    ensures { option_map (λ rest. rest.now) result ≡ left_behind front.now text.now }
{
    text.strip_prefix(front.as_bytes())
}
