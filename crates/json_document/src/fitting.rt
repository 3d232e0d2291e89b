//! Whether `serde_json` takes a text that is JSON.
ghost use Rattle.std.specs.Prelude.{◌≡◌, ◌+◌, ◌<◌, ◌^◌, ◌==◌, map, length, drop, slice_index, is_some, IsTrue, true, false, Some, None, option_and_then};
ghost use Rattle.json.specs.Tape.{node_token};
ghost use Rattle.serde_json.specs.Data.{unsigned};
ghost use Rattle.serde_json.specs.Read.{number_of, number_from, max_depth};
ghost use Rattle.serde_json.specs.Find.{as_u64};
ghost use Rattle.json_document.specs.Fitting.{depth_behind, fit};

use fast_float::Numeral;
use json::Node;

// In how many arrays and objects a value may stand.
const MAX_DEPTH: usize = 127;

/// Whether no node stands in too many, and numbers are in range.
pub(crate) fn fit(nodes: &[Node<'_>]) -> bool
    ensures { result ≡ fit 0 (map node_token nodes.now) }
{
    let mut deep = 0;
    for node in nodes {
        match depth_behind(deep, node) {
            Some(next) => deep = next,
            None => return false,
        }
    }
    true
}

// In how many the text stands behind a node.
#[tactic(auto, unfolding(crate::specs::Fitting::depth_behind))]
fn depth_behind(deep: usize, node: &Node<'_>) -> Option<usize>
    ensures { result ≡ depth_behind deep (node_token node.now) }
{
    match node {
        Node::Object(_) | Node::Array(_) => if deep < MAX_DEPTH {
            Some(deep + 1)
        } else {
            None
        },
        Node::EndObject | Node::EndArray => Some(deep.saturating_sub(1)),
        Node::Number(text) => if is_in_range(text) { Some(deep) } else { None },
        Node::Key(_) | Node::String(_) | Node::Bool(_) | Node::Null => Some(deep),
    }
}

fn is_in_range(text: &str) -> bool
    ensures { result ≡ is_some (number_of text.now) }
{
    let bytes = text.as_bytes();
    if has_minus(bytes) {
        is_negative_in_range(&Numeral::scan(&bytes[1..]))
    } else {
        is_unsigned_in_range(&Numeral::scan(bytes))
    }
}

fn is_unsigned_in_range(numeral: &Numeral<'_>) -> bool
    ensures { result ≡ is_some (number_from false numeral.now) }
{
    numeral.to_u64().is_some() || numeral.to_float::<f64>(false).is_finite()
}

fn is_negative_in_range(numeral: &Numeral<'_>) -> bool
    ensures { result ≡ is_some (number_from true numeral.now) }
{
    match numeral.to_i64(true) {
        Some(n) if n < 0 => true,
        _ => numeral.to_float::<f64>(true).is_finite(),
    }
}

fn has_minus(bytes: &[u8]) -> bool
    ensures value { result ≡ (slice_index bytes.now 0 == 45) }
    ensures len { IsTrue result → 0 < length bytes.now }
{
    !bytes.is_empty() && bytes[0] == b'-'
}

/// The number where it is one of 64 bits without a sign.
pub(crate) fn unsigned(text: &str) -> Option<u64>
    ensures { result ≡ option_and_then as_u64 (number_of text.now) }
{
    let bytes = text.as_bytes();
    if has_minus(bytes) {
        return None;
    }
    Numeral::scan(bytes).to_u64()
}
