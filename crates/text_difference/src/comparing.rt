//! Two texts are compared.
ghost use Rattle.std.specs.Prelude.{◌≡◌, ◌≤◌, ◌++◌, length, take, drop, true};
ghost use Rattle.text_difference.specs.Difference.{is_edge, common_front, common_end, is_front_edge, is_end_edge, IsGreatest};

use crate::edges::{common_end, common_front, last_end_edge, last_front_edge};

/// Two texts: what both begin with, what stands behind it in the old one and in the new one, and what both end with.
#[derive(Clone, Copy, Debug, PartialEq, Eq)]
pub struct TextParts<'t> {
    pub front: &'t str,
    pub gone: &'t str,
    pub added: &'t str,
    pub rest: &'t str,
}

/// Cuts two texts where they differ. No word is cut.
pub fn compare_texts<'t>(old: &'t str, new: &'t str) -> TextParts<'t>
    ensures old { result.front.now ++ (result.gone.now ++ result.rest.now) ≡ old.now }
    ensures new { result.front.now ++ (result.added.now ++ result.rest.now) ≡ new.now }

    // Each as long as it can be, first what they begin with.
    ensures front { IsGreatest (is_front_edge old.now new.now) (common_front old.now new.now) (length result.front.now) }
    ensures rest { let gone = result.gone.now ++ result.rest.now in let added = result.added.now ++ result.rest.now in
        IsGreatest (is_end_edge gone added) (common_end gone added) (length result.rest.now) }
{
    let count = common_front(old.as_bytes(), new.as_bytes());
    let count = last_front_edge(old.as_bytes(), new.as_bytes(), count);
    let (front, gone) = cut(old, count);
    let (_same, added) = cut(new, count);
    let (gone, added, rest) = cut_ends(gone, added);
    TextParts {
        front,
        gone,
        added,
        rest,
    }
}

// What stands before the common end of two texts in each, and that end.
fn cut_ends<'t>(old: &'t str, new: &'t str) -> (&'t str, &'t str, &'t str)
    ensures old { result.0.now ++ result.2.now ≡ old.now }
    ensures new { result.1.now ++ result.2.now ≡ new.now }
    ensures rest { IsGreatest (is_end_edge old.now new.now) (common_end old.now new.now) (length result.2.now) }
{
    let count = common_end(old.as_bytes(), new.as_bytes());
    let count = last_end_edge(old.as_bytes(), new.as_bytes(), count);
    let (gone, rest) = cut(old, old.len() - count);
    let (added, _same) = cut(new, new.len() - count);
    (gone, added, rest)
}

// A character isn't cut where no word is.
fn cut(text: &str, place: usize) -> (&str, &str)
    requires within { place ≤ length text.now }
    requires edge { is_edge text.now place ≡ true }
    ensures front { result.0.now ≡ take place text.now }
    ensures rest { result.1.now ≡ drop place text.now }
{
    text.split_at(place)
}
