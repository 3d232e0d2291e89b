//! How far two texts are the same, and where their words begin and end.
ghost use Rattle.std.specs.Prelude.{◌≡◌, ◌≤◌, length};
ghost use Rattle.text_difference.specs.Difference.{parts_words, is_edge, common_front, common_end, is_front_edge, is_end_edge, IsGreatest};

/// How many bytes the texts begin with alike.
pub(crate) fn common_front(old: &[u8], new: &[u8]) -> usize
    ensures common { result ≡ common_front old.now new.now }
    ensures old { result ≤ length old.now }
    ensures new { result ≤ length new.now }
{
    let most = old.len().min(new.len());
    for place in 0..most {
        if old[place] != new[place] {
            return place;
        }
    }
    most
}

/// How many bytes the texts end with alike.
pub(crate) fn common_end(old: &[u8], new: &[u8]) -> usize
    ensures common { result ≡ common_end old.now new.now }
    ensures old { result ≤ length old.now }
    ensures new { result ≤ length new.now }
{
    let most = old.len().min(new.len());
    for count in 0..most {
        if old[old.len() - 1 - count] != new[new.len() - 1 - count] {
            return count;
        }
    }
    most
}

/// From there back to where no word of the texts is cut, which are the same so far.
pub(crate) fn last_front_edge(old: &[u8], new: &[u8], most: usize) -> usize
    ensures { IsGreatest (is_front_edge old.now new.now) most result }
{
    let mut count = most;
    while !is_front_edge(old, new, count) {
        count -= 1;
    }
    count
}

/// The same from the texts' ends.
pub(crate) fn last_end_edge(old: &[u8], new: &[u8], most: usize) -> usize
    requires old { most ≤ length old.now }
    requires new { most ≤ length new.now }
    ensures { IsGreatest (is_end_edge old.now new.now) most result }
{
    let mut count = most;
    while !is_end_edge(old, new, count) {
        count -= 1;
    }
    count
}

fn is_front_edge(old: &[u8], new: &[u8], count: usize) -> bool
    ensures { result ≡ is_front_edge old.now new.now count }
{
    is_edge(old, count) && is_edge(new, count)
}

fn is_end_edge(old: &[u8], new: &[u8], count: usize) -> bool
    requires old { count ≤ length old.now }
    requires new { count ≤ length new.now }
    ensures { result ≡ is_end_edge old.now new.now count }
{
    is_edge(old, old.len() - count) && is_edge(new, new.len() - count)
}

#[tactic(auto, unfolding(crate::specs::Difference::is_edge))]
fn is_edge(text: &[u8], place: usize) -> bool
    ensures { result ≡ is_edge text.now place }
{
    if place == 0 || place >= text.len() {
        return true;
    }
    parts_words(text[place - 1]) || parts_words(text[place])
}

fn parts_words(c: u8) -> bool
    ensures { result ≡ parts_words c }
{
    c == b' ' || c == b'\n' || c == b'\r' || c == b'\t'
}
