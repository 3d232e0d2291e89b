//! Whether a text has changed that is watched, by what paths found on two pages.
ghost use Rattle.std.specs.Prelude.{◌≡◌, ℕ, List, true, false, IsTrue, IfSome, option_map};
ghost use Rattle.std.specs.List.{list_any};
ghost use Rattle.page_tree.specs.Tree.{Tree};
ghost use Rattle.page_tree.specs.Number.{place_numbered};
ghost use Rattle.xpath_child.specs.Path.{Step};
ghost use Rattle.xpath_child.specs.Targets.{only_place, place_found, target_in};
ghost use Rattle.site_hooks.specs.Table.{is_changed};
ghost use Rattle.site_hooks.specs.Findings.{found_by, found_differ, differ_by, AreFound};
ghost use Rattle.site_hooks.specs.Sets.{IsOfBits};

use crate::findings::Findings;
use page_tree::Page;
use xpath_child::{Found, Path};

/// Whether one of the paths has another text on an old page than on a new one, by what they found on both.
pub(crate) fn differ(old: &Page, before: &Findings, new: &Page, after: &Findings) -> bool
    ensures { (paths : List (List Step)) → AreFound old.now paths before.now → AreFound new.now paths after.now
        → result ≡ list_any (is_changed old.now new.now) paths }
{
    let mut same = (Found::Missing, Found::Missing);
    for index in 0..before.words().max(after.words()) {
        let bits = before.reached_at(index) | after.reached_at(index);
        if word_differs(old, before, new, after, index, bits, &mut same) {
            return true;
        }
    }
    false
}

// Likewise, of the paths of one word. Where paths that follow one another found the same, the texts are compared once.
fn word_differs(
    old: &Page,
    before: &Findings,
    new: &Page,
    after: &Findings,
    index: usize,
    bits: u64,
    same: &mut (Found, Found),
) -> bool
    requires { found_differ old.now same.old.0 new.now same.old.1 ≡ false }
    ensures same { found_differ old.now same.new.0 new.now same.new.1 ≡ false }
    ensures yes { result ≡ true → (number : ℕ) × (differ_by old.now before.now new.now after.now number ≡ true) }
    ensures no { result ≡ false → (number : ℕ) → IsOfBits index bits number
        → differ_by old.now before.now new.now after.now number ≡ false }
{
    let mut left = bits;
    while left != 0 {
        let bit = left.trailing_zeros();
        left &= !(1u64 << bit);
        let number = index.saturating_mul(64).saturating_add(bit as usize);
        let now = (before.at(number), after.at(number));
        if !are_same(now, *same) {
            if differs(old, now.0, new, now.1) {
                return true;
            }
            *same = now;
        }
    }
    false
}

/// The same of paths one by one, where what they find on the new page may be known.
pub(crate) fn differ_one_by_one(
    paths: &[Path],
    old: &Page,
    new: &Page,
    after: Option<&Findings>,
) -> bool
    requires { IfSome after (λ found. AreFound new.now paths.now found.now) }
    ensures { result ≡ list_any (is_changed old.now new.now) paths.now }
{
    for number in 0..paths.len() {
        let path = &paths[number];
        if differs(
            old,
            path.find(old),
            new,
            found_after(path, number, new, after),
        ) {
            return true;
        }
    }
    false
}

// What the path of that number finds on the new page, where it may be known.
fn found_after(path: &Path, number: usize, new: &Page, after: Option<&Findings>) -> Found
    requires { IfSome after (λ found. place_found new.now (found_by found.now number) ≡ target_in path.now new.now) }
    ensures { place_found new.now result ≡ target_in path.now new.now }
{
    match after {
        Some(found) => found.at(number),
        None => path.find(new),
    }
}

// Whether a path has another text on an old page than on a new one, by what it found on each.
fn differs(old: &Page, before: Found, new: &Page, after: Found) -> bool
    ensures { result ≡ found_differ old.now before new.now after }
{
    match (only(before), only(after)) {
        (None, None) => false,
        (Some(before), Some(after)) => !old.has_text_of(before, new, after),
        _ => true,
    }
}

// Whether two paths found the same on both pages.
fn are_same(one: (Found, Found), other: (Found, Found)) -> bool
    ensures { IsTrue result → one ≡ other }
{
    one.0 == other.0 && one.1 == other.1
}

// The number of the only node that a path finds.
fn only(found: Found) -> Option<u32>
    ensures { (page : Tree) → option_map (λ n. place_numbered n page) result ≡ only_place (place_found page found) }
{
    match found {
        Found::One(number) => Some(number),
        Found::Missing | Found::Several => None,
    }
}
