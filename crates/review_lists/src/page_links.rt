//! A list is shown by pages, with links to others of them.
ghost use Rattle.std.specs.Prelude.{◌≡◌, ◌+◌, ◌-◌, ◌*◌, ◌<◌, ◌≤◌, [], ◌∷◌, ◌++◌, flat_map, if◌then◌else◌, IfOk, OnOk, string_bytes};
ghost use Rattle.std.specs.List.{range_with_len};
ghost use Rattle.review_lists.specs.PageLinks.{listed_from, last_page, page_here, pages_linked, page_name, page_entry, page_links};

use page_tree::NoMemory;
use review_pieces::pieces;
use std::alloc::Global;

/// How far a page may be from the one that is shown, so that a link leads there.
const NEAR: usize = 3;

/// At most so many, from that one on.
pub fn listed_from<T>(items: &[T], from: usize, most: usize) -> &[T]
    ensures { result.now ≡ listed_from from most items.now }
{
    let (_, rest) = items.split_at(from.min(items.len()));
    let (page, _) = rest.split_at(most.min(rest.len()));
    page
}

/// Links to other pages of a list that has so many; nothing, where one page has all. `before` and `behind` stand in an address around the number of the
/// first that a page shows.
#[tactic(auto, unfolding(crate::specs::PageLinks::page_links))]
pub fn add_page_links<'t>(
    alloc: Global,
    out: &mut Vec<u8>,
    label: &'t str,
    before: &'t str,
    behind: &'t str,
    per: usize,
    from: usize,
    count: usize,
) -> Result<(), NoMemory>
    requires { 0 < per }
    ensures { OnOk result (out.new.items ≡ out.old.items
        ++ page_links label.now before.now behind.now per from count) }
{
    if count <= per {
        return Ok(());
    }
    let here = page_here(per, from, count);
    let mut links = Vec::new(alloc);
    add_links(alloc, &mut links, before, behind, per, count, here)?;
    pieces::add_pages(out, label, links.as_slice())
}

fn last_page(per: usize, count: usize) -> usize
    requires { 0 < per }
    ensures { result ≡ last_page per count }
{
    count.saturating_sub(1) / per
}

fn page_here(per: usize, from: usize, count: usize) -> usize
    requires { 0 < per }
    ensures { result ≡ page_here per from count }
{
    (from / per).min(last_page(per, count))
}

// Those of the first, of those that are near, and of the last.
fn add_links<'t>(
    alloc: Global,
    out: &mut Vec<u8>,
    before: &'t str,
    behind: &'t str,
    per: usize,
    count: usize,
    here: usize,
) -> Result<(), NoMemory>
    requires per { 0 < per }
    requires some { 0 < count }
    requires within { here ≤ last_page per count }
    ensures { OnOk result (out.new.items ≡ out.old.items
        ++ flat_map (page_entry before.now behind.now per count here) (pages_linked here (last_page per count))) }
{
    let last = last_page(per, count);
    let low = here.saturating_sub(NEAR);
    let high = here.saturating_add(NEAR).min(last);
    let is_first_far = 0 < low;
    add_far(
        alloc,
        out,
        before,
        behind,
        per,
        count,
        here,
        is_first_far,
        0,
    )?;
    add_near(alloc, out, before, behind, per, count, here, low, high)?;
    let is_last_far = high < last;
    add_far(
        alloc,
        out,
        before,
        behind,
        per,
        count,
        here,
        is_last_far,
        last,
    )
}

// That of a page that may be far.
fn add_far<'t>(
    alloc: Global,
    out: &mut Vec<u8>,
    before: &'t str,
    behind: &'t str,
    per: usize,
    count: usize,
    here: usize,
    is_far: bool,
    page: usize,
) -> Result<(), NoMemory>
    requires { page * per < count }
    ensures { OnOk result (out.new.items ≡ out.old.items
        ++ flat_map (page_entry before.now behind.now per count here) (if is_far then page ∷ [] else [])) }
{
    if is_far {
        add_link(alloc, out, before, behind, per, count, here, page)
    } else {
        Ok(())
    }
}

// Those from one page to another.
fn add_near<'t>(
    alloc: Global,
    out: &mut Vec<u8>,
    before: &'t str,
    behind: &'t str,
    per: usize,
    count: usize,
    here: usize,
    low: usize,
    high: usize,
) -> Result<(), NoMemory>
    requires per { 0 < per }
    requires some { 0 < count }
    requires within { high ≤ last_page per count }
    ensures { OnOk result (out.new.items ≡ out.old.items
        ++ flat_map (page_entry before.now behind.now per count here) (range_with_len low (high + 1 - low))) }
{
    for page in low..high + 1 {
        add_link(alloc, out, before, behind, per, count, here, page)?;
    }
    Ok(())
}

#[tactic(auto, unfolding(crate::specs::PageLinks::page_entry))]
fn add_link<'t>(
    alloc: Global,
    out: &mut Vec<u8>,
    before: &'t str,
    behind: &'t str,
    per: usize,
    count: usize,
    here: usize,
    page: usize,
) -> Result<(), NoMemory>
    requires { page * per < count }
    ensures { OnOk result (out.new.items ≡ out.old.items ++ page_entry before.now behind.now per count here page) }
{
    let name = page_name(alloc, per, count, page)?;
    if page == here {
        return pieces::add_page_here(out, name.as_str());
    }
    let start = page * per;
    let href = format!(in alloc; "{before}{start}{behind}")?;
    pieces::add_page_link(out, href.as_str(), name.as_str())
}

// As `51 to 100`.
fn page_name(alloc: Global, per: usize, count: usize, page: usize) -> Result<String, NoMemory>
    requires { page * per < count }
    ensures { IfOk result (λ name. string_bytes name ≡ page_name per count page) }
{
    let first = page * per + 1;
    let last = (page * per).saturating_add(per).min(count);
    format!(in alloc; "{first} to {last}")
}
