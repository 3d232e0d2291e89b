//! The two pages side by side, in frames.

use made_html::Html;
use page_tree::NoMemory;
use std::alloc::Global;

/// Adds the frames of the page that the user saw, and of the one that stands there now, if one does; each with what is told of what is marked.
pub(crate) fn add_pages_part(
    alloc: Global,
    out: &mut Html,
    client: &str,
    visit: &str,
    is_there: bool,
    was: &str,
    is: &str,
) -> Result<(), NoMemory> {
    let mut recorded = Html::new(alloc);
    recorded.add_figure("Recorded page", client, visit, "recorded", was)?;
    let mut repaired = Html::new(alloc);
    if is_there {
        repaired.add_figure("Repaired page", client, visit, "repaired", is)?;
    } else {
        repaired.add_no_page("Repaired page", "The site has no page at this address.")?;
    }
    out.add_visit_pages(&recorded, &repaired)
}
