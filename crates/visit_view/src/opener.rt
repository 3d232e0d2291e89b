//! Which visit opened this one.

use crate::found_visit::FoundVisit;
use crate::words::number;
use made_html::Html;
use page_tree::NoMemory;
use std::alloc::Global;

/// Which visit opened this one, if any.
pub(crate) fn opener_of(alloc: Global, found: &FoundVisit<'_>) -> Result<Html, NoMemory> {
    let mut opener = Html::new(alloc);
    let Some(visit) = found.kept else {
        return Ok(opener);
    };
    let (parent, from) = (visit.parent, visit.from);
    if found.docket.parent_at(found.place).is_some() {
        let parent = number(alloc, parent)?;
        let from = number(alloc, from)?;
        opener.add_opener(found.client.text(), parent.as_str(), from.as_str())?;
    } else if parent != 0 {
        let lost = format!(in alloc; ", opened by visit {parent}, which was lost")?;
        opener.add_part_same(lost.as_str())?;
    }
    Ok(opener)
}
