//! All nodes that a path selects on a page. `xpath_child` tells one, or that there are several.

use page_tree::{NoMemory, Page};
use std::alloc::Global;
use xpath_child::Path;

/// The nodes that a path selects, in document order; and the node that the longest front of it selects alone.
#[derive(Drop)]
pub(crate) struct Reached {
    pub(crate) all: Vec<u32>,
    pub(crate) last: Option<u32>,
}

/// What a path selects on a page. Each child of a node that a step reached is looked at once.
pub(crate) fn reached_by(alloc: Global, page: &Page, path: &Path) -> Result<Reached, NoMemory> {
    let text = path.write()?;
    let mut reached = Reached {
        all: Vec::new(alloc),
        last: None,
    };
    let mut is_first = true;
    let steps = text.as_str().strip_prefix('/').unwrap_or("");
    for step in steps.split('/') {
        let all = if is_first {
            roots(alloc, page, step)?
        } else {
            below_all(alloc, page, reached.all.as_slice(), step)?
        };
        is_first = false;
        reached.last = only_of(all.as_slice()).or(reached.last);
        reached.all = all;
    }
    Ok(reached)
}

fn only_of(numbers: &[u32]) -> Option<u32> {
    match numbers {
        [only] => Some(*only),
        _ => None,
    }
}

// A step: the name of elements or a star, and which of them, if that is said.
fn cut_step(step: &str) -> (&str, Option<u32>) {
    let Some((test, rest)) = step.split_once('[') else {
        return (step, None);
    };
    let index = rest.strip_suffix(']').unwrap_or("");
    (test, Some(index.parse().unwrap_or(0)))
}

// The root, if the step selects it.
fn roots(alloc: Global, page: &Page, step: &str) -> Result<Vec<u32>, NoMemory> {
    let mut all = Vec::new(alloc);
    let (test, index) = cut_step(step);
    if is_match(page, 0, test) && index.unwrap_or(1) == 1 {
        all.push(0)?;
    }
    Ok(all)
}

// The children of these that a step selects.
fn below_all(alloc: Global, page: &Page, above: &[u32], step: &str) -> Result<Vec<u32>, NoMemory> {
    let mut all = Vec::new(alloc);
    let (test, index) = cut_step(step);
    for number in above {
        add_below(&mut all, page, *number, test, index)?;
    }
    Ok(all)
}

fn add_below(
    all: &mut Vec<u32>,
    page: &Page,
    above: u32,
    test: &str,
    index: Option<u32>,
) -> Result<(), NoMemory> {
    let mut count: u32 = 0;
    let mut child = page.nodes_under(above).start;
    for _i in 0..page.children_of(above) {
        if is_match(page, child, test) {
            count = count.saturating_add(1);
            if index.unwrap_or(count) == count {
                all.push(child)?;
            }
        }
        child = page.nodes_under(child).end;
    }
    Ok(())
}

fn is_match(page: &Page, number: u32, test: &str) -> bool {
    match page.name_of(number) {
        Some(name) => test == "*" || name == test,
        None => false,
    }
}
