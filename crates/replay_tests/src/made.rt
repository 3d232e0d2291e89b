//! Pages, sites and visits that tests are made of.
use client_log::Visit;
use page_tree::{Page, Text};
use serde_json::Value;
use site_hooks::Table;
use std::alloc::Global;
use std::test::Fail;
use visit_replay::Patch;

/// A link to `/b`, and a paragraph.
pub(crate) const OLD: &str =
    r#"{"n":"html","c":[{"n":"a","a":{"href":"/b"}},{"n":"p","c":["x"]}]}"#;

/// The link leads elsewhere, and the paragraph says something else.
pub(crate) const NEW: &str =
    r#"{"n":"html","c":[{"n":"a","a":{"href":"/c"}},{"n":"p","c":["y"]}]}"#;

pub(crate) fn text(alloc: Global, of: &str) -> Result<Text, Fail> {
    Ok(Text::from_str(alloc, of)?)
}

pub(crate) fn page(alloc: Global, of: &str) -> Result<Page, Fail> {
    Ok(Page::from_value(alloc, &Value::from_str(alloc, of)?)?)
}

pub(crate) fn patch(alloc: Global, addresses: &[&str]) -> Result<Patch, Fail> {
    let mut entries = Vec::new(alloc);
    for address in addresses {
        entries.push(text(alloc, address)?)?;
    }
    Ok(Patch::new(entries))
}

/// A site with the new page at each of these addresses.
pub(crate) fn site(alloc: Global, addresses: &[&str]) -> Result<Table, Fail> {
    let mut table = Table::new(alloc);
    for address in addresses {
        table.add_page(text(alloc, address)?, page(alloc, NEW)?)?;
    }
    Ok(table)
}

/// A visit to the old page at an address, before anything was done.
pub(crate) fn visit(alloc: Global, number: u64, address: &str) -> Result<Visit, Fail> {
    let (address, page) = (text(alloc, address)?, page(alloc, OLD)?);
    Ok(Visit::loaded(alloc, number, 0, 0, address, page, 1))
}
