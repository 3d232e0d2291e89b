//! The members of a site line.
ghost use Rattle.std.specs.Prelude.{◌≡◌, List, ℕ, Option, None, Some, IfOk, IfErr, IsErrOf, option_map, codes};
ghost use Rattle.serde_json.specs.Data.{Data};
ghost use Rattle.serde_json.specs.View.{view, items_view, members_view};
ghost use Rattle.serde_json.specs.Find.{as_str, as_array, as_object};
ghost use Rattle.page_tree.specs.Fault.{page_in};
ghost use Rattle.client_log.specs.Quota.{IsQuota};
ghost use Rattle.site_hooks.specs.Table.{table_page, watched_in};
ghost use Rattle.visit_replay.specs.Limits.{AreWorkers};
ghost use Rattle.site_line.specs.Members.{whole_number, number_or, items_by, array_or_none, list_by};
ghost use Rattle.site_line.specs.Decision.{decision_in};
ghost use Rattle.site_line.specs.Site.{IsJsonOf, path_by_text, pages_in, page_among, same_in, quota_in, workers_in, AreFewNames};
ghost use Rattle.site_line.specs.inside.{FailsWhere, GivesSite};
ghost use Rattle.site_line.specs.declared.fault.SiteFault.TheVariants.{NotJson, BadMember};

use crate::decision::read_decision;
use crate::fault::SiteFault;
use client_log::Quota;
use conflict_desk::Decision;
use page_looks::FreshNames;
use page_tree::{Page, Text};
use serde_json::{Category, Map, Value};
use site_hooks::Table;
use std::alloc::Global;
use std::hash::RandomState;
use visit_replay::{Finding, MAX_WORKERS};
use xpath_child::{Path, PathFaultKind};

/// What is kept of a client in bytes, where the site doesn't say.
const DEFAULT_QUOTA: u64 = 1_048_576;

/// How many workers there are, where the site doesn't say.
const DEFAULT_WORKERS: u64 = 1;

/// How many names may be fresh.
const MAX_FRESH: usize = 16;

/// The JSON value of a line; Z1 where it has none.
pub(crate) fn read_line(alloc: Global, line: &[u8]) -> Result<Value, SiteFault>
    ensures ok { IfOk result (λ value. IsJsonOf line.now (view value)) }
    ensures not_json { IsErrOf result NotJson → (d : Data) → ¬ IsJsonOf line.now d }
    ensures json { ¬ IsErrOf result BadMember }
{
    match Value::from_slice(alloc, line) {
        Ok(value) => Ok(value),
        Err(e) => match e.classify() {
            Category::Memory => Err(SiteFault::NoMemory),
            _ => Err(SiteFault::NotJson),
        },
    }
}

// ---- values

pub(crate) fn read_text(value: &Value) -> Result<&str, SiteFault>
    ensures { GivesSite (λ text. text.now) result (as_str (view value.now)) }
{
    value.as_str().ok_or(SiteFault::BadMember)
}

pub(crate) fn read_items(value: &Value) -> Result<&[Value], SiteFault>
    ensures { GivesSite (λ items. items_view items.now) result (as_array (view value.now)) }
{
    let Some(items) = value.as_array() else {
        return Err(SiteFault::BadMember);
    };
    Ok(items.as_slice())
}

// The items of the member of that name; none where it is absent.
fn items_at<'a>(value: &'a Value, name: &str) -> Result<&'a [Value], SiteFault>
    ensures { GivesSite (λ items. items_view items.now) result (array_or_none name.now (view value.now)) }
{
    let Some(given) = value.get(name) else {
        return Ok(&[]);
    };
    read_items(given)
}

pub(crate) fn read_whole_number(value: &Value) -> Result<u64, SiteFault>
    ensures { GivesSite (λ number. number) result (whole_number (view value.now)) }
{
    value.as_u64().ok_or(SiteFault::BadMember)
}

pub(crate) fn read_members(value: &Value) -> Result<&Map<String, Value>, SiteFault>
    ensures { GivesSite (λ members. members_view members.now.entries) result (as_object (view value.now)) }
{
    value.as_object().ok_or(SiteFault::BadMember)
}

// A whole number, or the other where it is absent.
fn read_number(absent: u64, name: &str, value: &Value) -> Result<u64, SiteFault>
    ensures { GivesSite (λ number. number) result (number_or absent name.now (view value.now)) }
{
    let Some(given) = value.get(name) else {
        return Ok(absent);
    };
    read_whole_number(given)
}

// ---- members

pub(crate) fn read_patched(alloc: Global, value: &Value) -> Result<Vec<Text>, SiteFault>
    ensures { GivesSite (λ texts. texts.items) result (list_by as_str (codes "patched") (view value.now)) }
{
    let items = items_at(value, "patched")?;
    read_texts(alloc, items)
}

/// How events find their places: by their elements, where the names of fresh values are given. The texts of pages are hashed by these keys.
pub(crate) fn read_same(
    alloc: Global,
    keys: RandomState,
    value: &Value,
) -> Result<Finding, SiteFault>
    ensures ok { IfOk result (λ finding. (same_in (view value.now) ≡ Some finding) × AreFewNames finding) }
    ensures fails { IfErr result
        (FailsWhere ((names : Option (List (List ℕ))) → same_in (view value.now) ≡ Some names → ¬ AreFewNames names)) }
{
    match read_fresh(alloc, value)? {
        None => Ok(Finding::by_path()),
        Some(names) => Ok(Finding::by_element(FreshNames::new(names, keys))),
    }
}

/// The names of fresh values, where they are given.
pub(crate) fn read_fresh(alloc: Global, value: &Value) -> Result<Option<Vec<Text>>, SiteFault>
    ensures ok { IfOk result (λ fresh. let names = option_map (λ all. all.items) fresh in
        (same_in (view value.now) ≡ Some names) × AreFewNames names) }
    ensures fails { IfErr result
        (FailsWhere ((names : Option (List (List ℕ))) → same_in (view value.now) ≡ Some names → ¬ AreFewNames names)) }
{
    let Some(given) = value.get("same") else {
        return Ok(None);
    };
    let items = read_items(given)?;
    let names = read_texts(alloc, items)?;
    if names.len() > MAX_FRESH {
        return Err(SiteFault::BadMember);
    }
    Ok(Some(names))
}

fn read_texts(alloc: Global, items: &[Value]) -> Result<Vec<Text>, SiteFault>
    ensures { GivesSite (λ texts. texts.items) result (items_by as_str (items_view items.now)) }
{
    let mut texts = Vec::new(alloc);
    for item in items {
        texts.push(Text::from_str(alloc, read_text(item)?)?)?;
    }
    Ok(texts)
}

/// Adds the site's pages to a table that has none.
pub(crate) fn read_pages(alloc: Global, value: &Value, table: &mut Table) -> Result<(), SiteFault>
    requires { (address : List ℕ) → table_page table.old address ≡ None }
    ensures pages { IfOk result (λ _. (address : List ℕ)
        → option_map (λ pages. page_among pages address) (pages_in (view value.now)) ≡ Some (table_page table.new address)) }
    ensures watched { watched_in table.new ≡ watched_in table.old }
    ensures fails { IfErr result (FailsWhere (pages_in (view value.now) ≡ None)) }
{
    let Some(given) = value.get("pages") else {
        return Ok(());
    };
    for (address, page) in read_members(given)?.iter() {
        let page = read_page(alloc, page)?;
        table.add_page(Text::from_str(alloc, address.as_str())?, page)?;
    }
    Ok(())
}

fn read_page(alloc: Global, value: &Value) -> Result<Page, SiteFault>
    ensures { GivesSite (λ page. page) result (page_in (view value.now)) }
{
    Ok(Page::from_value(alloc, value)?)
}

/// A table without pages that watches the site's paths.
pub(crate) fn read_watched(alloc: Global, value: &Value) -> Result<Table, SiteFault>
    ensures watched { GivesSite watched_in result (list_by path_by_text (codes "watch") (view value.now)) }
    ensures pages { IfOk result (λ table. (address : List ℕ) → table_page table address ≡ None) }
{
    let mut table = Table::new(alloc);
    for item in items_at(value, "watch")? {
        table.watch(read_path(alloc, item)?)?;
    }
    Ok(table)
}

fn read_path(alloc: Global, value: &Value) -> Result<Path, SiteFault>
    ensures { GivesSite (λ path. path) result (path_by_text (view value.now)) }
{
    match Path::read(alloc, read_text(value)?) {
        Ok(path) => Ok(path),
        Err(fault) => match fault.kind {
            PathFaultKind::NoMemory => Err(SiteFault::NoMemory),
            _ => Err(SiteFault::BadMember),
        },
    }
}

pub(crate) fn read_quota(value: &Value) -> Result<Quota, SiteFault>
    ensures ok { IfOk result (λ quota. (quota_in (view value.now) ≡ Some quota) × IsQuota quota) }
    ensures fails { IfErr result (FailsWhere ((bytes : ℕ) → quota_in (view value.now) ≡ Some bytes → ¬ IsQuota bytes)) }
{
    match Quota::new(read_number(DEFAULT_QUOTA, "quota", value)?) {
        Ok(quota) => Ok(quota),
        Err(_) => Err(SiteFault::BadMember),
    }
}

pub(crate) fn read_workers(value: &Value) -> Result<u32, SiteFault>
    ensures ok { IfOk result (λ workers. (workers_in (view value.now) ≡ Some workers) × AreWorkers workers) }
    ensures fails { IfErr result (FailsWhere ((n : ℕ) → workers_in (view value.now) ≡ Some n → ¬ AreWorkers n)) }
{
    let workers = read_number(DEFAULT_WORKERS, "workers", value)?;
    if workers == 0 || workers > u64::from(MAX_WORKERS) {
        return Err(SiteFault::BadMember);
    }
    Ok(workers as u32)
}

/// The decisions, each at its entry's place.
pub(crate) fn read_decisions(alloc: Global, value: &Value) -> Result<Vec<Decision>, SiteFault>
    ensures { GivesSite (λ all. all.items) result (list_by decision_in (codes "decide") (view value.now)) }
{
    let mut decisions = Vec::new(alloc);
    for entry in items_at(value, "decide")? {
        decisions.push(read_decision(alloc, entry)?)?;
    }
    Ok(decisions)
}
