//! Which member is why an object is no site.
ghost use Rattle.std.specs.Prelude.{◌≡◌, ◌≢◌, Some, is_some, true, false, IfOk, MatchResult, codes};
ghost use Rattle.serde_json.specs.Find.{as_str};
ghost use Rattle.serde_json.specs.View.{view};
ghost use Rattle.client_log.specs.Quota.{max_quota};
ghost use Rattle.visit_replay.specs.Limits.{max_workers};
ghost use Rattle.site_line.specs.Members.{list_by};
ghost use Rattle.site_line.specs.Decision.{decision_in};
ghost use Rattle.site_line.specs.Site.{path_by_text, pages_in, same_in, quota_in, workers_in};
ghost use Rattle.site_line.specs.Refused as plain;
ghost use Rattle.site_line.specs.Refused.{is_few, is_within, site_member_word};
ghost use Rattle.site_line.specs.declared.fault.SiteFault.TheVariants.{NoMemory};

use crate::fault::SiteFault;
use crate::reading::{
    read_decisions, read_fresh, read_pages, read_patched, read_quota, read_watched, read_workers,
};
use page_tree::NoMemory;
use serde_json::Value;
use site_hooks::Table;
use std::alloc::{AllocError, Global};
use std::fmt;

/// A member of a site line. Its text is its name.
#[derive(Clone, Copy, Debug, PartialEq, Eq)]
pub enum SiteMember {
    Patched,
    Pages,
    Watch,
    Same,
    Quota,
    Workers,
    Decide,
}

impl fmt::Display for SiteMember {
    ghost output = { λ member. Some (site_member_word member) };

    fn fmt<W: fmt::Write>(&self, f: &mut fmt::Formatter<W>) -> fmt::Result {
        f.write_str(match self {
            SiteMember::Patched => "patched",
            SiteMember::Pages => "pages",
            SiteMember::Watch => "watch",
            SiteMember::Same => "same",
            SiteMember::Quota => "quota",
            SiteMember::Workers => "workers",
            SiteMember::Decide => "decide",
        })
    }
}

/// The first member, in the order of `SiteMember`, for which an object is no site; none where there is none. All are read once more: it is asked for where
/// a site was refused.
#[tactic(auto, unfolding(crate::specs::Refused::refused_member))]
pub fn refused_member(alloc: Global, value: &Value) -> Result<Option<SiteMember>, NoMemory>
    ensures { IfOk result (λ member. member ≡ plain.refused_member (view value.now)) }
{
    if !takes_patched(alloc, value)? {
        return Ok(Some(SiteMember::Patched));
    }
    if !takes_pages(alloc, value)? {
        return Ok(Some(SiteMember::Pages));
    }
    if !takes_watched(alloc, value)? {
        return Ok(Some(SiteMember::Watch));
    }
    if !takes_same(alloc, value)? {
        return Ok(Some(SiteMember::Same));
    }
    if !takes_quota(value)? {
        return Ok(Some(SiteMember::Quota));
    }
    if !takes_workers(value)? {
        return Ok(Some(SiteMember::Workers));
    }
    if !takes_decisions(alloc, value)? {
        return Ok(Some(SiteMember::Decide));
    }
    Ok(None)
}

// ---- each member

fn takes_patched(alloc: Global, value: &Value) -> Result<bool, NoMemory>
    ensures { IfOk result (λ taken. taken ≡ is_some (list_by as_str (codes "patched") (view value.now))) }
{
    is_taken(read_patched(alloc, value))
}

fn takes_pages(alloc: Global, value: &Value) -> Result<bool, NoMemory>
    ensures { IfOk result (λ taken. taken ≡ is_some (pages_in (view value.now))) }
{
    is_taken(read_pages(alloc, value, &mut Table::new(alloc)))
}

fn takes_watched(alloc: Global, value: &Value) -> Result<bool, NoMemory>
    ensures { IfOk result (λ taken. taken ≡ is_some (list_by path_by_text (codes "watch") (view value.now))) }
{
    is_taken(read_watched(alloc, value))
}

fn takes_same(alloc: Global, value: &Value) -> Result<bool, NoMemory>
    ensures { IfOk result (λ taken. taken ≡ is_few (same_in (view value.now))) }
{
    is_taken(read_fresh(alloc, value))
}

fn takes_quota(value: &Value) -> Result<bool, NoMemory>
    ensures { IfOk result (λ taken. taken ≡ is_within max_quota (quota_in (view value.now))) }
{
    is_taken(read_quota(value))
}

fn takes_workers(value: &Value) -> Result<bool, NoMemory>
    ensures { IfOk result (λ taken. taken ≡ is_within max_workers (workers_in (view value.now))) }
{
    is_taken(read_workers(value))
}

fn takes_decisions(alloc: Global, value: &Value) -> Result<bool, NoMemory>
    ensures { IfOk result (λ taken. taken ≡ is_some (list_by decision_in (codes "decide") (view value.now))) }
{
    is_taken(read_decisions(alloc, value))
}

// Whether a member was taken, or refused for another reason than want of memory.
fn is_taken<T: Drop>(read: Result<T, SiteFault>) -> Result<bool, NoMemory>
    ensures { MatchResult read (λ _. IfOk result (λ taken. taken ≡ true))
        (λ fault. IfOk result (λ taken. (taken ≡ false) × (fault ≢ NoMemory))) }
{
    match read {
        Ok(_) => Ok(true),
        Err(SiteFault::NoMemory) => Err(AllocError),
        Err(_) => Ok(false),
    }
}
