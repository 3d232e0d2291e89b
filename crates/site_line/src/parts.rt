//! What a site line says, before it is a site.
ghost use Rattle.std.specs.Prelude.{IfOk, IfErr, IsErrOf};
ghost use Rattle.serde_json.specs.Data.{Data};
ghost use Rattle.serde_json.specs.View.{view};
ghost use Rattle.visit_replay.specs.Limits.{AreWorkers};
ghost use Rattle.site_line.specs.Site.{Site as PlainSite, IsSiteOf, IsSiteLine, IsNoSite, IsJsonOf};
ghost use Rattle.site_line.specs.declared.fault.SiteFault.TheVariants.{NotJson, BadMember};

use crate::fault::SiteFault;
use crate::reading::{
    read_decisions, read_line, read_members, read_pages, read_patched, read_quota, read_same,
    read_watched, read_workers,
};
use client_log::Quota;
use conflict_desk::Decision;
use page_tree::Text;
use serde_json::Value;
use site_hooks::Table;
use std::alloc::Global;
use std::hash::RandomState;
use visit_replay::Finding;

/// What a site is made of; more may be added to it.
#[derive(Drop)]
pub struct SiteParts {
    pub patched: Vec<Text>,
    pub table: Table,
    pub finding: Finding,
    pub quota: Quota,
    /// 1 to 32.
    pub workers: u32,
    pub decisions: Vec<Decision>,
    ghost workers_in_range: { AreWorkers workers },
}

impl SiteParts {
    ghost use Rattle.site_line.specs.Reading.{ArePartsOfSite};
    ghost use Rattle.site_line.specs.inside.{FailsWhere};

    /// What a line says, as `Site::read` takes it.
    pub fn read(alloc: Global, keys: RandomState, line: &[u8]) -> Result<SiteParts, SiteFault>
        ensures ok { IfOk result (λ parts.
            (plain : PlainSite) × IsSiteLine line.now plain × ArePartsOfSite parts plain) }
        ensures not_json { IsErrOf result NotJson → (d : Data) → ¬ IsJsonOf line.now d }
        ensures bad_member { IsErrOf result BadMember → (d : Data) × IsJsonOf line.now d × IsNoSite d }
    {
        let value = read_line(alloc, line)?;
        SiteParts::from_value(alloc, keys, &value)
    }

    // Z2 where the value is no object, or a member is wrong.
    fn from_value(alloc: Global, keys: RandomState, value: &Value) -> Result<SiteParts, SiteFault>
        ensures ok { IfOk result (λ parts.
            (plain : PlainSite) × IsSiteOf (view value.now) plain × ArePartsOfSite parts plain) }
        ensures fails { IfErr result (FailsWhere (IsNoSite (view value.now))) }
    {
        read_members(value)?;
        let patched = read_patched(alloc, value)?;
        let mut table = read_watched(alloc, value)?;
        read_pages(alloc, value, &mut table)?;
        let finding = read_same(alloc, keys, value)?;
        let quota = read_quota(value)?;
        let workers = read_workers(value)?;
        let decisions = read_decisions(alloc, value)?;
        Ok(SiteParts {
            patched,
            table,
            finding,
            quota,
            workers,
            decisions,
        })
    }
}
