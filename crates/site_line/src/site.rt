//! The repaired site.
ghost use Rattle.std.specs.Prelude.{◌≡◌, IfOk, IsErrOf};
ghost use Rattle.serde_json.specs.Data.{Data};
ghost use Rattle.visit_replay.specs.Limits.{AreWorkers};
ghost use Rattle.site_line.specs.Site.{Site as PlainSite, IsSiteLine, IsNoSite, IsJsonOf};
ghost use Rattle.site_line.specs.declared.fault.SiteFault.TheVariants.{NotJson, BadMember};

use crate::fault::SiteFault;
use crate::parts::SiteParts;
use client_log::Quota;
use conflict_desk::Decision;
use site_hooks::Table;
use std::alloc::Global;
use std::hash::RandomState;
use visit_replay::{Finding, Patch};

/// What was repaired, the pages that the site shows now, which texts of them must not have changed, how events find their places there, how much is kept of
/// each client, how many workers replay its visits, and what was decided on conflicts so far.
#[derive(Drop)]
pub struct Site {
    patch: Patch,
    table: Table,
    finding: Finding,
    quota: Quota,
    workers: u32,
    decisions: Vec<Decision>,
    ghost workers_in_range: { AreWorkers workers },
}

impl Site {
    ghost use Rattle.site_line.specs.Reading.{site_patch, site_table, site_same, site_quota, site_workers, site_decisions, ArePartsOfSite, AnswersAs};

    /// The site that a line says: a JSON object with `patched` (an array of address texts), `pages` (an object, from address to page), `watch` (an
    /// array of path texts), `same` (an array of 16 names at most; without it events go by their paths), `quota` (1 to 4,294,967,295 bytes, else 1,048,576),
    /// `workers` (1 to 32, else 1) and `decide` (an array of decisions, each an array of client, visit and choice), all optional. Unknown members are
    /// ignored. Where events go by their elements, the texts of pages are hashed by these keys, which nobody may know who writes a page.
    pub fn read(alloc: Global, keys: RandomState, line: &[u8]) -> Result<Site, SiteFault>
        ensures ok { IfOk result (λ site. (plain : PlainSite) × IsSiteLine line.now plain × AnswersAs site plain) }
        ensures only { IfOk result (λ site. (plain : PlainSite) → IsSiteLine line.now plain → AnswersAs site plain) }
        ensures not_json { IsErrOf result NotJson → (d : Data) → ¬ IsJsonOf line.now d }
        ensures bad_member { IsErrOf result BadMember → (d : Data) × IsJsonOf line.now d × IsNoSite d }
    {
        let parts = SiteParts::read(alloc, keys, line)?;
        Ok(Site::of_parts(parts))
    }

    /// The site that is made of these. It takes no memory.
    pub fn of_parts(parts: SiteParts) -> Site
        ensures { (plain : PlainSite) → ArePartsOfSite parts plain → AnswersAs result plain }
    {
        Site {
            patch: Patch::new(parts.patched),
            table: parts.table,
            finding: parts.finding,
            quota: parts.quota,
            workers: parts.workers,
            decisions: parts.decisions,
        }
    }

    /// Which addresses were repaired.
    pub fn patch(&self) -> &Patch
        ensures { result.now ≡ site_patch self.now }
    {
        &self.patch
    }

    /// Its pages, and the paths that are watched.
    pub fn table(&self) -> &Table
        ensures { result.now ≡ site_table self.now }
    {
        &self.table
    }

    /// How events find their places on its pages.
    pub fn finding(&self) -> &Finding
        ensures { result.now ≡ site_same self.now }
    {
        &self.finding
    }

    /// How much is kept of each client.
    pub fn quota(&self) -> Quota
        ensures { result ≡ site_quota self.now }
    {
        self.quota
    }

    /// How many workers replay the visits of a client.
    pub fn workers(&self) -> u32
        ensures workers { result ≡ site_workers self.now }
        ensures few { AreWorkers result }
    {
        self.workers
    }

    /// What was decided so far, in that order.
    pub fn decisions(&self) -> &[Decision]
        ensures { result.now ≡ site_decisions self.now }
    {
        self.decisions.as_slice()
    }
}
