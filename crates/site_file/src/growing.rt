//! A site that lines are added to.
ghost use Rattle.std.specs.Prelude.{◌≡◌, ℕ, List, [], ◌++◌, OnOk};
ghost use Rattle.site_hooks.specs.Table.{table_page, watched_in};

use crate::file::SiteFile;
use conflict_desk::Decision;
use own_pages::OwnPages;
use page_tree::{NoMemory, Page, Text};
use site_hooks::Table;
use site_line::{Site, SiteParts};
use std::alloc::Global;
use upload_reader::Client;
use xpath_child::Path;

/// What the lines of a file say so far. The addresses that were patched are put in order once, at the end.
#[derive(Drop)]
pub(crate) struct Growing {
    pub(crate) parts: SiteParts,
    pub(crate) own: OwnPages,
}

impl Growing {
    ghost use Rattle.site_line.specs.Site.{Site as PlainSite};
    ghost use Rattle.site_line.specs.Reading.{ArePartsOfSite};
    ghost use Rattle.site_file.specs.Addition.{at_address, of_visit, more_patched, more_watched, decided};
    ghost use Rattle.site_file.specs.SiteFile.{FileSite, with_additions};
    ghost use Rattle.site_file.specs.Kept.{AnswersAsFile};
    ghost use Rattle.site_file.specs.inside.{StandsSoFar, AddsToSite};

    /// What the first line says. It takes no memory.
    pub(crate) fn begin(alloc: Global, parts: SiteParts) -> Growing
        ensures { (plain : PlainSite) → ArePartsOfSite parts plain → StandsSoFar result (with_additions plain []) }
    {
        let own = OwnPages::new(alloc);
        Growing { parts, own }
    }

    /// The page at an address, in place of an earlier one.
    pub(crate) fn add_page(&mut self, address: Text, page: Page) -> Result<(), NoMemory>
        ensures { OnOk result (AddsToSite (at_address address page) self.old self.new) }
    {
        self.parts.table.add_page(address, page)
    }

    /// The page of a visit alone, likewise.
    pub(crate) fn add_own_page(
        &mut self,
        alloc: Global,
        client: &Client,
        visit: u64,
        page: Page,
    ) -> Result<(), NoMemory>
        ensures { OnOk result (AddsToSite (of_visit client.now visit page) self.old self.new) }
    {
        self.own.add(alloc, client.text(), visit, page)
    }

    /// Addresses that were patched, too.
    pub(crate) fn add_patched(&mut self, addresses: Vec<Text>) -> Result<(), NoMemory>
        ensures { OnOk result (AddsToSite (more_patched addresses.items) self.old self.new) }
    {
        push_all(&mut self.parts.patched, addresses)
    }

    /// Paths that are watched, too.
    pub(crate) fn add_watched(&mut self, paths: Vec<Path>) -> Result<(), NoMemory>
        ensures { OnOk result (AddsToSite (more_watched paths.items) self.old self.new) }
    {
        watch_all(&mut self.parts.table, paths)
    }

    /// A decision behind those before it.
    pub(crate) fn add_decision(&mut self, decision: Decision) -> Result<(), NoMemory>
        ensures { OnOk result (AddsToSite (decided decision) self.old self.new) }
    {
        self.parts.decisions.push(decision)?;
        Ok(())
    }

    /// The site that the whole file says. It takes no memory.
    pub(crate) fn finish(self) -> SiteFile
        ensures { (file : FileSite) → StandsSoFar self file → AnswersAsFile result file }
    {
        SiteFile {
            site: Site::of_parts(self.parts),
            own: self.own,
        }
    }
}

fn push_all(addresses: &mut Vec<Text>, more: Vec<Text>) -> Result<(), NoMemory>
    ensures { OnOk result (addresses.new.items ≡ addresses.old.items ++ more.items) }
{
    for address in more {
        addresses.push(address)?;
    }
    Ok(())
}

fn watch_all(table: &mut Table, paths: Vec<Path>) -> Result<(), NoMemory>
    ensures watched { OnOk result (watched_in table.new ≡ watched_in table.old ++ paths.items) }
    ensures pages { (address : List ℕ) → table_page table.new address ≡ table_page table.old address }
{
    for path in paths {
        table.watch(path)?;
    }
    Ok(())
}
