//! What becomes of what was gathered: it is replayed on the site, decided and reported.
ghost use Rattle.std.specs.Prelude.{◌≡◌, IfOk, IfErr};
ghost use Rattle.site_hooks.specs.Closures.{AtAddresses, AtPages, MakesBy, TellsBy};
ghost use Rattle.site_hooks.specs.Table.{table_page, signals_in};
ghost use Rattle.conflict_desk.specs.Laws.{AllLeaveInOrder, IsInOrder};
ghost use Rattle.byte_streams.specs.Writing.{WritesNothing, writes_of};
ghost use Rattle.site_line.specs.Reading.{site_patch, site_same};
ghost use Rattle.warp_run.specs.Conclusion.{repaired_site, site_of_table, site_settled};
ghost use Rattle.warp_run.specs.Repair.{repaired_of};
ghost use Rattle.warp_run.specs.Report.{WritesReport, report_text};

use crate::repaired::Repaired;
use crate::repairing::repair;
use crate::reporting::{ReportFault, report};
use crate::settling::settle;
use byte_streams::{Sink, Source};
use lanes_in_turn::Gathered;
use page_tree::{NoMemory, Page};
use site_hooks::{Closures, ConflictTeller, PageMaker, SiteHooks, Table};
use site_line::Site;
use std::alloc::AllocError;
use std::thread::Threads;

/// What became of what was gathered.
#[derive(Drop)]
pub struct Concluded {
    /// What replaying and the site's decisions made of it.
    pub repaired: Repaired,
    /// Whether the report of it was written.
    pub report: Result<(), ReportFault>,
}

/// Replays what the logs keep on the site, puts the site's decisions, and writes the report. Where memory is refused before the report is composed, nothing
/// is written.
pub fn conclude<R: Source, W: Sink, T: AllocGlobal + Threads + Sync>(
    rt: &T,
    site: &Site,
    gathered: &Gathered<R>,
    writer: &mut W,
) -> Result<Concluded, NoMemory>
    ensures repaired { IfOk result (λ concluded. concluded.repaired ≡ site_settled site.now gathered.now) }
    ensures leave { IfOk result (λ concluded. AllLeaveInOrder concluded.repaired.desk) }
    ensures report { IfOk result (λ concluded. WritesReport (writes_of W.puts W.contents writer.old writer.new)
        (report_text concluded.repaired) concluded.report) }
    ensures nothing { IfErr result (λ _. WritesNothing (writes_of W.puts W.contents writer.old writer.new)) }
{
    let repaired = repair_and_settle(rt, site, gathered)?;
    let report = report(rt.alloc(), &repaired, writer);
    Ok(Concluded { repaired, report })
}

// What replaying on the site makes of what was gathered, with the site's decisions made.
fn repair_and_settle<R: Source, T: AllocGlobal + Threads + Sync>(
    rt: &T,
    site: &Site,
    gathered: &Gathered<R>,
) -> Result<Repaired, NoMemory>
    ensures repaired { IfOk result (λ repaired. repaired ≡ site_settled site.now gathered.now) }
    ensures leave { IfOk result (λ repaired. AllLeaveInOrder repaired.desk) }
{
    let mut repaired = repair_site(rt, site, gathered)?;
    settle(rt.alloc(), &mut repaired, site.decisions())?;
    Ok(repaired)
}

// On a site of two closures over the site's table.
fn repair_site<R: Source, T: AllocGlobal + Threads + Sync>(
    rt: &T,
    site: &Site,
    gathered: &Gathered<R>,
) -> Result<Repaired, NoMemory>
    ensures repaired { IfOk result (λ repaired. repaired ≡ repaired_of (repaired_site site.now) gathered.now) }
    ensures leave { IfOk result (λ repaired. IsInOrder repaired.desk) }
{
    let table = site.table();
    let make = |address: &str| table.make(address);
    let tell = |address: &str, old: &Page, new: &Page| table.signals(address, old, new);
    repair_by(rt, site, table, make, tell, gathered)
}

// The same on a site of these closures, which keep the table's law.
fn repair_by<
    F: PageMaker + Sync + Drop,
    C: ConflictTeller + Sync + Drop,
    R: Source,
    T: AllocGlobal + Threads + Sync,
>(
    rt: &T,
    site: &Site,
    table: &Table,
    make: F,
    tell: C,
    gathered: &Gathered<R>,
) -> Result<Repaired, NoMemory>
    requires callable_maker { AtAddresses (F.can_make make) }
    requires lawful_maker { MakesBy (table_page table.now) (F.may_make make) }
    requires callable_teller { AtPages (C.can_tell tell) }
    requires lawful_teller { TellsBy (λ _. signals_in table.now) (C.may_tell tell) }
    ensures repaired { IfOk result (λ it. it
        ≡ repaired_of (site_of_table table.now (site_patch site.now) (site_same site.now)) gathered.now) }
    ensures leave { IfOk result (λ repaired. IsInOrder repaired.desk) }
{
    let hooks = Closures::new(make, tell, table);
    match repair(
        rt,
        site.workers(),
        &hooks,
        site.patch(),
        site.finding(),
        gathered,
    ) {
        Ok(repaired) => Ok(repaired),
        Err(_) => Err(AllocError),
    }
}
