//! Replaying in two halves: what it comes to, and its report.
ghost use Rattle.std.specs.Prelude.{IfOk};
ghost use Rattle.byte_streams.specs.Reading.{WasRead};
ghost use Rattle.byte_streams.specs.Writing.{writes_of};
ghost use Rattle.warp_run.specs.Report.{WritesReport, report_with};
ghost use Rattle.replay_folder.specs.FolderReport.{upload_lines};
ghost use Rattle.replay_folder.specs.Replayed.{IsReplayedOf};

use crate::concluding::repair_folder;
use crate::ends::folder_status;
use crate::lines::report_folder;
use crate::names::name_uploads;
use crate::open_round::TakenFiles;
use crate::opens::{OpensUploads, Watches};
use crate::replayed::{Replayed, ToldUploads};
use crate::taking::take_files;
use byte_streams::{Sink, Source};
use page_tree::NoMemory;
use site_file::SiteFile;
use std::alloc::Global;
use std::sync::Wait;
use std::thread::Threads;
use warp_run::{Listed, ReportFault};
use warp_server::Words;

/// Takes the uploads that the words name, each to its end behind what its client uploaded before; replays on the site what the logs keep, by the site's workers;
/// and puts the site's decisions. Where memory is refused while messages are taken, the rest is left unread.
pub fn replay_uploads<
    F: Source + Drop + Send,
    O: OpensUploads<File = F> + Sync,
    P: Watches + Send,
    T: AllocGlobal + Threads + Wait + Sync,
>(
    rt: &T,
    opener: &O,
    uploads: Words,
    watcher: &mut P,
    site: &SiteFile,
) -> Result<Replayed<F>, NoMemory>
    ensures { IfOk result (IsReplayedOf (O.opened opener.now) (O.listed opener.now) (WasRead F.answers F.remaining)
        site.now uploads) }
{
    let named = name_uploads(rt.alloc(), opener, uploads)?;
    let taken = take_files(rt, opener, watcher, named.as_slice(), site.site().quota())?;
    let repaired = repair_folder(rt, site, taken.ends.as_slice(), &taken.gathered)?;
    let status = folder_status(taken.status, taken.ends.as_slice());
    let TakenFiles { gathered, ends, .. } = taken;
    let told = ToldUploads {
        named: Listed::from(named),
        ends: Listed::from(ends),
    };
    Ok(Replayed {
        told,
        gathered,
        repaired,
        status,
    })
}

/// Writes the report, with a line for each upload.
pub fn report_replayed<F: Source, W: Sink>(
    alloc: Global,
    replayed: &Replayed<F>,
    writer: &mut W,
) -> Result<(), ReportFault>
    ensures { WritesReport (writes_of W.puts W.contents writer.old writer.new)
        (report_with (upload_lines replayed.now.told.named replayed.now.told.ends) replayed.now.repaired) result }
{
    let told = &replayed.told;
    report_folder(
        alloc,
        told.named.as_slice(),
        told.ends.as_slice(),
        &replayed.repaired,
        writer,
    )
}
