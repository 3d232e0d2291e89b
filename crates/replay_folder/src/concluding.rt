//! What becomes of what was taken: it is replayed on the site and decided.
ghost use Rattle.std.specs.Prelude.{◌≡◌, IfOk, map};
ghost use Rattle.conflict_desk.specs.Laws.{AllLeaveInOrder, IsInOrder};
ghost use Rattle.own_pages.specs.OwnPages.{own_page_at};
ghost use Rattle.site_file.specs.Kept.{file_site, file_own};
ghost use Rattle.warp_run.specs.Conclusion.{repaired_site};
ghost use Rattle.warp_run.specs.Repair.{docket_with_own, new_repaired};
ghost use Rattle.replay_folder.specs.FolderReport.{last_summary};
ghost use Rattle.replay_folder.specs.Replays.{folder_repaired};

use crate::ends::UploadEnd;
use crate::summaries::summaries;
use byte_streams::Source;
use page_tree::NoMemory;
use site_file::SiteFile;
use std::alloc::AllocError;
use std::thread::Threads;
use upload_lanes::Gathered;
use warp_run::{Listed, Repaired, repair_with_own, settle};

/// What replaying on the site makes of what was gathered, with the site's decisions made.
pub(crate) fn repair_folder<F: Source, T: AllocGlobal + Threads + Sync>(
    rt: &T,
    site: &SiteFile,
    ends: &[UploadEnd],
    gathered: &Gathered<F>,
) -> Result<Repaired, NoMemory>
    ensures repaired { IfOk result (λ repaired. repaired ≡ folder_repaired site.now ends.now gathered.now) }
    ensures leave { IfOk result (λ repaired. AllLeaveInOrder repaired.desk) }
{
    let mut repaired = repair_undecided(rt, site, ends, gathered)?;
    settle(rt.alloc(), &mut repaired, site.site().decisions())?;
    Ok(repaired)
}

// The same before the first decision.
fn repair_undecided<F: Source, T: AllocGlobal + Threads + Sync>(
    rt: &T,
    site: &SiteFile,
    ends: &[UploadEnd],
    gathered: &Gathered<F>,
) -> Result<Repaired, NoMemory>
    ensures repaired { IfOk result (λ repaired. repaired ≡ new_repaired gathered.now.stop
        (map (last_summary ends.now) gathered.now.clients.entries)
        (map (docket_with_own (repaired_site (file_site site.now)) (own_page_at (file_own site.now)))
        gathered.now.clients.entries)) }
    ensures leave { IfOk result (λ repaired. IsInOrder repaired.desk) }
{
    let clients = summaries(rt.alloc(), ends, &gathered.clients)?;
    let plain = site.site();
    let (table, own) = (plain.table(), site.own_pages());
    let Ok(desk) = repair_with_own(
        rt,
        plain.workers(),
        table,
        own,
        plain.patch(),
        plain.finding(),
        &gathered.clients,
    ) else {
        return Err(AllocError);
    };
    Ok(Repaired {
        stop: gathered.stop,
        clients: Listed::from(clients),
        desk,
        decided: Listed::new(rt.alloc()),
    })
}
