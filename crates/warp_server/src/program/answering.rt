//! What becomes of any number of uploads: they are taken, replayed, decided and reported.
ghost use Rattle.std.specs.Prelude.{◌≡◌, IfOk, IfErr};
ghost use Rattle.std.specs.List.{AllByRecursion};
ghost use Rattle.upload_reader.specs.Upload.{IsUntouched};
ghost use Rattle.byte_streams.specs.Writing.{WritesNothing, writes_of};
ghost use Rattle.lanes_in_turn.specs.Round.{RefusesRound};
ghost use Rattle.upload_lanes.specs.Threads.{Gathers, GathersFirst};
ghost use Rattle.site_line.specs.Reading.{site_quota};
ghost use Rattle.lanes_in_turn.specs.Taking.{never};
ghost use Rattle.warp_run.specs.Conclusion.{repaired_site, site_settled};
ghost use Rattle.warp_server.specs.Answer.{IsNoAnswer};
ghost use Rattle.warp_server.specs.declared.program.answering.AnswerFault.TheVariants.{NoMemory};
ghost use Rattle.warp_server.specs.Headline.{Headline};
ghost use Rattle.warp_server.specs.Rounds.{server_room};
ghost use Rattle.warp_run.specs.Report.{WritesReport, report_text};

use byte_streams::{Sink, Source};
use client_log::Quota;
use lane_queue::Room;
use site_line::Site;
use std::alloc::AllocError;
use std::sync::Wait;
use std::thread::Threads;
use upload_lanes::{GatherFault, Gathered, RefusedRound, gather_again};
use upload_reader::Upload;
use warp_run::{Concluded, Repaired, ReportFault, conclude};

/// How many messages wait in each queue of a round of several clients, at the most. At a smaller one uploaders stop too often.
const ROOM: usize = 1_024;

/// What became of uploads.
#[derive(Drop)]
pub struct Answered<R: Source> {
    /// What was taken of them, with their readers.
    pub gathered: Gathered<R>,
    /// What replaying and the site's decisions made of that.
    pub repaired: Repaired,
    /// Whether the report of it was written.
    pub report: Result<(), ReportFault>,
}

/// Why uploads have no answer.
#[derive(Clone, Copy, Debug, PartialEq, Eq)]
pub enum AnswerFault {
    /// There is no round of them (G1, G2), or memory, or the start of a thread, was refused before the first message was taken (G3).
    Round(GatherFault),
    /// Memory was refused behind the round, before the report was composed.
    NoMemory,
}

impl From<AllocError> for AnswerFault {
    ghost from_gives = { λ _ e. e ≡ NoMemory };

    fn from(_e: AllocError) -> AnswerFault {
        AnswerFault::NoMemory
    }
}

/// Takes 1 to 16 uploads to their ends, each of a client of its own; replays on the site what the logs keep of them, by the site's workers; puts the
/// site's decisions to the desk; and writes the report. Where memory is refused before the report is composed, nothing is written.
pub fn answer<R: Source + Drop + Send, W: Sink, T: AllocGlobal + Threads + Wait + Sync>(
    rt: &T,
    site: &Site,
    uploads: Vec<Upload<R>>,
    writer: &mut W,
) -> Result<Answered<R>, AnswerFault>
    requires untouched { AllByRecursion IsUntouched uploads.items }

    // What the server promises of each client, whatever the threads do.
    ensures headline { IfOk result (λ answered. Headline (repaired_site site.now) (site_quota site.now)
        uploads.items answered.gathered answered.repaired) }

    // The same to the letter: what each step made of what the one before gave.
    ensures gathered { IfOk result (λ answered.
        GathersFirst never server_room uploads.items (site_quota site.now) answered.gathered) }
    ensures repaired { IfOk result (λ answered. answered.repaired ≡ site_settled site.now answered.gathered) }
    ensures report { IfOk result (λ answered. WritesReport (writes_of W.puts W.contents writer.old writer.new)
        (report_text answered.repaired) answered.report) }

    // Why not, and then nothing was written.
    ensures refused { IfErr result (IsNoAnswer uploads.items) }
    ensures nothing { IfErr result (λ _. WritesNothing (writes_of W.puts W.contents writer.old writer.new)) }
{
    let none = Gathered::new(rt.alloc());
    let gathered = match take_to_ends(rt, none, uploads, site.quota()) {
        Ok(gathered) => gathered,
        Err(refused) => return Err(AnswerFault::Round(refused.fault)),
    };
    let Concluded { repaired, report } = conclude(rt, site, &gathered, writer)?;
    Ok(Answered {
        gathered,
        repaired,
        report,
    })
}

/// Takes the uploads to their ends, behind what was gathered before: the question whether to stop is never answered by true.
pub(crate) fn take_to_ends<R: Source + Drop + Send, T: AllocGlobal + Threads + Wait + Sync>(
    rt: &T,
    earlier: Gathered<R>,
    uploads: Vec<Upload<R>>,
    quota: Quota,
) -> Result<Gathered<R>, RefusedRound<R>>
    requires untouched { AllByRecursion IsUntouched uploads.items }
    ensures ok { IfOk result (Gathers never server_room earlier uploads.items quota) }
    ensures refused { IfErr result (RefusesRound earlier uploads.items) }
{
    Ok(gather_again(rt, earlier, uploads, quota, room(), &|_items: u64| false)?)
}

// As much as a queue holds.
fn room() -> Room
    ensures { result ≡ server_room }
{
    let Ok(room) = Room::new(ROOM) else {
        unreachable!()
    };
    room
}
