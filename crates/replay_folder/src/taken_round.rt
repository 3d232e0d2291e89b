//! What threads made of names is told, round by round. Of a round the uploads were taken already, each the first of its client.
ghost use Rattle.std.specs.Prelude.{◌≡◌, ℕ, ◌<◌, List, [], ◌++◌, length, take, Ok, IfOk};
ghost use Rattle.byte_streams.specs.Reading.{WasRead};
ghost use Rattle.lanes_in_turn.specs.Round.{max_round_lanes};
ghost use Rattle.warp_run.specs.declared.status.Status.TheVariants.{Done};
ghost use Rattle.replay_folder.specs.declared.drawn_files.DrawnFile.TheVariants.{Taken};
ghost use Rattle.replay_folder.specs.inside.{IsTaking};
ghost use Rattle.replay_folder.specs.inside.Stretch.{AreFilesOf, ClosesTaken, MakesRoomTaken, TellsNext, TellsOne, waiting_file};
ghost use Rattle.replay_folder.specs.declared.names.Named.{Named as PlainNamed};

use crate::at_once::TakenLane;
use crate::closing::{put_round, tell_all};
use crate::drawn_files::DrawnFile;
use crate::hands::both_stops;
use crate::open_round::{
    OpenRound, RoundName, TakenFiles, hold_end, hold_upload, is_short, leave_unread, next_round,
};
use crate::opens::OpensUploads;
use byte_streams::Source;
use lanes_in_turn::MAX_ROUND_LANES;
use page_tree::NoMemory;
use std::alloc::{AllocError, Global};
use upload_lanes::Gathered;
use upload_reader::Upload;

/// The round behind what was taken before, in which no upload waits; and the lanes that were taken of its uploads.
#[derive(Drop)]
struct TakenRound<F: Source> {
    kept: OpenRound<F>,
    own: Gathered<F>,
}

/// Tells these behind a round in which no upload waits. Where memory was refused, those of the later rounds are left unread.
pub(crate) fn tell_files<F: Source + Drop, O: OpensUploads<File = F>>(
    alloc: Global,
    round: OpenRound<F>,
    files: Vec<DrawnFile<F>>,
) -> Result<OpenRound<F>, NoMemory>
    requires none { round.uploads.items ≡ [] }
    ensures told { IfOk result (λ next. (opener : O) (quota : ℕ) (before names : List PlainNamed)
        → AreFilesOf (WasRead F.answers F.remaining) (O.opened opener) quota names files.items
        → IsTaking (WasRead F.answers F.remaining) (O.opened opener) quota before round
        → IsTaking (WasRead F.answers F.remaining) (O.opened opener) quota (before ++ take (length files.items) names) next) }
    ensures few { IfOk result (λ next. length next.uploads.items < max_round_lanes) }
{
    let (front, waits) = split_waiting(files);
    let next = tell_taken::<F, O>(alloc, round, front)?;
    match waits {
        None => Ok(next),
        Some(upload) => hold_waiting(next, upload),
    }
}

// The last one, where it waits.
fn split_waiting<F: Source + Drop>(
    files: Vec<DrawnFile<F>>,
) -> (Vec<DrawnFile<F>>, Option<Upload<F>>)
    ensures { files.items ≡ result.0.items ++ waiting_file result.1 }
{
    let mut files = files;
    match files.pop() {
        None => (files, None),
        Some(last) => match last {
            DrawnFile::Waits(upload) => (files, Some(upload)),
            other => {
                files.push_reserved(other);
                (files, None)
            }
        },
    }
}

// A name more, whose upload waits.
fn hold_waiting<F: Source + Drop>(
    round: OpenRound<F>,
    upload: Upload<F>,
) -> Result<OpenRound<F>, NoMemory>
    requires none { round.uploads.items ≡ [] }
    ensures told { IfOk result (TellsOne round (Ok upload)) }
    ensures few { IfOk result (λ more. length more.uploads.items < max_round_lanes) }
{
    if is_short(round.taken.status) {
        return leave_unread(round);
    }
    hold_upload(round, upload)
}

// None of these waits.
fn tell_taken<F: Source + Drop, O: OpensUploads<File = F>>(
    alloc: Global,
    round: OpenRound<F>,
    files: Vec<DrawnFile<F>>,
) -> Result<OpenRound<F>, NoMemory>
    requires none { round.uploads.items ≡ [] }
    ensures told { IfOk result (λ next. (opener : O) (quota : ℕ) (before names : List PlainNamed)
        → AreFilesOf (WasRead F.answers F.remaining) (O.opened opener) quota names files.items
        → IsTaking (WasRead F.answers F.remaining) (O.opened opener) quota before round
        → IsTaking (WasRead F.answers F.remaining) (O.opened opener) quota (before ++ take (length files.items) names) next) }
    ensures none { IfOk result (λ next. next.uploads.items ≡ []) }
{
    let mut told = TakenRound {
        kept: round,
        own: Gathered::new(alloc),
    };
    for file in files {
        let room = with_room(alloc, told)?;
        told = tell_next(room, file)?;
    }
    Ok(next_round(alloc, close_taken(told)?))
}

// With room for one more: a round that is full is told first.
fn with_room<F: Source + Drop>(
    alloc: Global,
    round: TakenRound<F>,
) -> Result<TakenRound<F>, NoMemory>
    ensures made { IfOk result (MakesRoomTaken (WasRead F.answers F.remaining) round) }
    ensures few { IfOk result (λ room. length room.own.clients.entries < max_round_lanes) }
{
    if round.own.clients.len() < MAX_ROUND_LANES as usize {
        return Ok(round);
    }
    Ok(TakenRound {
        kept: next_round(alloc, close_taken(round)?),
        own: Gathered::new(alloc),
    })
}

// Its names are told, and its logs are put among those of all clients.
fn close_taken<F: Source + Drop>(round: TakenRound<F>) -> Result<TakenFiles<F>, NoMemory>
    ensures { IfOk result (ClosesTaken (WasRead F.answers F.remaining) round) }
{
    let TakenRound { kept, own } = round;
    let OpenRound {
        taken,
        held,
        uploads: _,
    } = kept;
    let TakenFiles {
        gathered,
        ends,
        status,
    } = taken;
    if own.clients.is_empty() {
        let ends = tell_all(&gathered, ends, held)?;
        return Ok(TakenFiles {
            gathered,
            ends,
            status,
        });
    }
    put_round(gathered.clients, ends, held, own)
}

// A name more, of which that was made.
fn tell_next<F: Source + Drop>(
    round: TakenRound<F>,
    file: DrawnFile<F>,
) -> Result<TakenRound<F>, NoMemory>
    requires few { length round.own.clients.entries < max_round_lanes }
    ensures { IfOk result (TellsNext (WasRead F.answers F.remaining) round file) }
{
    let TakenRound { kept, own } = round;
    if is_short(kept.taken.status) {
        return Ok(TakenRound {
            kept: leave_unread(kept)?,
            own,
        });
    }
    match file {
        DrawnFile::Told(end) => Ok(TakenRound {
            kept: hold_end(kept, end)?,
            own,
        }),
        DrawnFile::Taken(taken) => hold_taken(TakenRound { kept, own }, taken),
        DrawnFile::Waits(_) => Err(AllocError),
    }
}

// No client of these comes twice, and none has a log: else this says so by want of memory.
fn hold_taken<F: Source + Drop>(
    round: TakenRound<F>,
    taken: TakenLane<F>,
) -> Result<TakenRound<F>, NoMemory>
    requires few { length round.own.clients.entries < max_round_lanes }
    requires whole { round.kept.taken.status ≡ Done }
    ensures { IfOk result (TellsNext (WasRead F.answers F.remaining) round (Taken taken)) }
{
    let TakenRound { mut kept, mut own } = round;
    let TakenLane { lane, stop } = taken;
    let (client, lane) = lane;
    if kept.taken.gathered.clients.contains_key(&client) || own.clients.contains_key(&client) {
        return Err(AllocError);
    }
    kept.held.push(RoundName::Waits(client.copy()?))?;
    own.clients.insert(client, lane)?;
    own.stop = both_stops(own.stop, stop);
    Ok(TakenRound { kept, own })
}
