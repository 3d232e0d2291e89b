//! What threads make of the names that they draw. Each draws a name, takes its upload to its end, lets go of its file, and draws the next. There are more threads
//! than processors: where one has to wait for its processor, the others draw more.
ghost use Rattle.std.specs.Prelude.{◌≤◌, length, IfOk};
ghost use Rattle.std.specs.List.{AllByRecursion};
ghost use Rattle.byte_streams.specs.Reading.{WasRead};
ghost use Rattle.upload_reader.specs.Upload.{IsUntouched};
ghost use Rattle.shared_stock.specs.Slots.{AreMade};
ghost use Rattle.warp_server.specs.program.Callers.{IsGreeted};
ghost use Rattle.replay_folder.specs.inside.Stretch.{AreFilesOf, IsFileBy, IsFileOf, IsTakenFirst};

use crate::at_once::{TakenLane, take_lane};
use crate::drawing::{Drawing, DrawnName};
use crate::ends::UploadEnd;
use crate::met_clients::MetClients;
use crate::names::Named;
use crate::opens::{OpensUploads, Watches};
use crate::own_lanes::{first_lane, without_reader};
use byte_streams::Source;
use client_log::Quota;
use lanes_in_turn::Stop;
use page_tree::NoMemory;
use shared_stock::{Made, in_order};
use std::sync::{Mutex, Wait};
use std::thread;
use std::thread::Threads;
use upload_reader::Upload;

/// What a thread made of a name.
#[derive(Drop)]
pub(crate) enum DrawnFile<F: Source> {
    /// What became of it.
    Told(UploadEnd),
    /// Its upload, the first of its client, was taken, and its source let go.
    Taken(TakenLane<F>),
    /// Its upload has to wait for another of its client.
    Waits(Upload<F>),
}

/// What threads make of these names, the last of so many, in their order: of all, or of some at their front.
pub(crate) fn draw_files<
    F: Source + Drop + Send,
    O: OpensUploads<File = F> + Sync,
    P: Watches + Send,
    T: AllocGlobal + Threads + Wait + Sync,
>(
    rt: &T,
    threads: usize,
    opener: &O,
    watcher: &mut P,
    names: &[Named],
    of: usize,
    quota: Quota,
    met: &mut MetClients,
) -> Result<Vec<DrawnFile<F>>, NoMemory>
    ensures files { IfOk result (λ files.
        AreFilesOf (WasRead F.answers F.remaining) (O.opened opener.now) quota names.now files.items) }
    ensures count { IfOk result (λ files. length files.items ≤ length names.now) }
{
    let drawing = Mutex::new(Drawing::new(of, met, watcher));
    let shares = draw_shares(rt, threads, &drawing, opener, names, quota)?;
    let count = drawing.into_inner().count().min(names.len());
    in_order(rt.alloc(), shares, count)
}

// What each thread makes.
fn draw_shares<
    F: Source + Drop + Send,
    O: OpensUploads<File = F> + Sync,
    P: Watches + Send,
    T: AllocGlobal + Threads + Wait + Sync,
>(
    rt: &T,
    threads: usize,
    drawing: &Mutex<Drawing<'_, P>>,
    opener: &O,
    names: &[Named],
    quota: Quota,
) -> Result<Vec<Result<Vec<Made<DrawnFile<F>>>, NoMemory>>, NoMemory>
    ensures { IfOk result (λ shares. AllByRecursion (λ share. IfOk share (λ made.
        AreMade (IsFileOf (WasRead F.answers F.remaining) (O.opened opener.now) quota names.now) made.items)) shares.items) }
{
    thread::map_indices(
        rt,
        rt.alloc(),
        threads.min(names.len()),
        &|_thread| -> Result<Vec<Made<DrawnFile<F>>>, NoMemory>
            ensures { IfOk result (λ made.
                AreMade (IsFileOf (WasRead F.answers F.remaining) (O.opened opener.entry.now) quota names.entry.now)
                made.items) }
        { share_of(rt, drawing, opener, names, quota) },
    )
}

// What one thread makes. Where it is refused memory, none draws any more.
fn share_of<F: Source + Drop, O: OpensUploads<File = F>, P: Watches, T: AllocGlobal + Wait>(
    rt: &T,
    drawing: &Mutex<Drawing<'_, P>>,
    opener: &O,
    names: &[Named],
    quota: Quota,
) -> Result<Vec<Made<DrawnFile<F>>>, NoMemory>
    ensures { IfOk result (λ made.
        AreMade (IsFileOf (WasRead F.answers F.remaining) (O.opened opener.now) quota names.now) made.items) }
{
    let share = drawn_share(rt, drawing, opener, names, quota);
    if share.is_err() {
        drawing.lock(rt).end();
    }
    share
}

fn drawn_share<F: Source + Drop, O: OpensUploads<File = F>, P: Watches, T: AllocGlobal + Wait>(
    rt: &T,
    drawing: &Mutex<Drawing<'_, P>>,
    opener: &O,
    names: &[Named],
    quota: Quota,
) -> Result<Vec<Made<DrawnFile<F>>>, NoMemory>
    ensures { IfOk result (λ made.
        AreMade (IsFileOf (WasRead F.answers F.remaining) (O.opened opener.now) quota names.now) made.items) }
{
    let mut share = Vec::new(rt.alloc());
    for _k in 0..names.len() {
        let Ok(()) = share.reserve(1) else {
            drawing.lock(rt).end();
            break;
        };
        let Some(drawn) = drawing.lock(rt).draw(rt.alloc(), opener, names) else {
            break;
        };
        let DrawnName {
            number,
            said,
            is_new,
        } = drawn;
        let one = take_drawn(rt, quota, said, is_new)?;
        if was_refused(&one) {
            drawing.lock(rt).end();
        }
        share.push_reserved(Made { number, one });
    }
    Ok(share)
}

fn take_drawn<F: Source + Drop, T: AllocGlobal + Wait>(
    rt: &T,
    quota: Quota,
    said: Result<Upload<F>, UploadEnd>,
    is_new: bool,
) -> Result<DrawnFile<F>, NoMemory>
    requires { IfOk said IsGreeted }
    ensures { IfOk result (IsFileBy (WasRead F.answers F.remaining) quota said) }
{
    match said {
        Err(end) => Ok(DrawnFile::Told(end)),
        Ok(upload) => if is_new {
            Ok(DrawnFile::Taken(take_first(rt, quota, upload)?))
        } else {
            Ok(DrawnFile::Waits(upload))
        },
    }
}

// The first upload of a client, to its end.
fn take_first<F: Source + Drop, T: AllocGlobal + Wait>(
    rt: &T,
    quota: Quota,
    upload: Upload<F>,
) -> Result<TakenLane<F>, NoMemory>
    requires { IsUntouched upload }
    ensures { IfOk result (IsTakenFirst (WasRead F.answers F.remaining) quota upload) }
{
    let fresh = first_lane(rt.alloc(), upload, quota)?;
    let TakenLane { lane, stop } = take_lane(rt.alloc(), rt, fresh);
    let (client, lane) = lane;
    Ok(TakenLane {
        lane: (client, without_reader(lane)),
        stop,
    })
}

// Memory was refused while messages were taken.
fn was_refused<F: Source>(file: &DrawnFile<F>) -> bool {
    match file {
        DrawnFile::Told(_) => false,
        DrawnFile::Taken(taken) => match taken.stop {
            Stop::Memory => true,
            Stop::None => false,
            Stop::Asked => false,
        },
        DrawnFile::Waits(_) => false,
    }
}
