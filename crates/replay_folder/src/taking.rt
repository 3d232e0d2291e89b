//! Uploads are taken to their ends, round by round.
ghost use Rattle.std.specs.Prelude.{◌≡◌, ◌<◌, ◌≤◌, ℕ, List, [], ◌∷◌, ◌++◌, ◌⊎◌, length, bytes_eq, false, IfOk};
ghost use Rattle.std.specs.List.{list_any};
ghost use Rattle.byte_streams.specs.Reading.{WasRead};
ghost use Rattle.lanes_in_turn.specs.Round.{max_round_lanes};
ghost use Rattle.warp_run.specs.declared.status.Status.TheVariants.{Done};
ghost use Rattle.replay_folder.specs.inside.{AreReady, AreHeld, MakesRoom, IsTaking, IsUpTo, HasTakenSoFar};
ghost use Rattle.replay_folder.specs.declared.names.Named.{Named as PlainNamed};

use crate::closing::close_round;
use crate::greeting::greet_named;
use crate::hands::has_processors;
use crate::names::Named;
use crate::open_round::{
    OpenRound, TakenFiles, first_round, has_client, hold_end, hold_upload, is_short, leave_unread,
    may_open_alone, next_round,
};
use crate::opens::{OpensUploads, Watches};
use crate::stretch::{Stretches, may_begin, take_stretch};
use byte_streams::Source;
use client_log::Quota;
use lanes_in_turn::MAX_ROUND_LANES;
use page_tree::NoMemory;
use std::alloc::Global;
use std::sync::Wait;
use std::thread::Threads;
use upload_reader::Client;

/// What was taken of the names before that one.
#[derive(Drop)]
struct TakenUpTo<F: Source> {
    round: OpenRound<F>,
    next: usize,
}

/// Takes the uploads of these names in their order, each behind what its client uploaded before, those that follow one another at once as far as a round holds
/// them. Where memory is refused while messages are taken, the rest is left unread.
pub(crate) fn take_files<
    F: Source + Drop + Send,
    O: OpensUploads<File = F> + Sync,
    P: Watches + Send,
    T: AllocGlobal + Threads + Wait + Sync,
>(
    rt: &T,
    opener: &O,
    watcher: &mut P,
    named: &[Named],
    quota: Quota,
) -> Result<TakenFiles<F>, NoMemory>
    ensures { IfOk result (HasTakenSoFar (WasRead F.answers F.remaining) (O.opened opener.now) quota named.now) }
{
    let at_once = has_processors(rt);
    let mut stretches = Stretches::new(rt.alloc());
    let mut taken = TakenUpTo {
        round: first_round(rt.alloc()),
        next: 0,
    };
    while taken.next < named.len() {
        let from = taken.next;
        let ahead = take_ahead(
            rt,
            at_once,
            opener,
            watcher,
            named,
            quota,
            taken,
            &mut stretches,
        )?;
        taken = take_one(rt, at_once, opener, watcher, named, quota, from, ahead)?;
    }
    close_round(rt, at_once, quota, taken.round)
}

// A stretch, where one may begin.
fn take_ahead<
    F: Source + Drop + Send,
    O: OpensUploads<File = F> + Sync,
    P: Watches + Send,
    T: AllocGlobal + Threads + Wait + Sync,
>(
    rt: &T,
    at_once: bool,
    opener: &O,
    watcher: &mut P,
    named: &[Named],
    quota: Quota,
    taken: TakenUpTo<F>,
    stretches: &mut Stretches,
) -> Result<TakenUpTo<F>, NoMemory>
    requires { IsUpTo (WasRead F.answers F.remaining) (O.opened opener.now) quota named.now taken }
    ensures behind { IfOk result (IsUpTo (WasRead F.answers F.remaining) (O.opened opener.now) quota named.now) }
    ensures next { IfOk result (λ more. taken.next ≤ more.next) }
{
    let TakenUpTo { round, next } = taken;
    let names = &named[next..];
    if !at_once || !may_begin(&round, names.len()) {
        return Ok(TakenUpTo { round, next });
    }
    let (round, count) = take_stretch(
        rt,
        opener,
        watcher,
        names,
        named.len(),
        quota,
        round,
        stretches,
    )?;
    Ok(TakenUpTo {
        round,
        next: next + count,
    })
}

// The next name, unless some were taken from that one on.
fn take_one<
    F: Source + Drop + Send,
    O: OpensUploads<File = F>,
    P: Watches,
    T: AllocGlobal + Threads + Wait + Sync,
>(
    rt: &T,
    at_once: bool,
    opener: &O,
    watcher: &mut P,
    named: &[Named],
    quota: Quota,
    from: usize,
    taken: TakenUpTo<F>,
) -> Result<TakenUpTo<F>, NoMemory>
    requires upto { IsUpTo (WasRead F.answers F.remaining) (O.opened opener.now) quota named.now taken }
    requires from { (from ≤ taken.next) × (from < length named.now) }
    ensures behind { IfOk result (IsUpTo (WasRead F.answers F.remaining) (O.opened opener.now) quota named.now) }
    ensures next { IfOk result (λ more. from < more.next) }
{
    let TakenUpTo { round, next } = taken;
    if next > from {
        return Ok(TakenUpTo { round, next });
    }
    watcher.tell(round.taken.ends.len(), named.len());
    let more = take_named(rt, at_once, opener, &named[next], quota, round)?;
    Ok(TakenUpTo {
        round: close_full(rt, at_once, quota, more)?,
        next: next + 1,
    })
}

// One more. Where it can't be opened beside the uploads of the round, or memory is refused for it, these are taken first, and it is tried once more.
fn take_named<
    F: Source + Drop + Send,
    O: OpensUploads<File = F>,
    T: AllocGlobal + Threads + Wait + Sync,
>(
    rt: &T,
    at_once: bool,
    opener: &O,
    named: &Named,
    quota: Quota,
    round: OpenRound<F>,
) -> Result<OpenRound<F>, NoMemory>
    requires ready { AreReady round.uploads.items }
    requires held { AreHeld round }
    requires few { length round.uploads.items < max_round_lanes }
    ensures { IfOk result (λ more. (before : List PlainNamed)
        → IsTaking (WasRead F.answers F.remaining) (O.opened opener.now) quota before round
        → IsTaking (WasRead F.answers F.remaining) (O.opened opener.now) quota (before ++ named.now ∷ []) more) }
{
    if is_short(round.taken.status) {
        return leave_unread(round);
    }
    let Ok(said) = greet_named(rt.alloc(), opener, named) else {
        return take_behind(rt, at_once, opener, named, quota, round);
    };
    match said {
        Err(end) => if may_open_alone(round.uploads.as_slice(), &end) {
            take_behind(rt, at_once, opener, named, quota, round)
        } else {
            hold_end(round, end)
        },
        Ok(upload) => {
            let round = make_room(rt, at_once, quota, round, upload.client())?;
            if is_short(round.taken.status) {
                leave_unread(round)
            } else {
                hold_upload(round, upload)
            }
        }
    }
}

// One more, when the uploads of the round are taken.
fn take_behind<
    F: Source + Drop + Send,
    O: OpensUploads<File = F>,
    T: AllocGlobal + Threads + Wait + Sync,
>(
    rt: &T,
    at_once: bool,
    opener: &O,
    named: &Named,
    quota: Quota,
    round: OpenRound<F>,
) -> Result<OpenRound<F>, NoMemory>
    requires ready { AreReady round.uploads.items }
    requires held { AreHeld round }
    requires whole { round.taken.status ≡ Done }
    ensures { IfOk result (λ more. (before : List PlainNamed)
        → IsTaking (WasRead F.answers F.remaining) (O.opened opener.now) quota before round
        → IsTaking (WasRead F.answers F.remaining) (O.opened opener.now) quota (before ++ named.now ∷ []) more) }
{
    let next = open_next(rt, at_once, quota, round)?;
    take_alone(rt.alloc(), opener, named, next)
}

// One more, where no upload is open.
fn take_alone<F: Source + Drop, O: OpensUploads<File = F>>(
    alloc: Global,
    opener: &O,
    named: &Named,
    round: OpenRound<F>,
) -> Result<OpenRound<F>, NoMemory>
    requires none { round.uploads.items ≡ [] }
    ensures { IfOk result (λ more. (quota : ℕ) (before : List PlainNamed)
        → IsTaking (WasRead F.answers F.remaining) (O.opened opener.now) quota before round
        → IsTaking (WasRead F.answers F.remaining) (O.opened opener.now) quota (before ++ named.now ∷ []) more) }
{
    if is_short(round.taken.status) {
        return leave_unread(round);
    }
    match greet_named(alloc, opener, named)? {
        Err(end) => hold_end(round, end),
        Ok(upload) => hold_upload(round, upload),
    }
}

// Without an upload of that client: a round that has one is taken first.
fn make_room<F: Source + Drop + Send, T: AllocGlobal + Threads + Wait + Sync>(
    rt: &T,
    at_once: bool,
    quota: Quota,
    round: OpenRound<F>,
    client: &Client,
) -> Result<OpenRound<F>, NoMemory>
    requires ready { AreReady round.uploads.items }
    requires few { length round.uploads.items < max_round_lanes }
    requires held { AreHeld round }
    requires whole { round.taken.status ≡ Done }
    ensures made { IfOk result (MakesRoom (WasRead F.answers F.remaining) quota round) }
    ensures few { IfOk result (λ more. length more.uploads.items < max_round_lanes) }
    ensures apart { IfOk result (λ more.
        list_any (λ upload. bytes_eq client.now upload.client) more.uploads.items ≡ false) }
{
    if has_client(round.uploads.as_slice(), client) {
        return open_next(rt, at_once, quota, round);
    }
    Ok(round)
}

// With room for one more: a round that is full is taken first.
fn close_full<F: Source + Drop + Send, T: AllocGlobal + Threads + Wait + Sync>(
    rt: &T,
    at_once: bool,
    quota: Quota,
    round: OpenRound<F>,
) -> Result<OpenRound<F>, NoMemory>
    requires ready { AreReady round.uploads.items }
    requires held { AreHeld round }
    requires whole { (round.taken.status ≡ Done) ⊎ (round.uploads.items ≡ []) }
    ensures made { IfOk result (MakesRoom (WasRead F.answers F.remaining) quota round) }
    ensures few { IfOk result (λ more. length more.uploads.items < max_round_lanes) }
{
    if round.uploads.len() >= MAX_ROUND_LANES as usize {
        return open_next(rt, at_once, quota, round);
    }
    Ok(round)
}

// Takes the round; the next one is empty.
fn open_next<F: Source + Drop + Send, T: AllocGlobal + Threads + Wait + Sync>(
    rt: &T,
    at_once: bool,
    quota: Quota,
    round: OpenRound<F>,
) -> Result<OpenRound<F>, NoMemory>
    requires ready { AreReady round.uploads.items }
    requires held { AreHeld round }
    requires whole { (round.taken.status ≡ Done) ⊎ (round.uploads.items ≡ []) }
    ensures made { IfOk result (MakesRoom (WasRead F.answers F.remaining) quota round) }
    ensures empty { IfOk result (λ next. next.uploads.items ≡ []) }
{
    let taken = close_round(rt, at_once, quota, round)?;
    Ok(next_round(rt.alloc(), taken))
}
