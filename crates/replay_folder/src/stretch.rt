//! A stretch of names, whose files are taken by threads that don't wait for one another: each is the first of its client.
ghost use Rattle.std.specs.Prelude.{◌≡◌, ◌<◌, ◌≤◌, List, [], ◌++◌, length, take, true, IfOk};
ghost use Rattle.byte_streams.specs.Reading.{WasRead};
ghost use Rattle.lanes_in_turn.specs.Round.{max_round_lanes};
ghost use Rattle.replay_folder.specs.inside.{IsTaking};
ghost use Rattle.replay_folder.specs.declared.names.Named.{Named as PlainNamed};

use crate::drawn_files::draw_files;
use crate::met_clients::MetClients;
use crate::names::Named;
use crate::open_round::{OpenRound, is_short};
use crate::opens::{OpensUploads, Watches};
use crate::taken_round::tell_files;
use byte_streams::Source;
use client_log::Quota;
use page_tree::NoMemory;
use std::alloc::Global;
use std::sync::Wait;
use std::thread::Threads;

/// The most threads of a stretch, the one that calls among them.
const MAX_THREADS: usize = 8;

/// What the stretches before leave for the next one.
#[derive(Drop)]
pub(crate) struct Stretches {
    met: MetClients,
    // how many names the last one had, as far as that is known
    last: usize,
}

impl Stretches {
    /// Before the first one. It takes no memory.
    pub(crate) fn new(alloc: Global) -> Stretches {
        Stretches {
            met: MetClients::new(alloc),
            last: MAX_THREADS,
        }
    }

    // As many threads as the last one had names: where clients come again and again, a stretch is short.
    fn threads(&self) -> usize {
        self.last.clamp(2, MAX_THREADS)
    }
}

/// Whether a stretch may begin behind this round, of so many names.
pub(crate) fn may_begin<F: Source>(round: &OpenRound<F>, names: usize) -> bool
    ensures { result ≡ true → round.now.uploads.items ≡ [] }
{
    names > 1 && round.uploads.is_empty() && !is_short(round.taken.status)
}

/// Takes a stretch of these names, the last of so many: what is behind it, and how many names it had.
pub(crate) fn take_stretch<
    F: Source + Drop + Send,
    O: OpensUploads<File = F> + Sync,
    P: Watches + Send,
    T: AllocGlobal + Threads + Wait + Sync,
>(
    rt: &T,
    opener: &O,
    watcher: &mut P,
    names: &[Named],
    of: usize,
    quota: Quota,
    round: OpenRound<F>,
    stretches: &mut Stretches,
) -> Result<(OpenRound<F>, usize), NoMemory>
    requires none { round.uploads.items ≡ [] }
    ensures taken { IfOk result (λ more. (before : List PlainNamed)
        → IsTaking (WasRead F.answers F.remaining) (O.opened opener.now) quota before round
        → IsTaking (WasRead F.answers F.remaining) (O.opened opener.now) quota (before ++ take more.1 names.now) more.0) }
    ensures count { IfOk result (λ more. more.1 ≤ length names.now) }
    ensures few { IfOk result (λ more. length more.0.uploads.items < max_round_lanes) }
{
    let threads = stretches.threads();
    stretches.met.meet_all(&round.taken.gathered.clients)?;
    let files = draw_files(
        rt,
        threads,
        opener,
        watcher,
        names,
        of,
        quota,
        &mut stretches.met,
    )?;
    let count = files.len();
    stretches.last = count;
    Ok((tell_files::<F, O>(rt.alloc(), round, files)?, count))
}
