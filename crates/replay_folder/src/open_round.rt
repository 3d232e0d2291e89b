//! The round that is open: uploads that wait until it is taken, and what became of the names among them.
ghost use Rattle.std.specs.Prelude.{◌≡◌, [], Ok, Err, false, bytes_eq, IfOk};
ghost use Rattle.std.specs.List.{list_any};
ghost use Rattle.lanes_in_turn.specs.declared.gathered.Stop.TheVariants.{None};
ghost use Rattle.warp_run.specs.declared.status.Status.TheVariants.{Done};
ghost use Rattle.replay_folder.specs.declared.ends.UploadEnd.TheVariants.{Unopened};
ghost use Rattle.replay_folder.specs.inside.{Holds, LeavesUnread, is_short};

use crate::ends::UploadEnd;
use byte_streams::Source;
use page_tree::NoMemory;
use std::alloc::Global;
use upload_lanes::Gathered;
use upload_reader::{Client, Upload};
use warp_run::Status;

/// What was taken of uploads, and what became of each.
#[derive(Drop)]
pub(crate) struct TakenFiles<R: Source> {
    /// The logs of all clients. What the last round took of each is told by the ends.
    pub(crate) gathered: Gathered<R>,
    pub(crate) ends: Vec<UploadEnd>,
    /// How the taking ended by the last round: whether memory was refused.
    pub(crate) status: Status,
}

/// A name of the round.
#[derive(Drop)]
pub(crate) enum RoundName {
    /// What became of it.
    Told(UploadEnd),
    /// Its upload, which is of that client, waits.
    Waits(Client),
}

/// What was taken before, and the round behind that.
#[derive(Drop)]
pub(crate) struct OpenRound<R: Source> {
    pub(crate) taken: TakenFiles<R>,
    pub(crate) held: Vec<RoundName>,
    pub(crate) uploads: Vec<Upload<R>>,
}

/// Before the first name. It takes no memory.
pub(crate) fn first_round<R: Source + Drop>(alloc: Global) -> OpenRound<R>
    ensures clients { result.taken.gathered.clients.entries ≡ [] }
    ensures stop { result.taken.gathered.stop ≡ None }
    ensures ends { result.taken.ends.items ≡ [] }
    ensures status { result.taken.status ≡ Done }
    ensures held { result.held.items ≡ [] }
    ensures uploads { result.uploads.items ≡ [] }
{
    let taken = TakenFiles {
        gathered: Gathered::new(alloc),
        ends: Vec::new(alloc),
        status: Status::Done,
    };
    next_round(alloc, taken)
}

/// Nothing waits yet. It takes no memory.
pub(crate) fn next_round<R: Source + Drop>(alloc: Global, taken: TakenFiles<R>) -> OpenRound<R>
    ensures taken { result.taken ≡ taken }
    ensures held { result.held.items ≡ [] }
    ensures uploads { result.uploads.items ≡ [] }
{
    OpenRound {
        taken,
        held: Vec::new(alloc),
        uploads: Vec::new(alloc),
    }
}

/// Whether memory was refused, where the taking of uploads ended so.
pub(crate) fn is_short(status: Status) -> bool
    ensures { result ≡ is_short status }
{
    match status {
        Status::Done => false,
        _ => true,
    }
}

/// Whether a file of which that became may yet be opened: once the uploads of the round are let go, where there are any.
pub(crate) fn may_open_alone<R: Source>(uploads: &[Upload<R>], end: &UploadEnd) -> bool
    ensures { result ≡ false → end.now ≡ Unopened → uploads.now ≡ [] }
{
    match end {
        UploadEnd::Unopened => !uploads.is_empty(),
        UploadEnd::NoHello(_) => false,
        UploadEnd::Taken { .. } => false,
        UploadEnd::Unread => false,
    }
}

/// A name more, of which that became.
pub(crate) fn hold_end<R: Source + Drop>(
    round: OpenRound<R>,
    end: UploadEnd,
) -> Result<OpenRound<R>, NoMemory>
    ensures { IfOk result (Holds round (Err end)) }
{
    let mut round = round;
    round.held.push(RoundName::Told(end))?;
    Ok(round)
}

/// A name more, whose upload waits.
pub(crate) fn hold_upload<R: Source + Drop>(
    round: OpenRound<R>,
    upload: Upload<R>,
) -> Result<OpenRound<R>, NoMemory>
    ensures { IfOk result (Holds round (Ok upload)) }
{
    let mut round = round;
    let client = upload.client().copy()?;
    round.held.push(RoundName::Waits(client))?;
    round.uploads.push(upload)?;
    Ok(round)
}

/// A name more, behind a round in which memory was refused. Nothing is read of it.
pub(crate) fn leave_unread<R: Source + Drop>(round: OpenRound<R>) -> Result<OpenRound<R>, NoMemory>
    ensures { IfOk result (LeavesUnread round) }
{
    let mut round = round;
    round.taken.ends.push(UploadEnd::Unread)?;
    Ok(round)
}

/// Whether one of these uploads is of that client.
pub(crate) fn has_client<R: Source>(uploads: &[Upload<R>], client: &Client) -> bool
    ensures { result ≡ list_any (λ upload. bytes_eq client.now upload.client) uploads.now }
{
    uploads.iter().any(|upload| client == upload.client())
}
