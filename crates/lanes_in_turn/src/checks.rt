//! Whether there may be a round of these lanes.
ghost use Rattle.std.specs.Prelude.{◌≡◌, ◌≢◌, bytes_eq, IfErr, OnOk};
ghost use Rattle.std.specs.List.{list_any};
ghost use Rattle.lanes_in_turn.specs.Round.{IsRound, IsNoRound, has_twice, clients_of};
ghost use Rattle.lanes_in_turn.specs.declared.fault.GatherFault.TheVariants.{NoMemory};

use crate::fault::GatherFault;
use crate::limits::MAX_ROUND_LANES;
use byte_streams::Source;
use upload_reader::{Client, Upload};

/// `G1` and `G2`, in this order.
pub(crate) fn check_round<R: Source>(uploads: &[Upload<R>]) -> Result<(), GatherFault>
    ensures ok { OnOk result (IsRound uploads.now) }
    ensures refused { IfErr result (λ fault. (fault ≢ NoMemory) × IsNoRound uploads.now fault) }
{
    if uploads.is_empty() || uploads.len() > MAX_ROUND_LANES as usize {
        return Err(GatherFault::BadLanes);
    }
    if has_twice(uploads) {
        return Err(GatherFault::DuplicateClient);
    }
    Ok(())
}

// Whether two of these uploads are of one client. It compares each with each: a round has 16 at most.
fn has_twice<R: Source>(uploads: &[Upload<R>]) -> bool
    ensures { result ≡ has_twice (clients_of uploads.now) }
{
    let mut rest = uploads;
    while let Some((first, others)) = rest.split_first() {
        if is_among(first.client(), others) {
            return true;
        }
        rest = others;
    }
    false
}

fn is_among<R: Source>(client: &Client, uploads: &[Upload<R>]) -> bool
    ensures { result ≡ list_any (λ upload. bytes_eq client.now upload.client) uploads.now }
{
    uploads.iter().any(|upload| client == upload.client())
}
