//! Lanes of a round.
ghost use Rattle.std.specs.Prelude.{ℕ, ◌≡◌, ◌+◌, true, false, is_some, OnOk, OnErr};
ghost use Rattle.upload_reader.specs.Upload.{UploadState};
ghost use Rattle.client_log.specs.Client.{OfClient};
ghost use Rattle.lanes_in_turn.specs.Round.{IsTakenInTurn, have_ended, without_lane};
ghost use Rattle.lanes_in_turn.specs.Taking.{items_in};
ghost use Rattle.lanes_in_turn.specs.inside.{HasFewTaken, IsTogether};

use crate::gathered::LaneResult;
use byte_streams::Source;
use page_tree::NoMemory;
use upload_reader::{Client, Ending, Next};

/// Whether each of these lanes has an end.
pub fn have_ended<R: Source + Drop>(lanes: &[(Client, LaneResult<R>)]) -> bool
    ensures { result ≡ have_ended lanes.now }
{
    lanes.iter().all(|lane| lane.1.end.is_some())
}

impl<R: Source + Drop> LaneResult<R> {
    // Takes the next of the lane, unless that has an end.
    pub(crate) fn take_next(&mut self) -> Result<(), NoMemory>
        requires few { HasFewTaken self.old }
        requires together { IsTogether self.old }
        ensures few { HasFewTaken self.new }
        ensures together { OnOk result (IsTogether self.new) }
        ensures goes { (before : OfClient) (begun : UploadState R) (asked : ℕ)
            → IsTakenInTurn before begun asked 0 self.old
            → OnOk result (IsTakenInTurn before begun (asked + 1) 0 self.new) }
        ensures refused { (before : OfClient) (begun : UploadState R) (asked : ℕ)
            → IsTakenInTurn before begun asked 0 self.old
            → OnErr result (IsTakenInTurn before begun asked 1 self.new) }
        ensures count { is_some self.old.upload ≡ true → is_some self.old.end ≡ false
            → OnOk result (items_in self.new ≡ items_in self.old + 1) }
        ensures same { OnErr result ((self.new.taken ≡ self.old.taken) × (self.new.end ≡ self.old.end)) }
    {
        if self.end.is_some() {
            return Ok(());
        }
        let Some(upload) = &mut self.upload else {
            return Ok(());
        };
        match upload.next() {
            Next::Got(message, cost) => {
                self.log.record_next(message, cost)?;
                self.taken += 1;
            }
            Next::Over(end) => self.end = Some(Ending::Over(end)),
            Next::GaveUp => self.end = Some(Ending::GaveUp),
        }
        Ok(())
    }

    // What a round without this client leaves of its lane.
    pub(crate) fn rest(&mut self)
        ensures { self.new ≡ without_lane self.old }
    {
        self.taken = 0;
        self.end = None;
        self.upload = None;
    }
}
