//! What is kept of an open visit.
ghost use Rattle.std.specs.Prelude.{◌≡◌, None, Some, true, IfOk, IfErr, OnOk, OnErr, MatchBool};

use crate::limits::MAX_EVENTS;
use crate::session_fault::SessionFault;

/// The largest request that its events made, 0 for none, and how many events it has.
#[derive(Clone, Drop)]
pub(crate) struct Counts {
    pub(crate) largest: u64,
    pub(crate) events: u32,
}

impl Counts {
    ghost use Rattle.upload_reader.specs.inside.Counting.{counts_fault, counts_with};

    /// With no event.
    pub(crate) fn new() -> Counts
        ensures { result ≡ record { largest = 0; events = 0 } }
    {
        Counts {
            largest: 0,
            events: 0,
        }
    }

    /// Counts an event that made the request of that number, 0 for none, where it may come next: else S5, S6.
    pub(crate) fn add_next(&mut self, req: u64) -> Result<(), SessionFault>
        ensures ok { IfOk result (λ _. counts_fault self.old req ≡ None) }
        ensures fault { IfErr result (λ fault. counts_fault self.old req ≡ Some fault) }
        ensures added { OnOk result (self.new ≡ counts_with self.old req) }
        ensures same { OnErr result (self.new ≡ self.old) }
    {
        if req != 0 && req - 1 != self.largest {
            return Err(SessionFault::RequestOrder);
        }
        if self.events >= MAX_EVENTS {
            return Err(SessionFault::VisitFull);
        }
        self.largest = self.largest.max(req);
        self.events += 1;
        Ok(())
    }

    /// The same of an event of which it was answered before that it may come next. Whether it was counted: there is room for any such one.
    pub(crate) fn add_told(&mut self, req: u64) -> bool
        ensures counted { MatchBool result (self.new ≡ counts_with self.old req) (self.new ≡ self.old) }
        ensures room { counts_fault self.old req ≡ None → result ≡ true }
    {
        let has_room = self.events < MAX_EVENTS;
        if has_room {
            self.largest = self.largest.max(req);
            self.events += 1;
        }
        has_room
    }
}
