ghost use Rattle.std.specs.Prelude.{◌≡◌, IfOk, IfErr};
ghost use Rattle.lane_queue.specs.Limits.{IsRoom};
ghost use Rattle.lane_queue.specs.declared.fault.QueueFault.TheVariants.{BadRoom};

use crate::fault::QueueFault;
use crate::limits::MAX_ROOM;
use std::marker::Model;

/// How many items a queue holds at the most: 1 to `MAX_ROOM`.
#[derive(Clone, Copy, Debug)]
pub struct Room {
    items: usize,
}

impl Model for Room {
    ghost use Rattle.std.specs.Prelude.{ℕ};
    ghost use Rattle.lane_queue.specs.Limits.{IsRoom};

    ghost Value = { ℕ };

    ghost view = { λ r. r.items };

    ghost invariant = { λ r. IsRoom r.items };

    ghost inverse = { λ n. record { items = n } };
}

impl Room {
    /// Q2 for another number of items.
    pub fn new(items: usize) -> Result<Room, QueueFault>
        ensures ok { IfOk result (λ room. (room ≡ items) × IsRoom items) }
        ensures refused { IfErr result (λ fault. (fault ≡ BadRoom) × ¬ IsRoom items) }
    {
        if items == 0 || items > MAX_ROOM {
            return Err(QueueFault::BadRoom);
        }
        Ok(Room { items })
    }

    pub fn items(self) -> usize
        ensures items { result ≡ self }
        ensures range { IsRoom result }
    {
        self.items
    }
}
