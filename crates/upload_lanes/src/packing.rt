//! How the room of a round is shared among the items of a queue and the messages in them.
ghost use Rattle.upload_lanes.specs.inside.Party.{Fits};

use lane_queue::Room;

/// How many messages an item holds at the most. More than so many share little more of what handing over takes.
const MOST: usize = 16;

/// So many places has the queue, for items of so many messages at the most.
pub(crate) struct Packing {
    pub(crate) size: usize,
    pub(crate) places: Room,
}

impl Packing {
    ghost use Rattle.std.specs.Prelude.{◌≤◌};

    /// A small room has items of one message. Beside those in the queue, messages are with an uploader that waits and with the recorder.
    pub(crate) fn of(room: Room) -> Packing
        ensures { Fits room result.places result.size }
    {
        Packing::of_most(room, MOST)
    }

    fn of_most(room: Room, most: usize) -> Packing
        requires most { 1 ≤ most }
        ensures { Fits room result.places result.size }
    {
        let places = (room.items() + 2) / most;
        if places < 16 {
            return Packing {
                size: 1,
                places: room,
            };
        }
        let Ok(places) = Room::new(places - 2) else {
            unreachable!()
        };
        Packing { size: most, places }
    }
}
