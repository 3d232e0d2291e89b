/// How many lanes a queue has at the most: those of a round (`MAX_ROUND_LANES` of lanes_in_turn), if one recorder takes all.
pub const MAX_LANES: u32 = 16;

/// How many items a queue holds at the most. A place takes memory from the start, and a message may be as long as a line.
pub const MAX_ROOM: usize = 65_536;
