/// How many lanes a round has at the most. Each has a thread of its own where lanes are taken at once.
pub const MAX_ROUND_LANES: u32 = 16;
