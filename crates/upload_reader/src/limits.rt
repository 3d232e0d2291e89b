/// The longest line of an upload, in bytes, without its line end. A message's cost, which is at most that, is a `u32`.
pub const MAX_LINE_BYTES: usize = 65_536;

/// The most messages that a lane gives. They are counted in a `u32`.
pub const MAX_MESSAGES: u32 = 1_000_000;

/// The most visits of a client that are open at a time. A session keeps two numbers of each.
pub const MAX_OPEN: usize = 256;

/// The most events of a visit. They are counted in a `u32`.
pub const MAX_EVENTS: u32 = 10_000;

/// The greatest number in a message: the greatest that a browser's own numbers tell from the next.
pub const MAX_NUMBER: u64 = 9_007_199_254_740_991;

/// The longest name of a client, in bytes. Names are copied and compared whole.
pub const MAX_CLIENT_BYTES: usize = 64;
