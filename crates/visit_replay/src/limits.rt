/// By how many workers visits are replayed at the most. Each has a thread, but the first.
pub const MAX_WORKERS: u32 = 32;
