/// How many reads one `Lines` makes at the most: 8 GiB of whole ones, so that the bytes which they give are counted in 64 bits.
pub const MAX_READS: u32 = 1_048_576;

/// How many bytes each of these reads is offered: what a `Lines` keeps beside the line that it cuts.
pub const READ_BYTES: usize = 8_192;
