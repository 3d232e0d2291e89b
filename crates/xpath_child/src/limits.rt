use page_tree::MAX_DEPTH;

/// How many steps a path has at the most: as many as a page has levels of elements, since each step goes down by one.
pub const MAX_STEPS: usize = MAX_DEPTH as usize;

/// How many digits an index has at the most, so that it has 32 bits.
pub const MAX_INDEX_DIGITS: usize = 9;
