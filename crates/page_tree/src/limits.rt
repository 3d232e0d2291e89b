/// How many levels of elements a page has at the most. The root is on level 1. Each takes two of the 127 levels of JSON
/// that are read, and one step of a path (`MAX_STEPS` of xpath_child).
pub const MAX_DEPTH: u32 = 48;

/// How many nodes a page has at the most, elements and texts. A page keeps their numbers in 16 bits.
pub const MAX_NODES: u32 = 4096;

/// How many bytes the name of an element has at the most. A path keeps where its steps stand in 16 bits.
pub const MAX_NAME_BYTES: usize = 64;
