//! How far the requests of a trail were told.

/// None yet, the load, or what the deed at that place asks for.
#[derive(Clone, Copy)]
pub(crate) enum Stage {
    Before,
    AtLoad,
    AtDeed(usize),
}
