use crate::lane_fault::LaneEnd;

/// Why a lane gives nothing more.
#[derive(Clone, Copy, Debug, PartialEq, Eq)]
pub enum Ending {
    Over(LaneEnd),
    /// An allocation was refused.
    GaveUp,
}
