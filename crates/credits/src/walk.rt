//! The walk through the hours of a real-time day.
use crate::commitment::Commitment;

/// A real-time day up to an hour: the commitment, and the sums over the hours that have passed, in millicents.
#[derive(Clone, Copy)]
pub(crate) struct Walk {
    pub(crate) commitment: Commitment,
    /// The fees of the periods that have ended.
    pub(crate) fees: u64,
    /// What the eligible hours cost at their offer, less what their energy is worth.
    pub(crate) net: i64,
}
