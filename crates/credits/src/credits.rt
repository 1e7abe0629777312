//! The credits of a day.
use crate::amounts::PoolAmounts;

/// The most participants of a day.
pub const PLACES: usize = 48;

/// Who is credited what: the participants' numbers by place, and each one's credit in each pool.
/// Places from the count on are 0.
#[derive(Clone, Copy, Debug, PartialEq, Eq)]
pub struct Credits {
    pub count: usize,
    pub participants: [u32; PLACES],
    pub amounts: [PoolAmounts; PLACES],
}
