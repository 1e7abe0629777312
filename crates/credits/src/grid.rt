//! A Resource's hourly allocation.
use crate::amounts::PoolAmounts;

/// The cents of each hour in each pool, before they are divided over owners; hour 1 first.
#[derive(Clone, Copy, Debug, PartialEq, Eq)]
pub struct Grid {
    pub hours: [PoolAmounts; 24],
}
