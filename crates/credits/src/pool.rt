//! The pools in which costs collect, 1 to 21.
ghost use Rattle.std.specs.Prelude.{◌≡◌, ◌≤◌};
ghost use Rattle.credits.specs.Pools.{pool_of};

use crate::amounts::Pool;
use dayfile::Flag;

/// A market: the day before, or the day itself.
#[derive(Clone, Copy, Debug, PartialEq, Eq)]
pub enum Market {
    DayAhead,
    RealTime,
}

impl Market {
    /// The pool of an hour by its flag and the Resource's region: 1 day-ahead economic, 2 day-ahead voltage support,
    /// 3 real-time economic, 4 real-time SCR, 5 real-time voltage support, 6 to 13 day-ahead and 14 to 21 real-time LSCPR.
    pub(crate) fn pool(self, flag: Flag, region: u8) -> Pool
        requires { (1 ≤ region) × (region ≤ 8) }
        ensures { result.number ≡ pool_of self flag region }
    {
        let region = usize::from(region);
        let number = match (self, flag) {
            // no admitted day has SCR day-ahead
            (Market::DayAhead, Flag::Economic | Flag::Scr) => 1,
            (Market::DayAhead, Flag::Var) => 2,
            (Market::DayAhead, Flag::Lscpr) => 5 + region,
            (Market::RealTime, Flag::Economic) => 3,
            (Market::RealTime, Flag::Scr) => 4,
            (Market::RealTime, Flag::Var) => 5,
            (Market::RealTime, Flag::Lscpr) => 13 + region,
        };
        Pool { number }
    }
}
