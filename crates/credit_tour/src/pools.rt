//! The pools in which hours collect.
use credits::Market;
use dayfile::Flag;

/// The number of an hour's pool, by its flag and the Resource's region.
pub fn pool_of(market: Market, flag: Flag, region: u8) -> usize {
    let region = usize::from(region);
    match (market, flag) {
        // no admitted day has SCR day-ahead
        (Market::DayAhead, Flag::Economic | Flag::Scr) => 1,
        (Market::DayAhead, Flag::Var) => 2,
        (Market::DayAhead, Flag::Lscpr) => 5 + region,
        (Market::RealTime, Flag::Economic) => 3,
        (Market::RealTime, Flag::Scr) => 4,
        (Market::RealTime, Flag::Var) => 5,
        (Market::RealTime, Flag::Lscpr) => 13 + region,
    }
}
