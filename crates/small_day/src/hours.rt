//! A Resource's day-ahead hours.
ghost use Rattle.std.specs.Prelude.{◌≡◌, ℕ, ◌<◌, Some, slice_get};
ghost use Rattle.small_day.specs.Hours.{hour_of};

use dayfile::{Flag, ResourceRecord};
use std::array;

/// What a Resource has day-ahead in one hour. Prices are in cents per MWh.
#[derive(Clone, Copy)]
pub struct DayAheadHour {
    pub cleared_kwh: u32,
    pub price: i32,
    pub lmp: i32,
    pub flag: Flag,
    pub self_scheduled: bool,
}

/// The hours of a Resource, the first one first.
pub fn day_ahead_hours(resource: &ResourceRecord) -> [DayAheadHour; 24]
    ensures { (k : ℕ) → k < 24 → slice_get result k ≡ Some (hour_of resource.now k) }
{
    array::from_fn(|hour| DayAheadHour {
        cleared_kwh: resource.cleared_kwh[hour],
        price: resource.prices[hour],
        lmp: resource.lmps[hour],
        flag: resource.flags[hour],
        self_scheduled: (resource.self_scheduled >> hour) % 2 == 1,
    })
}
