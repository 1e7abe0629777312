//! A Resource's cents in each hour of both markets.
ghost use Rattle.std.specs.Prelude.{◌≡◌, Some, None, MatchResult};
ghost use Rattle.credits.specs.Grids.{stopped, Allotted};

use crate::day_ahead::DayAheadDay;
use crate::forbidden::ForbiddenEvent;
use crate::hourly::{HourCents, HourlyCents};
use crate::real_time::RealTimeDay;
use crate::resource::ResourceDay;

/// The cents of each hour in both markets, or the event that may not follow those before it.
pub(crate) fn allocate(unit: &ResourceDay) -> Result<HourlyCents, ForbiddenEvent>
    ensures { MatchResult result (λ c. (stopped unit.now ≡ None) × Allotted unit.now c) (λ e. stopped unit.now ≡ Some e.hour) }
{
    let resource = &unit.resource;
    let real_time = match &unit.real_time {
        Some(real_time) => RealTimeDay {
            resource,
            real_time,
        }
        .cents()?,
        None => HourCents { cents: [0; 24] },
    };
    Ok(HourlyCents {
        day_ahead: DayAheadDay { resource }.cents(),
        real_time,
    })
}
