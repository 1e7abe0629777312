//! The hourly grid of a Resource.
ghost use Rattle.std.specs.Prelude.{◌≡◌, ◌<◌, ◌≤◌, replicate};
ghost use Rattle.std.specs.List.{AllByRecursion};
ghost use Rattle.credits.specs.Resources.{resources_of};
ghost use Rattle.credits.specs.Grids.{market_flag, market_pool, cell, by_pool, grid_of, Allotted};
ghost use Rattle.credits.specs.Crediting.{Allocates};
ghost use Rattle.credits.specs.Laws.{LawfulCredits};

use crate::allocation::allocate;
use crate::amounts::{Pool, PoolAmounts};
use crate::grid::Grid;
use crate::hourly::HourlyCents;
use crate::pool::Market;
use crate::resource::ResourceDay;
use crate::resources::find_resource;
use dayfile::{AdmittedDay, Fault, Flag};
use std::array;

impl ResourceDay {
    /// The flag of an hour; without a real-time record a real-time hour is economic, and gets nothing.
    fn flag(&self, market: Market, hour: usize) -> Flag
        requires { hour < 24 }
        ensures { result ≡ market_flag market self.now hour }
    {
        match (market, &self.real_time) {
            (Market::DayAhead, _) => self.resource.flags[hour],
            (Market::RealTime, Some(real_time)) => real_time.flags[hour],
            (Market::RealTime, None) => Flag::Economic,
        }
    }

    /// The pool of an hour.
    pub(crate) fn pool(&self, market: Market, hour: usize) -> Pool
        requires { hour < 24 }
        ensures { result.number ≡ market_pool market self.now hour }
    {
        market.pool(self.flag(market, hour), self.resource.region)
    }
}

impl Grid {
    /// Nothing in any hour.
    pub fn empty() -> Grid
        ensures { result.hours ≡ replicate 24 (by_pool (λ _. 0)) }
    {
        Grid {
            hours: [PoolAmounts::none(); 24],
        }
    }
}

/// An hour's cents in each pool.
fn hour_row(unit: &ResourceDay, cents: &HourlyCents, hour: usize) -> PoolAmounts
    requires { (hour < 24) × (Allotted unit.now cents.now) }
    ensures { result ≡ by_pool (cell unit.now hour) }
{
    let mut row = PoolAmounts::none();
    row.add(
        unit.pool(Market::DayAhead, hour),
        cents.day_ahead.cents[hour],
    );
    row.add(
        unit.pool(Market::RealTime, hour),
        cents.real_time.cents[hour],
    );
    row
}

/// The grid of a Resource.
fn grid_of(unit: &ResourceDay, cents: &HourlyCents) -> Grid
    requires { Allotted unit.now cents.now }
    ensures { result ≡ grid_of unit.now }
{
    Grid {
        hours: array::from_fn(|hour| hour_row(unit, cents, hour)),
    }
}

/// The hourly allocation of a Resource: each hour's cents in each pool, before they are divided over owners. Refused, the
/// caller's grid stays as it was.
pub fn hourly_allocation(day: &AdmittedDay<'_>, resource: u32, grid: &mut Grid) -> Result<(), Fault>
    ensures outcome { Allocates day.now.file.now resource grid.old result grid.new }
    ensures lawful { AllByRecursion LawfulCredits (resources_of day.now.file.now) }
{
    let found = find_resource(day, resource).ok_or(Fault::NoResource)?;
    let cents = allocate(&found).map_err(|_| Fault::GridEvent)?;
    *grid = grid_of(&found, &cents);
    Ok(())
}
