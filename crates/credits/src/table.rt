//! The table of amounts that a day's credits are added to.
ghost use Rattle.std.specs.Prelude.{◌≡◌, ℕ, ◌+◌, ◌^◌, ◌<◌, ◌≤◌, if◌then◌else◌, nat_eq};
ghost use Rattle.credits.specs.Grids.{amount, Wide, Below};
ghost use Rattle.credits.specs.Crediting.{column};

use crate::amounts::{Pool, PoolAmounts};
use crate::credits::PLACES;

/// The amounts of each place in each pool.
#[derive(Clone, Copy)]
pub(crate) struct Table {
    pub(crate) rows: [PoolAmounts; PLACES],
    ghost wide: { Wide 48 rows },
}

impl Table {
    /// Nothing at any place.
    pub(crate) fn none() -> Table
        ensures { Below 0 result.rows }
    {
        Table {
            rows: [PoolAmounts::none(); PLACES],
        }
    }

    /// Adds cents to a place in a pool.
    pub(crate) fn add(&mut self, place: usize, pool: Pool, cents: u64)
        requires place { place < 48 }
        requires fits { amount self.old.rows place pool.number + cents < 2 ^ 64 }
        ensures { (i p : ℕ) → 1 ≤ p → amount self.new.rows i p ≡ amount self.old.rows i p + (if nat_eq p pool.number then (if nat_eq place i then cents else 0) else 0) }
    {
        self.rows[place].add(pool, cents);
    }

    /// The sum of a pool's credits, which is its cost.
    pub(crate) fn pool_total(&self, pool: Pool) -> u64
        requires { Below 1000000000000000 self.now.rows }
        ensures { result ≡ column self.now.rows pool.number }
    {
        self.rows.iter().map(|row| row.in_pool(pool.number)).sum()
    }
}
