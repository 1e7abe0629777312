//! Amounts added pool by pool.
ghost use Rattle.std.specs.Prelude.{◌≡◌, ◌+◌, ◌-◌, ◌^◌, ◌<◌, ◌≤◌, length, replicate, if◌then◌else◌, nat_lt, slice_index, slice_set};

use crate::amounts::{POOLS, Pool, PoolAmounts};

impl PoolAmounts {
    /// Nothing in any pool.
    pub fn none() -> PoolAmounts
        ensures { result.cents ≡ replicate 21 0 }
    {
        PoolAmounts { cents: [0; POOLS] }
    }

    /// The amount in a pool, from 1; 0 where there is no such pool.
    pub fn in_pool(&self, pool: usize) -> u64
        ensures { result ≡ (if nat_lt 0 pool then slice_index self.now.cents (pool - 1) else 0) }
    {
        if pool > 0 && pool <= POOLS {
            self.cents[pool - 1]
        } else {
            0
        }
    }

    /// Adds cents to a pool.
    pub(crate) fn add(&mut self, pool: Pool, cents: u64)
        requires { slice_index self.old.cents (pool.number - 1) + cents < 2 ^ 64 }
        ensures value { self.new.cents ≡ slice_set self.old.cents (pool.number - 1) (slice_index self.old.cents (pool.number - 1) + cents) }
        ensures wide { length self.new.cents ≡ 21 }
    {
        self.cents[pool.number - 1] += cents;
    }
}
