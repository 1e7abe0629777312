//! Amounts of cents for the 21 pools.
ghost use Rattle.std.specs.Prelude.{◌≤◌};

/// The pools in which costs collect; pool 1 is the first of a row.
pub const POOLS: usize = 21;

/// A pool by its number, from 1.
#[derive(Clone, Copy)]
pub(crate) struct Pool {
    pub(crate) number: usize,
    ghost from_one: { 1 ≤ number },
    ghost few: { number ≤ 21 },
}

/// An amount of cents for each pool, pool 1 first.
#[derive(Clone, Copy, Debug, PartialEq, Eq)]
pub struct PoolAmounts {
    pub cents: [u64; POOLS],
}
