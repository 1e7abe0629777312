//! Cents hour by hour.
ghost use Rattle.std.specs.Prelude.{ℕ, ◌≤◌, slice_index};

/// The cents of each hour of a market, none of them above a hundred thousand million.
#[derive(Clone, Copy)]
pub(crate) struct HourCents {
    pub(crate) cents: [u64; 24],
    ghost small: { ((h : ℕ) → slice_index cents h ≤ 100000000000) },
}

/// A Resource's cents in each hour, in both markets.
#[derive(Clone, Copy)]
pub(crate) struct HourlyCents {
    pub(crate) day_ahead: HourCents,
    pub(crate) real_time: HourCents,
}
