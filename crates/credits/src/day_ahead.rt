//! The day-ahead credit of a Resource.
ghost use Rattle.std.specs.Prelude.{◌≡◌, ◌<◌, ◌≤◌, map, pos, neg_ℤ, ◌≤ℤ◌};
ghost use Rattle.std.specs.List.{range_with_len};
ghost use Rattle.dayfile.specs.Keeping.{ResourceKept};
ghost use Rattle.credits.specs.Kept.{resource_kept_prop};
ghost use Rattle.credits.specs.Sums.{net};
ghost use Rattle.credits.specs.DayAhead.{scheduled, running_before, start_fee, day_ahead_hour, day_ahead_millicents, day_ahead_share, day_ahead_shares, day_ahead_cents};

use crate::cents::{excess, to_millicents, worth};
use crate::claim::Claim;
use crate::hourly::HourCents;
use crate::share::HourShare;
use dayfile::ResourceRecord;
use std::array;

/// A Resource day-ahead; its record keeps its limits.
// An hour is a number below 24, which each method asks: a type of its own would be opened again at each array.
#[derive(Clone, Copy)]
pub(crate) struct DayAheadDay<'a> {
    pub(crate) resource: &'a ResourceRecord,
    ghost kept: { ResourceKept 48 resource.now } by { resource_kept_prop 48 resource.now },
}

impl DayAheadDay<'_> {
    /// Whether energy cleared in an hour that is not Self-Scheduled.
    fn is_scheduled(&self, hour: usize) -> bool
        requires { hour < 24 }
        ensures { result ≡ scheduled self.now.resource.now hour }
    {
        self.resource.cleared_kwh[hour] > 0 && !self.is_self_scheduled(hour)
    }

    /// Whether the unit runs in the hour before; at midnight, if it has been on line.
    fn runs_before(&self, hour: usize) -> bool
        requires { hour < 24 }
        ensures { result ≡ running_before self.now.resource.now hour }
    {
        if hour == 0 {
            self.resource.hours_on_line > 0
        } else {
            self.is_scheduled(hour - 1) || self.is_self_scheduled(hour - 1)
        }
    }

    /// The Start-Up Fee of a scheduled hour, in cents: none where the unit runs in the hour before.
    fn start_up(&self, hour: usize) -> u32
        requires { hour < 24 }
        ensures value { result ≡ start_fee self.now.resource.now hour }
        ensures small { result ≤ 100000000 }
    {
        if self.runs_before(hour) {
            0
        } else {
            self.resource.start_up_cents
        }
    }

    /// What an hour adds to the credit, in millicents: its cost at the offer with the No-Load Fee, and with the Start-Up Fee
    /// where the unit is started, less what its energy is worth; nothing where it is not scheduled.
    fn amount(&self, hour: usize) -> i64
        requires { hour < 24 }
        ensures value { result ≡ day_ahead_hour self.now.resource.now hour }
        ensures small { (neg_ℤ (pos 1000000000000) ≤ℤ result) × (result ≤ℤ pos 1000000000000) }
    {
        if !self.is_scheduled(hour) {
            return 0;
        }
        let kwh = i64::from(self.resource.cleared_kwh[hour]);
        let cost = worth(self.resource.prices[hour], kwh);
        let fees = to_millicents(self.resource.no_load_cents + self.start_up(hour));
        let value = worth(self.resource.lmps[hour], kwh);
        excess(cost, fees, value)
    }

    /// What all hours add, in millicents.
    fn net(&self) -> i64
        ensures value { result ≡ net (day_ahead_hour self.now.resource.now) 24 }
        ensures small { result ≤ℤ pos 100000000000000 }
    {
        let mut sum = 0;
        // a chain's `sum` has to be shown to fit before it is taken, which is hard for signed amounts
        for hour in 0..24 {
            sum += self.amount(hour);
        }
        sum
    }

    /// How an hour shares the credit: a scheduled one, by its cleared kWh.
    fn share(&self, hour: usize) -> HourShare
        requires { hour < 24 }
        ensures { result ≡ day_ahead_share self.now.resource.now hour }
    {
        HourShare {
            kwh: self
                .is_scheduled(hour)
                .then_some(self.resource.cleared_kwh[hour]),
            cents: 0,
        }
    }

    /// The credit, and the hours that share it.
    fn claim(&self) -> Claim
        ensures amount { result.amount ≡ day_ahead_millicents self.now.resource.now }
        ensures hours { result.hours ≡ day_ahead_shares self.now.resource.now }
    {
        let amount = if self.qualifies() { self.net() } else { 0 };
        Claim {
            amount,
            hours: array::from_fn(|hour| self.share(hour)),
        }
    }

    /// The cents of each hour.
    pub(crate) fn cents(&self) -> HourCents
        ensures { result.cents ≡ day_ahead_cents self.now.resource.now }
    {
        self.claim().allot()
    }
}
