//! A credit allotted to the hours that share it.
ghost use Rattle.std.specs.Prelude.{◌≡◌, ◌^◌, ◌<◌, map, is_some, sum_by, count_by, refl};
ghost use Rattle.credits.specs.Allotments.{shared_kwh, level, allotted};
ghost use Rattle.credits.specs.Weighing.{cut, cut_light};

use crate::cents::to_cents;
use crate::claim::Claim;
use crate::hourly::HourCents;
use crate::share::HourShare;
use division::{HEAVIEST, Weighted, divide};
use std::array;

// No Portion of division: an hour that does not share is None, and one that shares may have 0 kWh.
impl Weighted for HourShare {
    ghost weighs = { λ x. cut (shared_kwh x) };

    ghost holds = { λ x. x.cents };

    ghost given = { λ x cents. record { kwh = x.kwh; cents = cents } };

    ghost lawful = { record { light = λ x. cut_light (shared_kwh x); holding = λ _ _. refl; weighing = λ _ _. refl; again = λ _ _ _. refl; back = λ _. refl } };

    fn weight(&self) -> u32 {
        self.kwh.unwrap_or(0).min(HEAVIEST)
    }

    fn take(&mut self, cents: u64) {
        self.cents = cents;
    }
}

/// The kWh of the hours that share.
fn kwh_shared(hours: &[HourShare]) -> u64
    requires { sum_by shared_kwh hours.now < 2 ^ 64 }
    ensures { result ≡ sum_by shared_kwh hours.now }
{
    hours
        .iter()
        .map(|hour| u64::from(hour.kwh.unwrap_or(0)))
        .sum()
}

/// How many hours share.
fn hours_sharing(hours: &[HourShare]) -> usize
    ensures { result ≡ count_by (λ x. is_some x.kwh) hours.now }
{
    hours.iter().filter(|hour| hour.kwh.is_some()).count()
}

/// Gives each hour that shares one kWh, so that all of them weigh the same.
fn level_out(hours: &mut [HourShare])
    ensures { hours.new ≡ map level hours.old }
{
    for hour in hours.iter_mut() {
        hour.kwh = hour.kwh.map(|_| 1);
    }
}

impl Claim {
    /// Divides the credit over the hours that share it: the cents of each hour.
    pub(crate) fn allot(self) -> HourCents
        ensures { result.cents ≡ allotted self.amount self.hours }
    {
        let Claim { amount, mut hours } = self;
        if kwh_shared(&hours) == 0 {
            level_out(&mut hours);
        }
        let cents = if hours_sharing(&hours) > 0 {
            to_cents(amount)
        } else {
            0
        };
        // something weighs where an hour shares, so that nothing is left undivided
        let _ = divide(cents, &mut hours);
        HourCents {
            // `map` would move all hours twice
            cents: array::from_fn(|hour| hours[hour].cents),
        }
    }
}
