//! The real-time credit of a Resource.
ghost use Rattle.std.specs.Prelude.{◌≡◌, ◌*◌, ◌<◌, ◌≤◌, pos, ◌-ℤ◌, neg_ℤ, ◌≤ℤ◌, if◌then◌else◌, Some, None, MatchResult, nat_eq};
ghost use Rattle.dayfile.specs.Keeping.{ResourceKept, RealTimeKept};
ghost use Rattle.credits.specs.Kept.{resource_kept_prop, real_time_kept_prop};
ghost use Rattle.credits.specs.Cents.{millicents};
ghost use Rattle.credits.specs.DayAhead.{cleared};
ghost use Rattle.credits.specs.Commitments.{in_period};
ghost use Rattle.credits.specs.RealTime.{forbidden_hour, paid_kwh, real_time_hour, real_time_cents};
ghost use Rattle.credits.specs.Walks.{Passes, Stands, SumsUp};

use crate::cents::{excess, to_millicents, worth};
use crate::claim::Claim;
use crate::forbidden::ForbiddenEvent;
use crate::hourly::HourCents;
use crate::share::HourShare;
use crate::walk::Walk;
use dayfile::{RealTimeRecord, ResourceRecord};

/// A Resource in real time; its records keep their limits.
#[derive(Clone, Copy)]
pub(crate) struct RealTimeDay<'a> {
    pub(crate) resource: &'a ResourceRecord,
    pub(crate) real_time: &'a RealTimeRecord,
    ghost resource_kept: { ResourceKept 48 resource.now } by { resource_kept_prop 48 resource.now },
    ghost real_time_kept: { RealTimeKept real_time.now } by { real_time_kept_prop real_time.now },
}

/// The kWh beyond those that cleared day-ahead; below 0 where they are fewer.
fn beyond(kwh: u32, cleared_kwh: u32) -> i64
    requires { (kwh ≤ 2000000) × (cleared_kwh ≤ 2000000) }
    ensures value { result ≡ pos kwh -ℤ pos cleared_kwh }
    ensures small { (neg_ℤ (pos 2000000) ≤ℤ result) × (result ≤ℤ pos 2000000) }
{
    i64::from(kwh) - i64::from(cleared_kwh)
}

impl RealTimeDay<'_> {
    /// A fee, in millicents, that is due where no energy cleared in an hour.
    fn fee_unless_cleared(&self, hour: usize, cents: u32) -> u64
        requires { hour < 24 }
        ensures value { result ≡ (if nat_eq (cleared self.now.resource.now hour) 0 then millicents cents else 0) }
        ensures small { result ≤ 1000 * cents }
    {
        if self.resource.cleared_kwh[hour] == 0 {
            to_millicents(cents)
        } else {
            0
        }
    }

    /// The kWh that are paid at the offered price: the lesser of the metered ones and of the Dispatch Point, which counts as
    /// the Economic Minimum where it lies below it.
    fn kwh_paid(&self, hour: usize) -> u32
        requires { hour < 24 }
        ensures { result ≡ paid_kwh self.now.real_time.now hour }
    {
        let figures = self.real_time.hours[hour];
        let least_kwh = self.real_time.economic_minimum_kwh;
        figures.metered_kwh.min(figures.dispatch_kwh.max(least_kwh))
    }

    /// What an eligible hour adds to the credit, in millicents: its cost at the offer beyond the energy that cleared day-ahead,
    /// with the No-Load Fee where none cleared, less what that energy is worth.
    fn amount(&self, hour: usize) -> i64
        requires { hour < 24 }
        ensures value { result ≡ real_time_hour self.now.resource.now self.now.real_time.now hour }
        ensures small { (neg_ℤ (pos 1000000000000) ≤ℤ result) × (result ≤ℤ pos 1000000000000) }
    {
        let cleared_kwh = self.resource.cleared_kwh[hour];
        let paid_kwh = beyond(self.kwh_paid(hour), cleared_kwh);
        let cost = worth(self.resource.prices[hour], paid_kwh);
        let no_load = self.fee_unless_cleared(hour, self.resource.no_load_cents);
        let figures = self.real_time.hours[hour];
        let value = worth(figures.lmp, beyond(figures.metered_kwh, cleared_kwh));
        excess(cost, no_load, value)
    }

    /// Walks through the day: the credit and the hours that share it, or the event that may not follow those before it.
    fn claim(&self) -> Result<Claim, ForbiddenEvent>
        ensures { MatchResult result (λ c. SumsUp self.now.resource.now self.now.real_time.now c.amount c.hours) (λ e. forbidden_hour self.now.resource.now self.now.real_time.now 24 ≡ Some e.hour) }
    {
        let mut walk = Walk::at_midnight(self.resource.hours_on_line);
        let mut hours = [HourShare::default(); 24];
        for (hour, share) in hours.iter_mut().enumerate() {
            *share = walk.pass(self, hour)?;
        }
        Ok(Claim {
            amount: walk.credit(),
            hours,
        })
    }

    /// The cents of each hour, or the event that may not follow those before it.
    pub(crate) fn cents(&self) -> Result<HourCents, ForbiddenEvent>
        ensures { MatchResult result (λ c. (forbidden_hour self.now.resource.now self.now.real_time.now 24 ≡ None) × (c.cents ≡ real_time_cents self.now.resource.now self.now.real_time.now)) (λ e. forbidden_hour self.now.resource.now self.now.real_time.now 24 ≡ Some e.hour) }
    {
        Ok(self.claim()?.allot())
    }
}

impl Walk {
    /// What the hour just passed adds to the credit, in millicents: nothing where it is not eligible.
    fn amount_of(&self, day: &RealTimeDay<'_>, hour: usize) -> i64
        requires { hour < 24 }
        ensures value { result ≡ (if in_period self.now.commitment then real_time_hour day.now.resource.now day.now.real_time.now hour else pos 0) }
        ensures small { (neg_ℤ (pos 1000000000000) ≤ℤ result) × (result ≤ℤ pos 1000000000000) }
    {
        if self.is_in_period() {
            day.amount(hour)
        } else {
            0
        }
    }

    /// Passes an hour: its event moves the commitment, and an eligible hour adds its amount. Answers how the hour shares the
    /// credit, or the event where it may not follow those before it.
    fn pass(&mut self, day: &RealTimeDay<'_>, hour: usize) -> Result<HourShare, ForbiddenEvent>
        requires hour { hour < 24 }
        requires so_far { Stands day.now.resource.now day.now.real_time.now hour self.old }
        ensures { Passes day.now.resource.now day.now.real_time.now hour result self.new }
    {
        let opening = day.fee_unless_cleared(hour, day.resource.start_up_cents);
        let event = day.real_time.events[hour];
        self.advance(event, opening, day.resource.minimum_run_hours)
            .ok_or(ForbiddenEvent {
                hour: hour as u8 + 1,
            })?;
        self.net += self.amount_of(day, hour);
        Ok(HourShare {
            kwh: self
                .is_in_period()
                .then_some(day.real_time.hours[hour].metered_kwh),
            cents: 0,
        })
    }
}
