//! How an hour's event moves the commitment.
ghost use Rattle.std.specs.Prelude.{◌≡◌, ◌+◌, ◌<◌, ◌≤◌, pos, ◌+ℤ◌, neg_ℤ, ◌≤ℤ◌};
ghost use Rattle.dayfile.specs.declared.record.Event.TheVariants.{Off};
ghost use Rattle.credits.specs.declared.commitment.Commitment.TheVariants.{PoolPeriod};
ghost use Rattle.credits.specs.Commitments.{at_midnight, moved, cut_fee, closing, in_period};
ghost use Rattle.credits.specs.Walks.{Advances, Light};

use crate::commitment::Commitment;
use crate::walk::Walk;
use dayfile::Event;

/// A period's fee that a trip cuts: in proportion to the hours run, where they are fewer than the Minimum Run Time.
fn cut(fee: u64, hours: u32, minimum: u8) -> u64
    requires { fee ≤ 100000000000 }
    ensures value { result ≡ cut_fee minimum hours fee }
    ensures small { result ≤ fee }
{
    let minimum = u32::from(minimum);
    if hours < minimum {
        fee * u64::from(hours) / u64::from(minimum)
    } else {
        fee
    }
}

impl Walk {
    /// The walk at midnight: the hours on line are a pool period that has no fee.
    pub(crate) fn at_midnight(hours_on_line: u8) -> Walk
        ensures { result ≡ record { commitment = at_midnight hours_on_line; fees = 0; net = pos 0 } }
    {
        let commitment = if hours_on_line > 0 {
            Commitment::PoolPeriod {
                hours: u32::from(hours_on_line),
                fee: 0,
            }
        } else {
            Commitment::Down
        };
        Walk {
            commitment,
            fees: 0,
            net: 0,
        }
    }

    /// Moves the commitment by an hour's event, or answers `None` where it may not follow. `opening` is the fee of a period
    /// that begins from down or tripped, `minimum` the Minimum Run Time.
    pub(crate) fn advance(&mut self, event: Event, opening: u64, minimum: u8) -> Option<()>
        requires { (Light 1000 self.old.commitment) × (self.old.fees ≤ 100000000000000) }
        ensures { Advances (moved opening self.old.commitment event) (closing minimum self.old.commitment event) self.old result self.new }
    {
        match (self.commitment, event) {
            (Commitment::PoolPeriod { fee, .. }, Event::Off) => self.end(fee, Commitment::Down),
            (Commitment::PoolPeriod { fee, .. }, Event::SelfRun) => self.end(
                fee,
                Commitment::SelfScheduled,
            ),
            (Commitment::PoolPeriod { hours, fee }, Event::Trip) => self.end(
                cut(fee, hours, minimum),
                Commitment::Tripped,
            ),
            (Commitment::PoolPeriod { hours, fee }, Event::PoolRun) => self.run(hours + 1, fee),
            (Commitment::Tripped, Event::Off) => self.go_on(Commitment::Tripped),
            (_, Event::Off) => self.go_on(Commitment::Down),
            (_, Event::SelfRun) => self.go_on(Commitment::SelfScheduled),
            (Commitment::Down, Event::PoolRun) | (Commitment::Tripped, Event::IsoRestart) =>
                self.run(1, opening),
            (Commitment::SelfScheduled, Event::PoolRun) => self.run(1, 0),
            (Commitment::RestartedOnItsOwn, Event::PoolRun)
            | (Commitment::Tripped, Event::OwnRestart) => self.go_on(Commitment::RestartedOnItsOwn),
            (Commitment::SelfScheduled | Commitment::RestartedOnItsOwn, Event::Trip) => self.go_on(
                Commitment::Tripped,
            ),
            _ => return None,
        }
        Some(())
    }

    /// Is in a pool period of so many hours after the hour.
    fn run(&mut self, hours: u32, fee: u64)
        ensures { self.new ≡ record { commitment = PoolPeriod hours fee; fees = self.old.fees; net = self.old.net } }
    {
        self.commitment = Commitment::PoolPeriod { hours, fee };
    }

    /// Goes on with another commitment; no period ends.
    fn go_on(&mut self, next: Commitment)
        ensures { self.new ≡ record { commitment = next; fees = self.old.fees; net = self.old.net } }
    {
        self.commitment = next;
    }

    /// Ends a period, which brings its fee.
    fn end(&mut self, fee: u64, next: Commitment)
        requires { (fee ≤ 100000000000) × (self.old.fees ≤ 100000000000000) }
        ensures { self.new ≡ record { commitment = next; fees = self.old.fees + fee; net = self.old.net } }
    {
        self.fees += fee;
        self.commitment = next;
    }

    /// Whether the hour just passed ended in a pool period.
    pub(crate) fn is_in_period(&self) -> bool
        ensures { result ≡ in_period self.now.commitment }
    {
        matches!(self.commitment, Commitment::PoolPeriod { .. })
    }

    /// The credit at the day's end in millicents (no trip cuts a fee there, whatever the Minimum Run Time): the fees, with that of a period that lasts to the end, and the hours' amounts.
    pub(crate) fn credit(&self) -> i64
        requires { (Light 1000 self.now.commitment) × ((self.now.fees ≤ 10000000000000) × ((neg_ℤ (pos 100000000000000) ≤ℤ self.now.net) × (self.now.net ≤ℤ pos 50000000000000))) }
        ensures { result ≡ pos (self.now.fees + closing 0 self.now.commitment Off) +ℤ self.now.net }
    {
        let last = if let Commitment::PoolPeriod { fee, .. } = self.commitment {
            fee
        } else {
            0
        };
        (self.fees + last) as i64 + self.net
    }
}
