//! What the events of a real-time day do, in words.
use crate::money::Millicents;
use dayfile::Event;
use std::fmt;

/// What a Resource is committed to between two hours, as far as the example goes: it never runs for itself.
#[derive(Clone, Copy, Debug, PartialEq, Eq)]
pub enum Commitment {
    Down,
    Tripped,
    Period(Period),
}

/// A pool period: the hours that it has run, and its fee.
#[derive(Clone, Copy, Debug, PartialEq, Eq)]
pub struct Period {
    hours: u8,
    fee: Millicents,
}

/// What an hour's event does.
#[derive(Clone, Copy, Debug, PartialEq, Eq)]
pub enum Step {
    StaysDown,
    StaysTripped,
    Begins {
        fee: Millicents,
    },
    GoesOn {
        hours: u8,
    },
    Ends {
        fee: Millicents,
    },
    Trips {
        fee: Millicents,
    },
    /// A trip below the Minimum Run Time.
    TripsEarly {
        hours: u8,
        minimum: u8,
        fee: Millicents,
    },
    /// The example has no such event here.
    Other,
}

impl Commitment {
    /// What an event does; a period that it begins has the fee `opening`.
    pub fn step(self, event: Event, opening: Millicents, minimum: u8) -> Step {
        match (self, event) {
            (Commitment::Down, Event::Off) => Step::StaysDown,
            (Commitment::Tripped, Event::Off) => Step::StaysTripped,
            (Commitment::Down, Event::PoolRun) | (Commitment::Tripped, Event::IsoRestart) =>
                Step::Begins { fee: opening },
            (Commitment::Period(period), Event::PoolRun) => Step::GoesOn {
                hours: period.hours.saturating_add(1),
            },
            (Commitment::Period(period), Event::Off) => Step::Ends { fee: period.fee },
            (Commitment::Period(period), Event::Trip) => period.trip(minimum),
            _ => Step::Other,
        }
    }

    /// The commitment after a step.
    pub fn after(self, step: Step) -> Commitment {
        match (self, step) {
            (_, Step::Begins { fee }) => Commitment::Period(Period { hours: 1, fee }),
            (Commitment::Period(period), Step::GoesOn { hours }) => Commitment::Period(Period {
                hours,
                ..period
            }),
            (_, Step::Ends { .. }) => Commitment::Down,
            (_, Step::Trips { .. } | Step::TripsEarly { .. }) => Commitment::Tripped,
            _ => self,
        }
    }

    /// Whether an hour that ends so is eligible.
    pub fn is_eligible(self) -> bool {
        matches!(self, Commitment::Period(_))
    }
}

impl Period {
    /// A trip ends the period; its fee is cut where it has run fewer hours than the Minimum Run Time.
    fn trip(self, minimum: u8) -> Step {
        let Period { hours, fee } = self;
        if hours < minimum {
            let fee = fee.for_hours(hours, minimum);
            Step::TripsEarly {
                hours,
                minimum,
                fee,
            }
        } else {
            Step::Trips { fee }
        }
    }
}

impl Step {
    /// The fee of a period that the step ends.
    pub fn fee(self) -> Millicents {
        match self {
            Step::Ends { fee } | Step::Trips { fee } | Step::TripsEarly { fee, .. } => fee,
            _ => Millicents::default(),
        }
    }

    /// Whether the step leaves the Resource down.
    pub fn is_idle(self) -> bool {
        self == Step::StaysDown
    }
}

impl fmt::Display for Step {
    fn fmt<W: fmt::Write>(&self, f: &mut fmt::Formatter<W>) -> fmt::Result {
        match *self {
            Step::StaysDown => write!(f, "the Resource stays down"),
            Step::StaysTripped => write!(f, "the Resource stays tripped"),
            Step::Begins { fee } => write!(
                f,
                "a pool period begins; nothing cleared in the hour, so that its fee is the Start-Up Fee, {fee}"
            ),
            Step::GoesOn { hours } => write!(f, "the period has run {hours} hours"),
            Step::Ends { fee } => write!(f, "the period ends, and its fee stays {fee}"),
            Step::Trips { fee } => write!(
                f,
                "the period ends after its Minimum Run Time, and its fee stays {fee}"
            ),
            Step::TripsEarly {
                hours,
                minimum,
                fee,
            } => write!(
                f,
                "the period ends after {hours} hours, and its fee is cut to {hours}/{minimum}, {fee}"
            ),
            Step::Other => write!(f, "no part of this example"),
        }
    }
}
