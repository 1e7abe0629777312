//! Why an hour's event may not follow those before it.
ghost use Rattle.std.specs.Prelude.{◌≡◌, cond, Some, None, nat_lt};
ghost use Rattle.explanation.specs.declared.events.Status.TheVariants.{Off, Running};
ghost use Rattle.explanation.specs.Misfits.{may_follow, behind, IsFirstMisfit};

use dayfile::Event;

/// How a Resource stands between two hours, as far as the next event hangs on it.
#[derive(Clone, Copy, Debug, PartialEq, Eq)]
pub enum Status {
    Off,
    Running,
    /// It tripped in this hour, from 1, and has been off since.
    Tripped { hour: u8 },
}

/// An event that may not follow those before it.
#[derive(Clone, Copy, Debug, PartialEq, Eq)]
pub struct Misfit {
    /// From 1.
    pub hour: u8,
    pub event: Event,
    /// How the Resource stood before the event.
    pub before: Status,
}

impl Status {
    /// The status at midnight, after so many hours on line.
    fn at_midnight(hours_on_line: u8) -> Status
        ensures { result ≡ cond (nat_lt 0 hours_on_line) Running Off }
    {
        if hours_on_line > 0 {
            Status::Running
        } else {
            Status::Off
        }
    }

    /// The status after an hour, or `None` where its event may not follow.
    fn after(self, hour: u8, event: Event) -> Option<Status>
        ensures { result ≡ cond (may_follow event self) (Some (behind hour event self)) None }
    {
        match (self, event) {
            (Status::Tripped { .. }, Event::Off) => Some(self),
            (_, Event::Off) => Some(Status::Off),
            (_, Event::SelfRun) => Some(Status::Running),
            (Status::Off | Status::Running, Event::PoolRun) => Some(Status::Running),
            (Status::Running, Event::Trip) => Some(Status::Tripped { hour }),
            (Status::Tripped { .. }, Event::IsoRestart | Event::OwnRestart) => Some(
                Status::Running,
            ),
            _ => None,
        }
    }
}

/// The first event of a day that may not follow those before it, the Resource having been on line for so many hours at
/// midnight.
pub fn first_misfit(hours_on_line: u8, events: &[Event; 24]) -> Option<Misfit>
    ensures { IsFirstMisfit hours_on_line events.now result }
{
    let mut before = Status::at_midnight(hours_on_line);
    for (k, &event) in events.iter().enumerate() {
        let hour = k as u8 + 1;
        let Some(next) = before.after(hour, event) else {
            return Some(Misfit {
                hour,
                event,
                before,
            });
        };
        before = next;
    }
    None
}
