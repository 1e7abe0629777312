//! Events, and why one may not follow, in words.
ghost use Rattle.std.specs.Prelude.{Some};
ghost use Rattle.explanation.specs.Texts.{event_text};

use crate::events::{Misfit, Status};
use dayfile::Event;
use std::fmt;

/// An event that is shown by its name.
#[derive(Clone, Copy, Debug, PartialEq, Eq)]
pub struct EventName(pub Event);

impl fmt::Display for EventName {
    ghost output = { λ name. Some (event_text name.0) };

    fn fmt<W: fmt::Write>(&self, f: &mut fmt::Formatter<W>) -> fmt::Result {
        f.write_str(match self.0 {
            Event::Off => "off",
            Event::PoolRun => "a run for the pool",
            Event::SelfRun => "a run for itself",
            Event::Trip => "a trip",
            Event::IsoRestart => "a restart for the ISO",
            Event::OwnRestart => "a restart on its own",
        })
    }
}

/// One sentence: the event, how the Resource stood before it, and what may follow that.
impl fmt::Display for Misfit {
    fn fmt<W: fmt::Write>(&self, f: &mut fmt::Formatter<W>) -> fmt::Result {
        let Misfit {
            hour,
            event,
            before,
        } = *self;
        let name = EventName(event);
        write!(f, "the event of hour {hour} is {name}; ")?;
        match before {
            Status::Off => write!(
                f,
                "the Resource is off line and has not tripped, so that it must be off, a run for the pool or a run for itself"
            ),
            Status::Running => write!(
                f,
                "the Resource is running, so that it must be off, a run for the pool, a run for itself or a trip"
            ),
            Status::Tripped { hour } => write!(
                f,
                "the Resource tripped in hour {hour}, so that it must be off, a run for itself or a restart"
            ),
        }
    }
}
