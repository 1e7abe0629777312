//! What a tour is asked for.
ghost use Rattle.std.specs.Prelude.{IfErr};
ghost use Rattle.small_day.specs.Stopping.{NoRefusal};

use crate::stop::Stop;
use std::env;

/// What the arguments ask for.
#[derive(Debug, Drop)]
pub enum Task {
    /// The tour: no argument.
    Tour,
    /// The examples, written into a directory: `examples DIRECTORY`.
    Examples { directory: String },
}

impl Task {
    /// Reads the arguments; where they say no task, standard error says what they may be. No refusal stops it.
    pub fn from_arguments(rt: &HostRuntime) -> Result<Task, Stop>
        ensures stops { IfErr result NoRefusal }
    {
        let mut words = env::args(rt)?.skip(1);
        let Some(task) = words.next() else {
            return Ok(Task::Tour);
        };
        match (task.as_str(), words.next()) {
            ("examples", Some(directory)) => Ok(Task::Examples { directory }),
            _ => {
                eprintln!(rt; "say nothing for the tour, or: examples DIRECTORY")?;
                Err(Stop::Usage)
            }
        }
    }
}
