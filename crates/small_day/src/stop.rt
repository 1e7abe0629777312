//! Why a tour stops before its end.
ghost use Rattle.std.specs.Prelude.{◌≡◌};
ghost use Rattle.std.specs.IoError.{error_kind};
ghost use Rattle.std.specs.declared.io.ErrorKind.TheVariants.{OutOfMemory};
ghost use Rattle.small_day.specs.declared.stop.Stop.TheVariants.{Refused, Io};

use dayfile::Fault;
use std::alloc::AllocError;
use std::io;

#[derive(Debug, Drop)]
pub enum Stop {
    /// The engine refused a day.
    Refused(Fault),
    /// Nothing can be printed or written, or there is no memory.
    Io(io::Error),
    /// The arguments say no task.
    Usage,
}

impl From<Fault> for Stop {
    ghost from_gives = { λ fault stop. stop ≡ Refused fault };

    fn from(fault: Fault) -> Stop {
        Stop::Refused(fault)
    }
}

impl From<io::Error> for Stop {
    ghost from_gives = { λ error stop. stop ≡ Io error };

    fn from(error: io::Error) -> Stop {
        Stop::Io(error)
    }
}

impl From<AllocError> for Stop {
    ghost from_gives = { λ _ stop. (error : _) × (error_kind error ≡ OutOfMemory) × (stop ≡ Io error) };

    fn from(error: AllocError) -> Stop {
        Stop::Io(io::Error::from(error))
    }
}
