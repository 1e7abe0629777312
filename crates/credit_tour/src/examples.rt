//! Writes the example days of credits into a directory.
ghost use Rattle.std.specs.Prelude.{◌≤◌};

use crate::days::{two_resources, wrong_cost, wrong_event};
use crate::restart::restart_day;
use dayfile::{BLOCK, Record};
use small_day::{Stop, write_example, write_records};

/// Writes all examples.
pub fn write_examples(rt: &HostRuntime, directory: &str) -> Result<(), Stop> {
    write_day(rt, directory, "restart", &restart_day())?;
    write_day(rt, directory, "two-resources", &two_resources())?;
    write_day(rt, directory, "wrong-event", &wrong_event())?;
    write_day(rt, directory, "wrong-cost", &wrong_cost())
}

/// Writes a day of at most 128 records, as many as the longest file has.
fn write_day<const N: usize>(
    rt: &HostRuntime,
    directory: &str,
    name: &str,
    records: &[Record; N],
) -> Result<(), Stop>
    requires { N ≤ 128 }
{
    let mut blocks = [[0; BLOCK]; N];
    write_records(records, blocks.as_flattened_mut())?;
    write_example(rt, directory, name, blocks.as_flattened())
}
