//! The small day of the worked figures: its records, how records are written to a file, and what both tours print of them.
#![tactic(auto)]

mod examples;
mod hours;
mod records;
mod show;
mod stop;
mod task;
mod writing;

pub use examples::write_example;
pub use hours::{DayAheadHour, day_ahead_hours};
pub use records::{BYTES, RECORDS, participants, resource, small_day};
pub use show::print_resource;
pub use stop::Stop;
pub use task::Task;
pub use writing::write_records;
