//! The second part: a day with a trip and a restart.
use crate::real_time_notes::explain_real_time;
use crate::restart::{RESTART_BYTES, restart_day};
use crate::show::print_real_time;
use dayfile::{AdmittedDay, Record, admit};
use small_day::{Stop, print_resource, write_records};

/// Writes the day, admits its file, and explains the credit of its Resource.
pub fn run_restart_tour(rt: &HostRuntime) -> Result<(), Stop> {
    let mut file = [0; RESTART_BYTES];
    write_records(&restart_day(), &mut file)?;
    let mut day = AdmittedDay::built_in();
    admit(&file, &mut day)?;
    println!(rt; "")?;
    println!(rt; "A day in real time: a trip and a restart.")?;
    println!(rt; "")?;
    println!(rt;
        "11. The participants are those of before. A Resource that cleared nothing day-ahead has a real-time record."
    )?;
    follow_resource(rt, &day)
}

/// Shows the records of the day's Resource, and explains its credit.
fn follow_resource(rt: &HostRuntime, day: &AdmittedDay<'_>) -> Result<(), Stop> {
    let (Some(Record::Resource(resource)), Some(Record::RealTime(real_time))) = (
        day.record(4),
        day.record(5),
    ) else {
        return Ok(());
    };
    print_resource(rt, &resource)?;
    print_real_time(rt, &real_time)?;
    explain_real_time(rt, day, &resource, &real_time)
}
