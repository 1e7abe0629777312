//! The first part: the credit of the small day.
use crate::credit_notes::explain_day_ahead;
use dayfile::{AdmittedDay, Record, admit};
use small_day::{BYTES, Stop, small_day, write_records};

/// Writes the small day, admits its file, and explains the credit of its Resource.
pub fn run_small_tour(rt: &HostRuntime) -> Result<(), Stop> {
    println!(rt; "The small day, and what it is credited.")?;
    let mut file = [0; BYTES];
    write_records(&small_day(), &mut file)?;
    let mut day = AdmittedDay::built_in();
    admit(&file, &mut day)?;
    if let Some(Record::Resource(resource)) = day.record(4) {
        explain_day_ahead(rt, &day, &resource)?;
    }
    Ok(())
}
