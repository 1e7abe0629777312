//! A Resource's day-ahead record in words.
use crate::hours::{DayAheadHour, day_ahead_hours};
use dayfile::{Owner, ResourceRecord};
use std::io;

/// Prints the day-ahead record of a Resource: what is not 0.
// No clause: what is printed is compared with the programs' stdout.
pub fn print_resource(rt: &impl Print, resource: &ResourceRecord) -> io::Result<()> {
    let ResourceRecord {
        number,
        region,
        start_up_cents,
        no_load_cents,
        ..
    } = *resource;
    println!(rt;
        "   Resource {number} in region {region}; Start-Up Fee: {start_up_cents} cents, No-Load Fee: {no_load_cents} cents"
    )?;
    for Owner { place, parts } in resource.owners {
        if parts > 0 {
            println!(rt; "      owner at place {place}: {parts} parts of a million")?;
        }
    }
    for (hour, figures) in day_ahead_hours(resource).iter().enumerate() {
        print_hour(rt, hour + 1, figures)?;
    }
    Ok(())
}

/// Prints an hour in which the Resource clears.
fn print_hour(rt: &impl Print, hour: usize, figures: &DayAheadHour) -> io::Result<()> {
    let DayAheadHour {
        cleared_kwh,
        price,
        lmp,
        flag,
        ..
    } = *figures;
    if cleared_kwh == 0 {
        return Ok(());
    }
    let flag = flag.number();
    println!(rt;
        "      hour {hour}: {cleared_kwh} kWh at a price of {price} and an LMP of {lmp} cents per MWh, flag {flag}"
    )
}
