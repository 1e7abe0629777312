//! The day-ahead credit of a Resource, step by step.
use crate::amounts::{Amounts, note_credit};
use crate::money::Millicents;
use crate::pools::pool_of;
use crate::share_notes::{note_hours, note_owners};
use credits::Market;
use dayfile::{AdmittedDay, HOURS, ResourceRecord};
use division::Portion;
use small_day::{DayAheadHour, Stop, day_ahead_hours};
use std::io;

/// Notes how a Resource is credited day-ahead: its scheduled hours, the credit, the hours' cents and the owners' shares.
pub fn explain_day_ahead(
    rt: &HostRuntime,
    day: &AdmittedDay<'_>,
    resource: &ResourceRecord,
) -> Result<(), Stop> {
    let amounts = note_scheduled(rt, resource)?;
    let cents = note_credit(rt, 8, amounts)?;
    println!(rt; "")?;
    println!(rt;
        "9. The cents are divided over the scheduled hours by their kWh; flag and region give each hour's pool."
    )?;
    let mut hours = hours_of(resource);
    note_hours(rt, day, resource.number, cents, &mut hours)?;
    println!(rt; "")?;
    println!(rt;
        "10. Each hour's cents are divided over the owners by their parts, the owners in the order of their places."
    )?;
    note_owners(rt, day, resource, &hours)
}

/// Notes the scheduled hours, and answers their amounts.
fn note_scheduled(rt: &impl Print, resource: &ResourceRecord) -> io::Result<Amounts> {
    let number = resource.number;
    println!(rt; "")?;
    println!(rt;
        "7. The admitted day is credited. Resource {number} is scheduled day-ahead in hours with cleared energy that are not Self-Scheduled."
    )?;
    println!(rt;
        "   Amounts are in millicents, which are cents per MWh times kWh; a thousand are a cent."
    )?;
    let mut amounts = Amounts::default();
    let mut runs = resource.hours_on_line > 0;
    for (hour, figures) in (1u8..).zip(&day_ahead_hours(resource)) {
        if is_scheduled(figures) {
            amounts += note_hour(rt, hour, figures, resource, runs)?;
        }
        runs = is_scheduled(figures) || figures.self_scheduled;
    }
    Ok(amounts)
}

/// Notes a scheduled hour, and answers its amounts; the unit may already run in the hour before.
fn note_hour(
    rt: &impl Print,
    hour: u8,
    figures: &DayAheadHour,
    resource: &ResourceRecord,
    runs: bool,
) -> io::Result<Amounts> {
    let DayAheadHour {
        cleared_kwh,
        price,
        lmp,
        ..
    } = *figures;
    let (before, fee) = if runs {
        ("runs", 0)
    } else {
        ("does not run", resource.start_up_cents)
    };
    let energy = Millicents::of_energy(price, cleared_kwh);
    let start_up = Millicents::of_cents(fee);
    let no_load = Millicents::of_cents(resource.no_load_cents);
    let value = Millicents::of_energy(lmp, cleared_kwh);
    println!(rt; "   hour {hour}: {cleared_kwh} kWh cleared")?;
    println!(rt; "      energy at the offered price of {price}: {energy}")?;
    println!(rt; "      Start-Up Fee, as the unit {before} in the hour before: {start_up}")?;
    println!(rt; "      No-Load Fee: {no_load}")?;
    println!(rt; "      the energy's value at the LMP of {lmp}: {value}")?;
    Ok(Amounts {
        energy,
        start_up,
        no_load,
        value,
    })
}

/// Whether an hour is scheduled.
fn is_scheduled(hour: &DayAheadHour) -> bool {
    hour.cleared_kwh > 0 && !hour.self_scheduled
}

/// The pools of the hours that share the credit, with their kWh; an hour that does not share weighs nothing.
fn hours_of(resource: &ResourceRecord) -> [Portion<usize>; HOURS] {
    day_ahead_hours(resource).map(|hour| {
        if is_scheduled(&hour) {
            let pool = pool_of(Market::DayAhead, hour.flag, resource.region);
            Portion::new(pool, hour.cleared_kwh)
        } else {
            Portion::default()
        }
    })
}
