//! The real-time credit of a Resource that trips and is restarted, step by step.
use crate::amounts::{Amounts, note_credit};
use crate::commitment::Commitment;
use crate::money::Millicents;
use crate::pools::pool_of;
use crate::share_notes::{note_hours, note_owners};
use credits::Market;
use dayfile::{AdmittedDay, HOURS, RealTimeHour, RealTimeRecord, ResourceRecord};
use division::Portion;
use explanation::EventName;
use small_day::Stop;
use std::{array, io};

/// What the events of a day come to: the hours that end in a pool period, and the fees of the periods.
#[derive(Clone, Copy, Debug)]
struct Walk {
    eligible: [bool; HOURS],
    fees: Millicents,
}

/// Notes how a Resource is credited in real time: its events, its eligible hours, the credit, the hours' cents and the owners'
/// shares. It cleared nothing day-ahead, and is off at the day's end.
pub fn explain_real_time(
    rt: &HostRuntime,
    day: &AdmittedDay<'_>,
    resource: &ResourceRecord,
    real_time: &RealTimeRecord,
) -> Result<(), Stop> {
    let walk = note_events(rt, resource, real_time)?;
    let amounts = note_eligible(rt, resource, real_time, &walk)?;
    let cents = note_credit(rt, 14, amounts)?;
    println!(rt; "")?;
    println!(rt;
        "15. The cents are divided over the eligible hours by their metered kWh; a cent that is left over goes to the largest remainder."
    )?;
    let mut hours = hours_of(resource, real_time, &walk);
    note_hours(rt, day, resource.number, cents, &mut hours)?;
    println!(rt; "")?;
    println!(rt; "16. Each hour's cents are divided over the owners by their parts.")?;
    note_owners(rt, day, resource, &hours)
}

/// Notes what each hour's event does, but for hours in which the Resource stays down.
fn note_events(
    rt: &impl Print,
    resource: &ResourceRecord,
    real_time: &RealTimeRecord,
) -> io::Result<Walk> {
    let minimum = resource.minimum_run_hours;
    println!(rt; "")?;
    println!(rt;
        "12. Each hour's event moves the commitment. The Resource is down at midnight; its Minimum Run Time is {minimum} hours."
    )?;
    let opening = Millicents::of_cents(resource.start_up_cents);
    let mut eligible = [false; HOURS];
    let mut fees = Millicents::default();
    let mut commitment = Commitment::Down;
    for (hour, (event, eligible)) in (1u8..).zip(real_time.events.iter().zip(&mut eligible)) {
        let step = commitment.step(*event, opening, minimum);
        commitment = commitment.after(step);
        *eligible = commitment.is_eligible();
        fees += step.fee();
        if !step.is_idle() {
            let event = EventName(*event);
            println!(rt; "   hour {hour}, {event}: {step}")?;
        }
    }
    Ok(Walk { eligible, fees })
}

/// Notes the eligible hours, and answers their amounts with the fees.
fn note_eligible(
    rt: &impl Print,
    resource: &ResourceRecord,
    real_time: &RealTimeRecord,
    walk: &Walk,
) -> io::Result<Amounts> {
    let minimum = real_time.economic_minimum_kwh;
    println!(rt; "")?;
    println!(rt;
        "13. Hours that end in a pool period are eligible. Nothing cleared in them, so that all their energy counts, and a No-Load Fee."
    )?;
    println!(rt;
        "   Paid at the offer are the metered kWh, but no more than the Dispatch Point, or the Economic Minimum of {minimum} kWh if that is more."
    )?;
    let mut amounts = Amounts {
        start_up: walk.fees,
        ..Amounts::default()
    };
    let no_load = Millicents::of_cents(resource.no_load_cents);
    let hours = real_time.hours.iter().zip(&resource.prices);
    for (hour, ((figures, price), eligible)) in (1u8..).zip(hours.zip(&walk.eligible)) {
        if *eligible {
            amounts += note_hour(rt, hour, figures, minimum, *price, no_load)?;
        }
    }
    Ok(amounts)
}

/// Notes an eligible hour, and answers its amounts.
fn note_hour(
    rt: &impl Print,
    hour: u8,
    figures: &RealTimeHour,
    minimum: u32,
    price: i32,
    no_load: Millicents,
) -> io::Result<Amounts> {
    let RealTimeHour {
        dispatch_kwh: dispatch,
        metered_kwh: metered,
        lmp,
    } = *figures;
    let paid = metered.min(dispatch.max(minimum));
    let energy = Millicents::of_energy(price, paid);
    let value = Millicents::of_energy(lmp, metered);
    println!(rt; "   hour {hour}: Dispatch Point {dispatch}, metered {metered}, paid {paid} kWh")?;
    println!(rt;
        "      energy at the offered price of {price}: {energy}; No-Load Fee: {no_load}; value of the metered kWh at the LMP of {lmp}: {value}"
    )?;
    Ok(Amounts {
        energy,
        no_load,
        value,
        ..Amounts::default()
    })
}

/// The pools of the hours that share the credit, with their metered kWh; an hour that does not share weighs nothing.
fn hours_of(
    resource: &ResourceRecord,
    real_time: &RealTimeRecord,
    walk: &Walk,
) -> [Portion<usize>; HOURS] {
    array::from_fn(|hour| {
        if walk.eligible[hour] {
            let pool = pool_of(Market::RealTime, real_time.flags[hour], resource.region);
            Portion::new(pool, real_time.hours[hour].metered_kwh)
        } else {
            Portion::default()
        }
    })
}
