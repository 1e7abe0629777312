//! How a credit's cents go to hours, pools and owners, beside what the engine answers.
use credits::{Credits, Grid, PLACES, POOLS, PoolAmounts, credit, hourly_allocation};
use dayfile::{AdmittedDay, HOURS, ResourceRecord};
use division::{Portion, divide};
use explanation::PoolName;
use small_day::Stop;
use std::io;

/// Divides cents over the hours of a credit, and notes each hour's cents and pool beside the engine's grid.
pub fn note_hours(
    rt: &HostRuntime,
    day: &AdmittedDay<'_>,
    number: u32,
    cents: u64,
    hours: &mut [Portion<usize>; HOURS],
) -> Result<(), Stop> {
    let _ = divide(cents, hours);
    let mut grid = Grid::empty();
    hourly_allocation(day, number, &mut grid)?;
    let kwh = kwh_of(hours);
    for (hour, (part, engine)) in (1u8..).zip(hours.iter().zip(&grid.hours)) {
        note_hour(rt, hour, part, kwh, engine)?;
    }
    Ok(())
}

/// The kWh of all hours that share.
fn kwh_of(hours: &[Portion<usize>; HOURS]) -> u64 {
    hours.iter().fold(
        0,
        |kwh: u64, hour| kwh.saturating_add(u64::from(hour.weight)),
    )
}

/// Notes an hour that shares.
fn note_hour(
    rt: &impl Print,
    hour: u8,
    part: &Portion<usize>,
    of: u64,
    engine: &PoolAmounts,
) -> io::Result<()> {
    let Portion {
        item: pool,
        weight: kwh,
        cents,
    } = *part;
    if kwh == 0 {
        return Ok(());
    }
    let name = PoolName(pool);
    let answer = engine.in_pool(pool);
    println!(rt;
        "   hour {hour}: {kwh} of {of} kWh, {cents} cents in pool {pool}, {name}; hourly_allocation answers {answer}"
    )
}

/// Divides each hour's cents over the owners, notes the shares, and what they add up to beside the engine's credits.
pub fn note_owners(
    rt: &HostRuntime,
    day: &AdmittedDay<'_>,
    resource: &ResourceRecord,
    hours: &[Portion<usize>; HOURS],
) -> Result<(), Stop> {
    let mut booked = [PoolAmounts::none(); PLACES];
    for (hour, part) in (1u8..).zip(hours) {
        if part.weight > 0 {
            note_shares(rt, hour, part, resource, &mut booked)?;
        }
    }
    compare(rt, day, &booked)
}

/// Divides an hour's cents over the owners, notes their shares in the order of places, and books them.
fn note_shares(
    rt: &impl Print,
    hour: u8,
    part: &Portion<usize>,
    resource: &ResourceRecord,
    booked: &mut [PoolAmounts; PLACES],
) -> io::Result<()> {
    let Portion {
        item: pool,
        cents,
        ..
    } = *part;
    let mut owners = resource.owners.map(|owner| Portion::new(
        usize::from(owner.place),
        owner.parts,
    ));
    let _ = divide(cents, &mut owners);
    print!(rt; "   hour {hour}, pool {pool}: {cents}")?;
    let mut sign = "=";
    for owner in &owners {
        if owner.weight > 0 {
            let share = owner.cents;
            print!(rt; " {sign} {share}")?;
            sign = "+";
            book(owner, pool, booked);
        }
    }
    println!(rt; "")
}

/// Adds an owner's cents to its place, in a pool.
fn book(owner: &Portion<usize>, pool: usize, booked: &mut [PoolAmounts; PLACES]) {
    let Portion {
        item: place,
        cents,
        ..
    } = *owner;
    if place < PLACES && pool > 0 && pool <= POOLS {
        let amount = &mut booked[place].cents[pool - 1];
        *amount = amount.saturating_add(cents);
    }
}

/// Notes what was booked beside what the engine credits.
fn compare(
    rt: &HostRuntime,
    day: &AdmittedDay<'_>,
    booked: &[PoolAmounts; PLACES],
) -> Result<(), Stop> {
    let mut credits = Credits::empty();
    credit(day, &mut credits)?;
    println!(rt; "   Added up for each participant and pool:")?;
    for ((number, booked), engine) in credits
        .participants
        .iter()
        .zip(booked)
        .zip(&credits.amounts)
    {
        compare_row(rt, *number, booked, engine)?;
    }
    Ok(())
}

/// Notes a participant's pools.
fn compare_row(
    rt: &impl Print,
    number: u32,
    booked: &PoolAmounts,
    engine: &PoolAmounts,
) -> io::Result<()> {
    // both are asked for a pool by its number; nothing is indexed
    for pool in 1..=POOLS {
        let cents = booked.in_pool(pool);
        let answer = engine.in_pool(pool);
        if cents > 0 || answer > 0 {
            println!(rt;
                "   participant {number}, pool {pool}: {cents} cents; credit answers {answer}"
            )?;
        }
    }
    Ok(())
}
