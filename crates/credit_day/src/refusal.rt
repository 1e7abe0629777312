//! Refusals: the number on standard output, the place and the reason on standard error.
use credits::{DEAREST_POOL, Grid, hourly_allocation};
use dayfile::{AdmittedDay, Fault, Place, Record};
use explanation::{PlaceLines, PoolName, explain, first_misfit};
use std::io;

/// Tells that a file is refused.
pub fn refuse_file(rt: &(impl Print + Eprint), fault: Fault, file: &[u8]) -> io::Result<()> {
    tell_fault(rt, fault)?;
    tell_place(rt, fault.place())?;
    eprintln!(rt; "{}", explain(fault, file))
}

/// Tells that the credits of a day are refused.
pub fn refuse_credits(
    rt: &(impl Print + Eprint),
    fault: Fault,
    day: &AdmittedDay<'_>,
) -> io::Result<()> {
    tell_fault(rt, fault)?;
    match fault {
        Fault::Event { block, .. } => tell_event(rt, day, block),
        Fault::PoolCost { pool } => tell_cost(rt, day, usize::from(pool)),
        _ => tell_place(rt, fault.place()),
    }
}

/// Tells that the grid of a Resource is refused.
pub fn refuse_grid(
    rt: &(impl Print + Eprint),
    fault: Fault,
    day: &AdmittedDay<'_>,
    resource: u32,
) -> io::Result<()> {
    tell_fault(rt, fault)?;
    match (fault, real_time_block(day, resource)) {
        (Fault::NoResource, _) => eprintln!(rt; "no Resource of the day has this number"),
        (_, Some(block)) => tell_event(rt, day, block),
        _ => Ok(()),
    }
}

/// Tells the refusal's number and its layer.
fn tell_fault(rt: &(impl Print + Eprint), fault: Fault) -> io::Result<()> {
    println!(rt; "refused {}", fault.number())?;
    eprintln!(rt; "layer {}", fault.layer())
}

/// Tells what a refusal says besides, a line for each number.
fn tell_place(rt: &impl Eprint, place: Place) -> io::Result<()> {
    eprint!(rt; "{}", PlaceLines(place))
}

/// Tells the first event of a real-time block that may not follow those before it.
fn tell_event(rt: &impl Eprint, day: &AdmittedDay<'_>, block: usize) -> io::Result<()> {
    let resource = day.record(block.saturating_sub(1));
    let real_time = day.record(block);
    if let (Some(Record::Resource(resource)), Some(Record::RealTime(real_time))) = (
        resource, real_time,
    ) {
        if let Some(misfit) = first_misfit(resource.hours_on_line, &real_time.events) {
            let hour = misfit.hour;
            tell_place(rt, Place::Hour { block, hour })?;
            eprintln!(rt; "{misfit}")?;
        }
    }
    Ok(())
}

/// Tells what a pool costs, and what it may cost.
fn tell_cost(rt: &impl Eprint, day: &AdmittedDay<'_>, pool: usize) -> io::Result<()> {
    let cost = cost_of(day, pool);
    let name = PoolName(pool);
    eprintln!(rt; "pool {pool}")?;
    eprintln!(rt;
        "the credits in pool {pool}, {name}, add up to {cost} cents; they must add up to at most {DEAREST_POOL}"
    )
}

/// What the hours of all Resources bring into a pool.
fn cost_of(day: &AdmittedDay<'_>, pool: usize) -> u64 {
    day.iter()
        .map(|block| match block.record() {
            Record::Resource(resource) => cost_of_resource(day, resource.number, pool),
            _ => 0,
        })
        .fold(0, u64::saturating_add)
}

/// What the hours of a Resource bring into a pool.
fn cost_of_resource(day: &AdmittedDay<'_>, number: u32, pool: usize) -> u64 {
    let mut grid = Grid::empty();
    // no event of a day that is refused for a pool's cost is refused
    let _ = hourly_allocation(day, number, &mut grid);
    grid.hours
        .iter()
        .map(|hour| hour.in_pool(pool))
        .fold(0, u64::saturating_add)
}

/// The real-time block of a Resource, if the day has one.
fn real_time_block(day: &AdmittedDay<'_>, number: u32) -> Option<usize> {
    day.iter().position(
        |block| matches!(block.record(), Record::RealTime(real_time) if real_time.number == number),
    )
}
