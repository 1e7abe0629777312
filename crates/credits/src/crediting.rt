//! The credits of a day.
ghost use Rattle.std.specs.Prelude.{◌≡◌, ℕ, ◌+◌, ◌^◌, ◌<◌, ◌≤◌, map, length, replicate, Some, None, OnOk, slice_index};
ghost use Rattle.std.specs.List.{range_with_len, AllByRecursion};
ghost use Rattle.credits.specs.Resources.{resources_of};
ghost use Rattle.credits.specs.Grids.{stopped, Allotted, amount, Below};
ghost use Rattle.dayfile.specs.Files.{answer as refused_by};
ghost use Rattle.credits.specs.Crediting.{participants_of, resource_credit, credit_of, event_fault, first_event_fault, cost_fault, column, no_credits, CreditsDay};
ghost use Rattle.credits.specs.Laws.{CreditsAddUp, CostsWithin, LawfulCredits};

use crate::allocation::allocate;
use crate::amounts::{POOLS, Pool, PoolAmounts};
use crate::credits::{Credits, PLACES};
use crate::hourly::HourlyCents;
use crate::owner::OwnerShare;
use crate::owners::share_out;
use crate::pool::Market;
use crate::resource::ResourceDay;
use crate::resources::resources;
use crate::table::Table;
use dayfile::{AdmittedDay, Fault, Record};
use std::array;

/// The most that a pool may cost in a day, in cents.
pub const DEAREST_POOL: u64 = 10_000_000_000;

impl Credits {
    /// No participants, and nothing credited. It fills a place before a day is credited.
    pub fn empty() -> Credits
        ensures { result ≡ no_credits }
    {
        Credits {
            count: 0,
            participants: [0; PLACES],
            amounts: [PoolAmounts::none(); PLACES],
        }
    }
}

/// Adds a Resource's credits to its owners' places, hour by hour.
fn credit_hours(unit: &ResourceDay, cents: &HourlyCents, amounts: &mut Table)
    requires allotted { Allotted unit.now cents.now }
    requires below { Below 100000000000000000 amounts.old.rows }
    ensures grown { (most : ℕ) → Below most amounts.old.rows → Below (most + 4800000000000) amounts.new.rows }
    ensures credited { (i p : ℕ) → i < 48 → 1 ≤ p → p ≤ 21 → amount amounts.new.rows i p ≡ amount amounts.old.rows i p + resource_credit i p unit.now }
{
    // slots that are not in use own nothing
    let mut slots = unit.resource.owners.map(OwnerShare::from);
    let owners = &mut slots[..usize::from(unit.resource.owner_count)];
    // by the hour's number, since each market's pool goes by it too
    for hour in 0..24 {
        share_out(
            cents.day_ahead.cents[hour],
            unit.pool(Market::DayAhead, hour),
            owners,
            amounts,
        );
        share_out(
            cents.real_time.cents[hour],
            unit.pool(Market::RealTime, hour),
            owners,
            amounts,
        );
    }
}

/// Adds a Resource's credits, or tells the hour whose event may not follow.
fn credit_resource(unit: &ResourceDay, amounts: &mut Table) -> Result<(), Fault>
    requires { Below 100000000000000000 amounts.old.rows }
    ensures answer { result ≡ refused_by (event_fault unit.now) }
    ensures grown { (most : ℕ) → Below most amounts.old.rows → Below (most + 4800000000000) amounts.new.rows }
    ensures credited { OnOk result ((i p : ℕ) → i < 48 → 1 ≤ p → p ≤ 21 → amount amounts.new.rows i p ≡ amount amounts.old.rows i p + resource_credit i p unit.now) }
{
    let block = unit.block + 1;
    let cents = allocate(unit).map_err(|event| Fault::Event {
        block,
        hour: event.hour,
    })?;
    credit_hours(unit, &cents, amounts);
    Ok(())
}

/// Adds the credits of all Resources.
fn credit_resources(day: &AdmittedDay<'_>, amounts: &mut Table) -> Result<(), Fault>
    requires { Below 0 amounts.old.rows }
    ensures answer { result ≡ refused_by (first_event_fault (resources_of day.now.file.now)) }
    ensures below { Below 1000000000000000 amounts.new.rows }
    ensures credited { OnOk result ((i p : ℕ) → i < 48 → 1 ≤ p → p ≤ 21 → amount amounts.new.rows i p ≡ credit_of day.now.file.now i p) }
{
    for unit in resources(day) {
        credit_resource(&unit, amounts)?;
    }
    Ok(())
}

/// Refuses a pool that costs more than a sheet holds.
fn check_costs(amounts: &Table) -> Result<(), Fault>
    requires { Below 1000000000000000 amounts.now.rows }
    ensures { result ≡ refused_by (cost_fault (column amounts.now.rows) 21) }
{
    // a pool is asked for its cost by its number; nothing is indexed
    for number in 1..=POOLS {
        if amounts.pool_total(Pool { number }) > DEAREST_POOL {
            return Err(Fault::PoolCost { pool: number as u8 });
        }
    }
    Ok(())
}

/// How many participants a day has.
fn participant_count(day: &AdmittedDay<'_>) -> usize
    ensures { result ≡ length (participants_of day.now.file.now) }
{
    usize::from(day.header().participants)
}

/// The number of the participant at a place, and 0 from the count on.
fn number_at(day: &AdmittedDay<'_>, place: usize) -> u32
    ensures { result ≡ slice_index (participants_of day.now.file.now) place }
{
    if place >= participant_count(day) {
        return 0;
    }
    match day.record(1 + place) {
        Some(Record::Participant(participant)) => participant.number,
        // the block behind those of the day and of the participants before it is a participant's
        _ => 0,
    }
}

/// The participants' numbers by place.
fn numbers(day: &AdmittedDay<'_>) -> [u32; PLACES]
    ensures { result ≡ map (λ i. slice_index (participants_of day.now.file.now) i) (range_with_len 0 48) }
{
    array::from_fn(|place| number_at(day, place))
}

/// Puts a day's credits into the caller's place: the participants, and what each is credited in each pool. Refused, the place
/// stays as it was.
pub fn credit(day: &AdmittedDay<'_>, credits: &mut Credits) -> Result<(), Fault>
    ensures outcome { CreditsDay day.now.file.now credits.old result credits.new }
    ensures adds_up { CreditsAddUp day.now.file.now }
    ensures lawful { AllByRecursion LawfulCredits (resources_of day.now.file.now) }
    ensures costs_within { OnOk result (CostsWithin day.now.file.now) }
{
    let mut amounts = Table::none();
    credit_resources(day, &mut amounts)?;
    check_costs(&amounts)?;
    *credits = Credits {
        count: participant_count(day),
        participants: numbers(day),
        amounts: amounts.rows,
    };
    Ok(())
}
