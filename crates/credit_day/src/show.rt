//! Credits and grids as lines.
use credits::{Credits, Grid, PoolAmounts};
use dayfile::DayRecord;
use std::io;

/// Prints the day, a line for each participant and pool with a credit, and the total.
pub fn print_credits(rt: &impl Print, day: DayRecord, credits: &Credits) -> io::Result<()> {
    let DayRecord { date, version, .. } = day;
    println!(rt; "day {date} version {version}")?;
    let rows = &credits.amounts;
    for (participant, amounts) in credits.participants.iter().zip(rows).take(credits.count) {
        print_row(rt, *participant, amounts)?;
    }
    println!(rt; "total {}", total_of(credits))
}

/// Prints the amounts above 0 of a row, each behind the row's number and its pool.
fn print_row(rt: &impl Print, number: u32, amounts: &PoolAmounts) -> io::Result<()> {
    for (pool, cents) in (1u32..).zip(&amounts.cents) {
        if *cents > 0 {
            println!(rt; "{number} {pool} {cents}")?;
        }
    }
    Ok(())
}

/// The sum over all participants and pools. 48 rows of 21 amounts of 64 bits never come near the most that 128 bits hold.
fn total_of(credits: &Credits) -> u128 {
    credits
        .amounts
        .iter()
        .take(credits.count)
        .map(row_total)
        .fold(0, u128::saturating_add)
}

/// The sum over all pools, by `fold`: of a `sum` nothing in a chain says that it fits.
fn row_total(amounts: &PoolAmounts) -> u128 {
    amounts
        .cents
        .iter()
        .map(|cents| u128::from(*cents))
        .fold(0, u128::saturating_add)
}

/// Prints a line for each hour and pool with cents.
pub fn print_grid(rt: &impl Print, grid: &Grid) -> io::Result<()> {
    for (hour, amounts) in (1u32..).zip(&grid.hours) {
        print_row(rt, hour, amounts)?;
    }
    Ok(())
}
