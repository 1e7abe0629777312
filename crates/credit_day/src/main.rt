//! Reads a day file from standard input and prints the credits of its participants, or the hourly grid of a Resource.
//!
//! Where the file or the day is refused, standard output has the refusal's number alone and standard error the place and the
//! reason; the program then ends with status 1.
#![tactic(auto)]

mod refusal;
mod show;
mod task;

use credits::{Credits, Grid, credit, hourly_allocation};
use dayfile::{AdmittedDay, LONGEST, admit};
use refusal::{refuse_credits, refuse_file, refuse_grid};
use show::{print_credits, print_grid};
use std::io::Read;
use std::process::ExitCode;
use task::{Task, read_task};

/// What is read of the input: a byte more than the longest file has, so that a longer one is still refused.
// `check_day` reads the same in the same lines: a crate for them would be no plainer.
const READ: u64 = LONGEST as u64 + 1;

/// Does what the arguments ask of the file on standard input; the status says whether it could be done.
fn main(rt: HostRuntime) -> anyhow::Result<ExitCode> {
    let Some(task) = read_task(&rt)? else {
        eprintln!(rt; "say nothing for the credits of the day, or: grid RESOURCE")?;
        return Ok(ExitCode::FAILURE);
    };
    let mut bytes = Vec::new(rt.alloc());
    rt.stdin().take(READ).read_to_end(&mut bytes)?;
    let file = bytes.as_slice();
    let mut day = AdmittedDay::built_in();
    if let Err(fault) = admit(file, &mut day) {
        refuse_file(&rt, fault, file)?;
        return Ok(ExitCode::FAILURE);
    }
    match task {
        Task::Credits => answer_credits(&rt, &day),
        Task::Grid { resource } => answer_grid(&rt, &day, resource),
    }
}

/// Credits the day, prints the credits or the refusal, and says which.
fn answer_credits(rt: &HostRuntime, day: &AdmittedDay<'_>) -> anyhow::Result<ExitCode> {
    let mut credits = Credits::empty();
    if let Err(fault) = credit(day, &mut credits) {
        refuse_credits(rt, fault, day)?;
        return Ok(ExitCode::FAILURE);
    }
    print_credits(rt, day.header(), &credits)?;
    Ok(ExitCode::SUCCESS)
}

/// Allocates the hours of a Resource, prints the grid or the refusal, and says which.
fn answer_grid(rt: &HostRuntime, day: &AdmittedDay<'_>, resource: u32) -> anyhow::Result<ExitCode> {
    let mut grid = Grid::empty();
    if let Err(fault) = hourly_allocation(day, resource, &mut grid) {
        refuse_grid(rt, fault, day, resource)?;
        return Ok(ExitCode::FAILURE);
    }
    print_grid(rt, &grid)?;
    Ok(ExitCode::SUCCESS)
}
