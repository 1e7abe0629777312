//! A tour of credits, which goes on where the tour of the day file ends: the small day is credited, and a day with a trip and a
//! restart is credited in real time.
//!
//! Without an argument the program prints the tour; with the words `examples DIRECTORY` it writes the example days that have
//! their point in their credits into that directory.
#![tactic(auto)]

mod amounts;
mod commitment;
mod credit_notes;
mod days;
mod examples;
mod money;
mod pools;
mod real_time_notes;
mod restart;
mod restart_tour;
mod share_notes;
mod show;
mod small_tour;

use examples::write_examples;
use restart_tour::run_restart_tour;
use small_day::{Stop, Task};
use small_tour::run_small_tour;
use std::process::ExitCode;

// Each tour has its own `main`, as it has its own tasks; where it stops, `main` says so by the status alone.
fn main(rt: HostRuntime) -> ExitCode {
    match run(&rt) {
        Ok(()) => ExitCode::SUCCESS,
        Err(_) => ExitCode::FAILURE,
    }
}

fn run(rt: &HostRuntime) -> Result<(), Stop> {
    match Task::from_arguments(rt)? {
        Task::Tour => {
            run_small_tour(rt)?;
            run_restart_tour(rt)
        }
        Task::Examples { directory } => write_examples(rt, directory.as_str()),
    }
}
