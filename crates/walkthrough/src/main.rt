//! A tour of the day file: a small day is made, written, read back, admitted, damaged and written again.
//!
//! Without an argument the program prints the tour; with the words `examples DIRECTORY` it writes the small day and the
//! damaged ones into that directory.
#![tactic(auto)]

mod damage;
mod examples;
mod show;
mod tour;

use examples::write_examples;
use small_day::{Stop, Task};
use std::process::ExitCode;
use tour::run_tour;

// Each tour has its own `main`, as it has its own tasks; where it stops, `main` says so by the status alone.
fn main(rt: HostRuntime) -> ExitCode {
    match run(&rt) {
        Ok(()) => ExitCode::SUCCESS,
        Err(_) => ExitCode::FAILURE,
    }
}

fn run(rt: &HostRuntime) -> Result<(), Stop> {
    match Task::from_arguments(rt)? {
        Task::Tour => run_tour(rt),
        Task::Examples { directory } => write_examples(rt, directory.as_str()),
    }
}
