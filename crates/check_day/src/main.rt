//! Reads a day file from standard input and says whether it is accepted, and if not, why.
//!
//! All answers go to standard output; a refused file ends the program with status 1.
#![tactic(auto)]

use dayfile::{AdmittedDay, DayRecord, Fault, LONGEST, admit};
use explanation::{PlaceLines, explain};
use std::io;
use std::io::Read;
use std::process::ExitCode;

/// What is read of the input: a byte more than the longest file has, so that a longer one is still refused.
// `credit_day` reads the same in the same lines: a crate for them would be no plainer.
const READ: u64 = LONGEST as u64 + 1;

/// Checks the file on standard input and prints the answer; the status says whether the file is accepted.
fn main(rt: HostRuntime) -> anyhow::Result<ExitCode> {
    let mut bytes = Vec::new(rt.alloc());
    rt.stdin().take(READ).read_to_end(&mut bytes)?;
    let file = bytes.as_slice();
    let mut day = AdmittedDay::built_in();
    if let Err(fault) = admit(file, &mut day) {
        print_refusal(&rt, fault, file)?;
        return Ok(ExitCode::FAILURE);
    }
    print_day(&rt, day.header())?;
    Ok(ExitCode::SUCCESS)
}

fn print_day(rt: &impl Print, day: DayRecord) -> io::Result<()> {
    let DayRecord {
        date,
        version,
        participants,
        resources,
    } = day;
    println!(rt; "accepted")?;
    println!(rt; "day {date} version {version}")?;
    println!(rt; "participants {participants}")?;
    println!(rt; "resources {resources}")
}

/// Prints the refusal's number, its layer, what it tells, and the sentence that explains it.
fn print_refusal(rt: &impl Print, fault: Fault, file: &[u8]) -> io::Result<()> {
    println!(rt; "refused {}", fault.number())?;
    println!(rt; "layer {}", fault.layer())?;
    print!(rt; "{}", PlaceLines(fault.place()))?;
    println!(rt; "{}", explain(fault, file))
}
