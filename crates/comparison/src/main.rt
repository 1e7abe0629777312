//! Runs the engine over the cases of the second calculation, and prints its answer to each in a line.
#![tactic(auto)]

mod answer;
mod book;
mod digest;
mod divisions;
mod entries;
mod reader;
mod values;

use answer::{Refusal, answer_case};
use book::{Case, LONGEST};
use divisions::divide_all;
use entries::Entries;
use std::alloc::Global;
use std::fmt::Write;
use std::fs;

/// The book of cases, and that of divisions; the program is run in the folder where they stand.
const CASES: &str = "cases.bin";

const DIVISIONS: &str = "divisions.bin";

fn main(rt: HostRuntime) -> anyhow::Result<()> {
    let mut lines = String::new(rt.alloc());
    let cases = fs::read(&rt, CASES)?;
    answer_all(cases.as_slice(), rt.alloc(), &mut lines)?;
    let divisions = fs::read(&rt, DIVISIONS)?;
    divide_all(divisions.as_slice(), rt.alloc(), &mut lines)?;
    rt.print(lines.as_str())?;
    Ok(())
}

/// Writes a line for each case: its number from 0, and the engine's answer.
fn answer_all(cases: &[u8], alloc: Global, lines: &mut String) -> anyhow::Result<()> {
    let mut out = vec![in alloc; 0; LONGEST]?;
    // a case has a byte at least, so that there are no more cases than bytes
    for (number, case) in Entries::<Case>::new(cases, alloc)
        .take(cases.len())
        .enumerate()
    {
        match answer_case(&case?, out.as_mut_slice()) {
            Ok(answer) => writeln!(lines, "{number} {answer}")?,
            Err(fault) => writeln!(lines, "{number} {}", Refusal(fault))?,
        }
    }
    Ok(())
}
