//! The tour, step by step.
use crate::damage::{DAMAGES, Damage};
use crate::show::{print_block, print_record};
use dayfile::{AdmittedDay, BLOCK, DayRecord, Record, admit, read_block, word_at, write_day};
use explanation::explain;
use small_day::{BYTES, RECORDS, Stop, small_day, write_records};

pub fn run_tour(rt: &HostRuntime) -> Result<(), Stop> {
    println!(rt; "A small day: from its records to a file, and back.")?;
    let records = small_day();
    show_records(rt, &records)?;
    let file = write_file(rt, &records)?;
    read_blocks(rt, &file)?;
    follow_file(rt, &file)
}

fn show_records(rt: &HostRuntime, records: &[Record; RECORDS]) -> Result<(), Stop> {
    println!(rt; "")?;
    println!(rt; "1. The records of the day; what is not named is 0.")?;
    for record in records {
        print_record(rt, record)?;
    }
    Ok(())
}

fn write_file(rt: &HostRuntime, records: &[Record; RECORDS]) -> Result<[u8; BYTES], Stop> {
    let mut file = [0; BYTES];
    write_records(records, &mut file)?;
    println!(rt; "")?;
    println!(rt;
        "2. Each record is written as a block of {BLOCK} bytes, which begins with its kind and ends with its check."
    )?;
    for (k, block) in file.as_chunks().0.iter().enumerate() {
        show_ends(rt, k, block)?;
    }
    Ok(file)
}

/// Shows with what a block begins and ends.
fn show_ends(rt: &HostRuntime, k: usize, block: &[u8; BLOCK]) -> Result<(), Stop> {
    let kind = char::from(block[0]);
    let check = word_at(block, 508);
    println!(rt; "   block {k}: kind {kind}, check {check}")?;
    Ok(())
}

fn read_blocks(rt: &HostRuntime, file: &[u8; BYTES]) -> Result<(), Stop> {
    println!(rt; "")?;
    println!(rt; "3. Each block is read by itself, and shows its parts of the file.")?;
    for (k, block) in file.as_chunks().0.iter().enumerate() {
        print_block(rt, k, &read_block(block)?)?;
    }
    Ok(())
}

/// Admits the file, has damaged copies of it refused, and writes the admitted day back.
fn follow_file(rt: &HostRuntime, file: &[u8; BYTES]) -> Result<(), Stop> {
    let mut day = AdmittedDay::built_in();
    admit_file(rt, file, &mut day)?;
    damage_file(rt, file)?;
    write_back(rt, &day)
}

fn admit_file<'f>(
    rt: &HostRuntime,
    file: &'f [u8; BYTES],
    day: &mut AdmittedDay<'f>,
) -> Result<(), Stop> {
    admit(file, day)?;
    let DayRecord { date, version, .. } = day.header();
    let blocks = day.blocks();
    println!(rt; "")?;
    println!(rt;
        "4. The whole file is admitted: day {date}, version {version}, {blocks} blocks in order."
    )?;
    Ok(())
}

fn damage_file(rt: &HostRuntime, file: &[u8; BYTES]) -> Result<(), Stop> {
    println!(rt; "")?;
    println!(rt; "5. Damaged, the file is refused: the number, the layer, the place, and why.")?;
    for damage in DAMAGES {
        try_damage(rt, damage, file)?;
    }
    Ok(())
}

/// Damages a copy of the file, has it refused, and explains the refusal.
fn try_damage(rt: &HostRuntime, damage: Damage, file: &[u8; BYTES]) -> Result<(), Stop> {
    println!(rt; "   {damage}:")?;
    let mut copy = *file;
    let damaged = damage.apply(&mut copy);
    let mut day = AdmittedDay::built_in();
    match admit(damaged, &mut day) {
        Ok(()) => println!(rt; "     accepted")?,
        Err(fault) => {
            let finding = explain(fault, damaged);
            println!(rt; "     {fault}")?;
            println!(rt; "     {finding}")?;
        }
    }
    Ok(())
}

fn write_back(rt: &HostRuntime, day: &AdmittedDay<'_>) -> Result<(), Stop> {
    let mut out = [0; BYTES];
    write_day(day, &mut out)?;
    let same = if out.as_slice() == day.file() {
        "the bytes are those of the file"
    } else {
        "the bytes differ from the file"
    };
    println!(rt; "")?;
    println!(rt; "6. The admitted day is written back: {same}.")?;
    Ok(())
}
