//! The engine's answer to a case.
use crate::book::Case;
use crate::digest::Digest;
use dayfile::{
    AdmittedDay, BLOCK, DayRecord, Fault, Kind, Place, Record, admit, read_block, write_day,
    write_record,
};
use std::fmt;

/// What the engine says to a case.
#[derive(Clone, Copy)]
pub enum Answer {
    /// A file is admitted; `same` if its day written back is the file.
    Accepted {
        day: DayRecord,
        digest: u32,
        same: bool,
    },
    /// A block by itself is read.
    Shows {
        kind: Kind,
        digest: u32,
    },
    /// A record is written.
    Written {
        digest: u32,
    },
}

/// Why the engine refuses a case; shown by its number, layer and place.
#[derive(Clone, Copy)]
pub struct Refusal(pub Fault);

/// Puts a case to the engine; `out` is room for what it writes.
pub fn answer_case(case: &Case, out: &mut [u8]) -> Result<Answer, Fault> {
    match case {
        Case::File(file) => answer_file(file.as_slice(), out),
        Case::Block(block) => answer_block(block.as_slice()),
        Case::Record { record, room } => answer_record(record, *room, out),
    }
}

/// Admits a file, takes in its records and writes the day back.
fn answer_file(file: &[u8], out: &mut [u8]) -> Result<Answer, Fault> {
    let mut day = AdmittedDay::built_in();
    admit(file, &mut day)?;
    let mut digest = Digest::default();
    for block in &day {
        digest.add(&block.record());
    }
    write_day(&day, out)?;
    Ok(Answer::Accepted {
        day: day.header(),
        digest: digest.value,
        same: out.starts_with(file),
    })
}

/// Reads a block by itself.
fn answer_block(block: &[u8]) -> Result<Answer, Fault> {
    let block = <&[u8; BLOCK]>::try_from(block).map_err(|_| Fault::Length)?;
    let record = read_block(block)?.record();
    let mut digest = Digest::default();
    digest.add(&record);
    Ok(Answer::Shows {
        kind: record.kind(),
        digest: digest.value,
    })
}

/// Writes a record into so much room; written, it fills the first block of it.
fn answer_record(record: &Record, room: usize, out: &mut [u8]) -> Result<Answer, Fault> {
    let room = room.min(out.len());
    write_record(record, &mut out[..room])?;
    let mut digest = Digest::default();
    digest.add_all(&out[..room.min(BLOCK)]);
    Ok(Answer::Written {
        digest: digest.value,
    })
}

impl fmt::Display for Answer {
    fn fmt<W: fmt::Write>(&self, f: &mut fmt::Formatter<W>) -> fmt::Result {
        match *self {
            Answer::Accepted { day, digest, same } => {
                let DayRecord {
                    date,
                    version,
                    participants,
                    resources,
                } = day;
                let same = if same { "same" } else { "other" };
                write!(
                    f,
                    "accepted {date} {version} {participants} {resources} {digest} {same}"
                )
            }
            Answer::Shows { kind, digest } => {
                let letter = char::from(kind.letter());
                write!(f, "shows {letter} {digest}")
            }
            Answer::Written { digest } => write!(f, "written {digest}"),
        }
    }
}

impl fmt::Display for Refusal {
    fn fmt<W: fmt::Write>(&self, f: &mut fmt::Formatter<W>) -> fmt::Result {
        let fault = self.0;
        write!(f, "refused {} {}", fault.number(), fault.layer())?;
        match fault.place() {
            Place::Block { block } => write!(f, " {block}"),
            Place::Field { block, byte } => write!(f, " {block} {byte}"),
            Place::Byte { byte } => write!(f, " {byte}"),
            _ => Ok(()),
        }
    }
}
