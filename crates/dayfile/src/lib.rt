//! The day file: one operating day's participants and Resources in blocks of 512 bytes.
#![tactic(auto)]

mod admitted;
mod before;
mod block;
mod blocks;
mod bytes;
mod day;
mod fault;
mod file;
mod judge;
mod kind;
mod layout;
mod owners;
mod parts;
mod read;
mod record;
mod write;

pub use admitted::write_day;
pub use block::Block;
pub use blocks::Blocks;
pub use bytes::{byte_at, half_at, word_at};
pub use day::AdmittedDay;
pub use fault::{Fault, Layer, Place};
pub use file::{BLOCK, LONGEST, admit, read_block};
pub use kind::Kind;
pub use layout::check_of;
pub use owners::{PLACES, WHOLE};
pub use record::{
    DayRecord, Event, Flag, HOURS, Load, OWNERS, Owner, ParticipantRecord, REGIONS, RealTimeHour,
    RealTimeRecord, Record, ResourceRecord, UnknownNumber,
};
pub use write::write_record;
