//! The four records of a day, as plain values: any record at all can be offered to the writer.

use std::error::Error;
use std::fmt;

/// Regions, of which each has its loads and each Resource one.
pub const REGIONS: usize = 8;
/// Hours of an operating day.
pub const HOURS: usize = 24;
/// Slots for owners in a Resource's record.
pub const OWNERS: usize = 8;

/// The day: its date, version and counts.
#[derive(Clone, Copy, Debug, PartialEq, Eq)]
pub struct DayRecord {
    /// 1 is 1 March 2003.
    pub date: u32,
    pub version: u16,
    pub participants: u8,
    pub resources: u8,
}

/// A participant's loads in one region.
#[derive(Clone, Copy, Debug, Default, PartialEq, Eq)]
pub struct Load {
    pub day_ahead: u32,
    pub real_time: u32,
    pub deviation: u32,
}

/// A participant and what it is charged by.
#[derive(Clone, Copy, Debug, PartialEq, Eq)]
pub struct ParticipantRecord {
    pub number: u32,
    pub loads: [Load; REGIONS],
    pub network_load: u32,
    /// The weight for Special Constraint Resources.
    pub scr_weight: u32,
}

/// An owner: the rank of its participant in the file, from 0, and its parts of a million.
#[derive(Clone, Copy, Debug, Default, PartialEq, Eq)]
pub struct Owner {
    pub place: u16,
    pub parts: u32,
}

/// Why a Resource ran in an hour.
#[derive(Clone, Copy, Debug, Default, PartialEq, Eq)]
pub enum Flag {
    #[default]
    Economic,
    /// Local Second Contingency Protection Resource.
    Lscpr,
    /// Voltage support.
    Var,
    /// Special Constraint Resource; in real time only.
    Scr,
}

/// A number that no flag has, or no event, whichever was asked for.
#[derive(Clone, Copy, Debug, PartialEq, Eq)]
pub struct UnknownNumber(pub u8);

impl fmt::Display for UnknownNumber {
    ghost use Rattle.std.specs.Prelude.{Some};
    ghost use Rattle.dayfile.specs.Records.{unknown_text};

    ghost output = { λ unknown. Some (unknown_text unknown.0) };

    fn fmt<W: fmt::Write>(&self, f: &mut fmt::Formatter<W>) -> fmt::Result {
        write!(f, "the number {} is unknown", self.0)
    }
}

impl Error for UnknownNumber {}

/// A Resource and its day-ahead hours. Prices are in cents per MWh.
#[derive(Clone, Copy, Debug, PartialEq, Eq)]
pub struct ResourceRecord {
    pub region: u8,
    pub minimum_run_hours: u8,
    pub minimum_down_hours: u8,
    pub number: u32,
    pub start_up_cents: u32,
    pub no_load_cents: u32,
    pub prices: [i32; HOURS],
    pub hours_on_line: u8,
    pub owner_count: u8,
    /// Bit 0 is hour 1.
    pub self_scheduled: u32,
    pub owners: [Owner; OWNERS],
    pub cleared_kwh: [u32; HOURS],
    pub lmps: [i32; HOURS],
    pub flags: [Flag; HOURS],
}

/// What happened to a Resource in an hour.
#[derive(Clone, Copy, Debug, Default, PartialEq, Eq)]
pub enum Event {
    #[default]
    Off,
    PoolRun,
    SelfRun,
    Trip,
    IsoRestart,
    OwnRestart,
}

/// A Resource's real-time figures of one hour.
#[derive(Clone, Copy, Debug, Default, PartialEq, Eq)]
pub struct RealTimeHour {
    pub dispatch_kwh: u32,
    pub metered_kwh: u32,
    pub lmp: i32,
}

/// A Resource's real-time hours.
#[derive(Clone, Copy, Debug, PartialEq, Eq)]
pub struct RealTimeRecord {
    pub number: u32,
    pub economic_minimum_kwh: u32,
    pub hours: [RealTimeHour; HOURS],
    pub events: [Event; HOURS],
    pub flags: [Flag; HOURS],
}

/// A record of any of the four kinds.
#[derive(Clone, Copy, Debug, PartialEq, Eq)]
pub enum Record {
    Day(DayRecord),
    Participant(ParticipantRecord),
    Resource(ResourceRecord),
    RealTime(RealTimeRecord),
}
