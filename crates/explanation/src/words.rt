//! Findings in words.
ghost use Rattle.std.specs.Prelude.{Some};
ghost use Rattle.explanation.specs.Texts.{field_text};

use crate::finding::{Count, FieldName, Finding, NamedField, OwnersRule};
use dayfile::{BLOCK, Kind, LONGEST};
use std::fmt;

/// One sentence: the field or rule, what was found, and what is allowed.
impl fmt::Display for Finding {
    fn fmt<W: fmt::Write>(&self, f: &mut fmt::Formatter<W>) -> fmt::Result {
        match *self {
            Finding::Length { bytes } => {
                let length = FileLength(bytes);
                write!(
                    f,
                    "the file has {length}; it must have from {BLOCK} to {LONGEST}, a multiple of {BLOCK}"
                )
            }
            Finding::Check { stated, computed } => {
                write!(
                    f,
                    "the check (bytes 508 to 511) is {stated}; it must be {computed}, the sum over the bytes before it"
                )
            }
            Finding::Kind { found, before } => write_kind(found, before, f),
            Finding::Field {
                field,
                found,
                least,
                most,
            } => write!(f, "{field} is {found}; it must be from {least} to {most}"),
            Finding::Price { field, found, most } => write!(
                f,
                "{field} is {found}; it must be from -{most} to {most}"
            ),
            Finding::Unnamed { byte, found } => write!(
                f,
                "byte {byte}, which no field has, is {found}; it must be 0"
            ),
            Finding::NumberOfResource { found, expected } => {
                write!(
                    f,
                    "the Resource (bytes 4 to 7) is {found}; it must be {expected}, as in the block before it"
                )
            }
            Finding::Rising { name, found, last } => {
                write!(
                    f,
                    "the {name} (bytes 4 to 7) is {found}; it must be above {last}, the last one before it"
                )
            }
            Finding::Owners(rule) => write!(f, "{rule}"),
            Finding::Counts {
                participants,
                resources,
            } => write_counts(participants, resources, f),
            Finding::Other => write!(f, "the bytes of the file do not show what is wrong"),
        }
    }
}

/// How long a file is, as far as the longest that may be.
#[derive(Clone, Copy)]
struct FileLength(usize);

impl fmt::Display for FileLength {
    fn fmt<W: fmt::Write>(&self, f: &mut fmt::Formatter<W>) -> fmt::Result {
        let bytes = self.0;
        if bytes > LONGEST {
            write!(f, "more than {LONGEST} bytes")
        } else {
            write!(f, "{bytes} bytes")
        }
    }
}

fn write_kind<W: fmt::Write>(
    found: u8,
    before: Option<u8>,
    f: &mut fmt::Formatter<W>,
) -> fmt::Result {
    let found = Letter(found);
    match before {
        None => write!(
            f,
            "the kind (byte 0) of the first block is {found}; it must be D"
        ),
        Some(before) => {
            let allowed = allowed_behind(before);
            let before = Letter(before);
            write!(
                f,
                "the kind (byte 0) is {found}; right behind {before} it must be {allowed}"
            )
        }
    }
}

/// The kinds that may stand right behind another.
fn allowed_behind(before: u8) -> &'static str {
    match Kind::of(before) {
        Some(Kind::Day | Kind::Participant) => "P or G",
        Some(Kind::Resource) => "G or R",
        Some(Kind::RealTime) | None => "G",
    }
}

fn write_counts<W: fmt::Write>(
    participants: Count,
    resources: Count,
    f: &mut fmt::Formatter<W>,
) -> fmt::Result {
    let Count { said: p, read: m } = participants;
    let Count { said: g, read: n } = resources;
    write!(
        f,
        "the counts of participants and Resources (bytes 10 and 11) are {p} and {g}; they must be {m} and {n}, as many as the file has"
    )
}

/// The first byte of a block, as a letter where it is one.
#[derive(Clone, Copy)]
struct Letter(u8);

impl fmt::Display for Letter {
    fn fmt<W: fmt::Write>(&self, f: &mut fmt::Formatter<W>) -> fmt::Result {
        let byte = self.0;
        match byte {
            b'A'..=b'Z' => {
                let letter = char::from(byte);
                write!(f, "{letter}")
            }
            _ => write!(f, "the byte {byte}"),
        }
    }
}

impl fmt::Display for OwnersRule {
    fn fmt<W: fmt::Write>(&self, f: &mut fmt::Formatter<W>) -> fmt::Result {
        match *self {
            OwnersRule::Rising { slot, place, last } => {
                write!(
                    f,
                    "the place of owner {slot} is {place}; it must be above {last}, the place of the owner before"
                )
            }
            OwnersRule::Below {
                slot,
                place,
                participants,
            } => {
                write!(
                    f,
                    "the place of owner {slot} is {place}; it must be below {participants}, the count of participants read"
                )
            }
            OwnersRule::Parts { slot } => write!(
                f,
                "the parts of owner {slot} are 0; they must be above 0"
            ),
            OwnersRule::Sum { parts } => write!(
                f,
                "the parts of all owners add up to {parts}; they must add up to 1000000"
            ),
            OwnersRule::Unused { slot, place, parts } => {
                write!(
                    f,
                    "slot {slot} is behind the last owner and has place {place} and parts {parts}; both must be 0"
                )
            }
        }
    }
}

impl fmt::Display for NamedField {
    fn fmt<W: fmt::Write>(&self, f: &mut fmt::Formatter<W>) -> fmt::Result {
        let NamedField {
            name,
            rank,
            byte,
            width,
        } = *self;
        write!(f, "the {name}")?;
        if let Some(series) = name.series() {
            write!(f, " of {series} {rank}")?;
        }
        write_bytes(byte, width, f)
    }
}

fn write_bytes<W: fmt::Write>(
    first: usize,
    width: usize,
    f: &mut fmt::Formatter<W>,
) -> fmt::Result {
    if width > 1 {
        let last = first.saturating_add(width - 1);
        write!(f, " (bytes {first} to {last})")
    } else {
        write!(f, " (byte {first})")
    }
}

impl fmt::Display for FieldName {
    ghost output = { λ name. Some (field_text name) };

    fn fmt<W: fmt::Write>(&self, f: &mut fmt::Formatter<W>) -> fmt::Result {
        f.write_str(match self {
            FieldName::Date => "date",
            FieldName::Version => "version",
            FieldName::ParticipantCount => "count of participants",
            FieldName::ResourceCount => "count of Resources",
            FieldName::Participant => "participant",
            FieldName::DayAheadLoad => "day-ahead load",
            FieldName::RealTimeLoad => "real-time load",
            FieldName::Deviation => "deviation",
            FieldName::NetworkLoad => "network load",
            FieldName::ScrWeight => "SCR weight",
            FieldName::Region => "region",
            FieldName::MinimumRunTime => "Minimum Run Time",
            FieldName::MinimumDownTime => "minimum down time",
            FieldName::Resource => "Resource",
            FieldName::StartUpFee => "Start-Up Fee",
            FieldName::NoLoadFee => "No-Load Fee",
            FieldName::Price => "price",
            FieldName::HoursOnLine => "hours on line at midnight",
            FieldName::OwnerCount => "count of owners",
            FieldName::SelfScheduledHours => "Self-Scheduled hours",
            FieldName::ClearedKwh => "cleared kWh",
            FieldName::DayAheadLmp => "day-ahead LMP",
            FieldName::DayAheadFlag => "day-ahead flag",
            FieldName::EconomicMinimum => "Economic Minimum",
            FieldName::DispatchPoint => "Desired Dispatch Point",
            FieldName::MeteredKwh => "metered kWh",
            FieldName::RealTimeLmp => "real-time LMP",
            FieldName::Event => "event",
            FieldName::RealTimeFlag => "real-time flag",
        })
    }
}

impl FieldName {
    /// What its rank counts, if it stands more than once.
    fn series(self) -> Option<&'static str> {
        match self {
            FieldName::DayAheadLoad | FieldName::RealTimeLoad | FieldName::Deviation => Some(
                "region",
            ),
            FieldName::Price
            | FieldName::ClearedKwh
            | FieldName::DayAheadLmp
            | FieldName::DayAheadFlag
            | FieldName::DispatchPoint
            | FieldName::MeteredKwh
            | FieldName::RealTimeLmp
            | FieldName::Event
            | FieldName::RealTimeFlag => Some("hour"),
            _ => None,
        }
    }
}
