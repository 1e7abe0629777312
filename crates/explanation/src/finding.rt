//! What an explanation says.

/// What was found, and what is allowed: a case for each rule of the day file.
#[derive(Clone, Copy, Debug, PartialEq, Eq)]
pub enum Finding {
    /// The file has so many bytes.
    Length {
        bytes: usize,
    },
    /// A block states one check, and another is the sum over its bytes.
    Check {
        stated: u32,
        computed: u32,
    },
    /// A block begins with a letter that may not stand behind the block before it, or first; it may be any byte.
    Kind {
        found: u8,
        before: Option<u8>,
    },
    /// A field is not from `least` to `most`.
    Field {
        field: NamedField,
        found: u32,
        least: u32,
        most: u32,
    },
    /// A price or an LMP is not from -`most` to `most`.
    Price {
        field: NamedField,
        found: i32,
        most: u32,
    },
    /// A byte that no field has is not 0.
    Unnamed {
        byte: usize,
        found: u32,
    },
    /// A real-time block does not bear the number of the Resource before it.
    NumberOfResource {
        found: u32,
        expected: u32,
    },
    /// A participant or a Resource is not above the last one.
    Rising {
        name: FieldName,
        found: u32,
        last: u32,
    },
    /// The owners of a Resource break a rule.
    Owners(OwnersRule),
    /// The day's own block counts other participants or Resources than the file has.
    Counts {
        participants: Count,
        resources: Count,
    },
    /// The bytes of the file do not show this refusal.
    Other,
}

/// A field of a block.
#[derive(Clone, Copy, Debug, PartialEq, Eq)]
pub struct NamedField {
    pub name: FieldName,
    /// Its hour or its region, from 1; 1 for a field that stands once.
    pub rank: usize,
    /// Where it starts in the block.
    pub byte: usize,
    /// How many bytes it has.
    pub width: usize,
}

/// The name of a field; prices, kWh, LMPs, flags and events stand once for each hour, loads once for each region.
#[derive(Clone, Copy, Debug, PartialEq, Eq)]
pub enum FieldName {
    Date,
    Version,
    ParticipantCount,
    ResourceCount,
    Participant,
    DayAheadLoad,
    RealTimeLoad,
    Deviation,
    NetworkLoad,
    ScrWeight,
    Region,
    MinimumRunTime,
    MinimumDownTime,
    Resource,
    StartUpFee,
    NoLoadFee,
    Price,
    HoursOnLine,
    OwnerCount,
    SelfScheduledHours,
    ClearedKwh,
    DayAheadLmp,
    DayAheadFlag,
    EconomicMinimum,
    DispatchPoint,
    MeteredKwh,
    RealTimeLmp,
    Event,
    RealTimeFlag,
}

/// A rule that owners break. Owners and their slots count from 1, places from 0.
#[derive(Clone, Copy, Debug, PartialEq, Eq)]
pub enum OwnersRule {
    /// An owner's place is not above the last one's.
    Rising {
        slot: usize,
        place: u16,
        last: usize,
    },
    /// An owner's place is not below the count of participants read.
    Below {
        slot: usize,
        place: u16,
        participants: usize,
    },
    /// An owner has no parts.
    Parts {
        slot: usize,
    },
    /// All owners' parts do not add up to a million.
    Sum {
        parts: u64,
    },
    /// A slot that is not in use is not 0.
    Unused {
        slot: usize,
        place: u16,
        parts: u32,
    },
}

/// How many blocks of a kind the day's own block says, and how many were read.
#[derive(Clone, Copy, Debug, PartialEq, Eq)]
pub struct Count {
    pub said: u8,
    pub read: usize,
}
