//! The fields of each kind of block, by name.
ghost use Rattle.std.specs.Prelude.{◌≡◌, true};
ghost use Rattle.explanation.specs.Names.{rows_for, row_at, starts, named, steady, all_steady};
ghost use Rattle.explanation.specs.Findings.{told};

use crate::bytes::number_at;
use crate::finding::{FieldName, Finding, NamedField};
use dayfile::Kind;

/// What a field may hold. The rows have names, which the tables that judge a block have not.
#[derive(Clone, Copy)]
pub(crate) enum Content {
    /// A byte that no field has: 0.
    Unnamed,
    /// A number from `least` to `most`.
    Whole {
        name: FieldName,
        least: u32,
        most: u32,
    },
    /// A number in two's complement, from -`most` to `most`.
    Signed {
        name: FieldName,
        most: u32,
    },
}

/// Fields of one name: `count` of them, the first at byte `start`, each `stride` bytes after the last.
#[derive(Clone, Copy)]
pub(crate) struct Row {
    pub(crate) start: usize,
    pub(crate) stride: usize,
    pub(crate) count: usize,
    pub(crate) width: usize,
    pub(crate) content: Content,
}

static DAY: [Row; 6] = [
    Row {
        start: 1,
        stride: 1,
        count: 3,
        width: 1,
        content: Content::Unnamed,
    },
    Row {
        start: 4,
        stride: 4,
        count: 1,
        width: 4,
        content: Content::Whole {
            name: FieldName::Date,
            least: 1,
            most: 60_000,
        },
    },
    Row {
        start: 8,
        stride: 2,
        count: 1,
        width: 2,
        content: Content::Whole {
            name: FieldName::Version,
            least: 1,
            most: 999,
        },
    },
    Row {
        start: 10,
        stride: 1,
        count: 1,
        width: 1,
        content: Content::Whole {
            name: FieldName::ParticipantCount,
            least: 1,
            most: 48,
        },
    },
    Row {
        start: 11,
        stride: 1,
        count: 1,
        width: 1,
        content: Content::Whole {
            name: FieldName::ResourceCount,
            least: 0,
            most: 24,
        },
    },
    Row {
        start: 12,
        stride: 1,
        count: 496,
        width: 1,
        content: Content::Unnamed,
    },
];

static PARTICIPANT: [Row; 8] = [
    Row {
        start: 1,
        stride: 1,
        count: 3,
        width: 1,
        content: Content::Unnamed,
    },
    Row {
        start: 4,
        stride: 4,
        count: 1,
        width: 4,
        content: Content::Whole {
            name: FieldName::Participant,
            least: 1,
            most: 999_999,
        },
    },
    Row {
        start: 8,
        stride: 12,
        count: 8,
        width: 4,
        content: Content::Whole {
            name: FieldName::DayAheadLoad,
            least: 0,
            most: 10_000_000,
        },
    },
    Row {
        start: 12,
        stride: 12,
        count: 8,
        width: 4,
        content: Content::Whole {
            name: FieldName::RealTimeLoad,
            least: 0,
            most: 10_000_000,
        },
    },
    Row {
        start: 16,
        stride: 12,
        count: 8,
        width: 4,
        content: Content::Whole {
            name: FieldName::Deviation,
            least: 0,
            most: 10_000_000,
        },
    },
    Row {
        start: 104,
        stride: 4,
        count: 1,
        width: 4,
        content: Content::Whole {
            name: FieldName::NetworkLoad,
            least: 0,
            most: 10_000_000,
        },
    },
    Row {
        start: 108,
        stride: 4,
        count: 1,
        width: 4,
        content: Content::Whole {
            name: FieldName::ScrWeight,
            least: 0,
            most: 10_000_000,
        },
    },
    Row {
        start: 112,
        stride: 1,
        count: 396,
        width: 1,
        content: Content::Unnamed,
    },
];

static RESOURCE: [Row; 15] = [
    Row {
        start: 1,
        stride: 1,
        count: 1,
        width: 1,
        content: Content::Whole {
            name: FieldName::Region,
            least: 1,
            most: 8,
        },
    },
    Row {
        start: 2,
        stride: 1,
        count: 1,
        width: 1,
        content: Content::Whole {
            name: FieldName::MinimumRunTime,
            least: 0,
            most: 24,
        },
    },
    Row {
        start: 3,
        stride: 1,
        count: 1,
        width: 1,
        content: Content::Whole {
            name: FieldName::MinimumDownTime,
            least: 0,
            most: 24,
        },
    },
    Row {
        start: 4,
        stride: 4,
        count: 1,
        width: 4,
        content: Content::Whole {
            name: FieldName::Resource,
            least: 1,
            most: 999_999,
        },
    },
    Row {
        start: 8,
        stride: 4,
        count: 1,
        width: 4,
        content: Content::Whole {
            name: FieldName::StartUpFee,
            least: 0,
            most: 100_000_000,
        },
    },
    Row {
        start: 12,
        stride: 4,
        count: 1,
        width: 4,
        content: Content::Whole {
            name: FieldName::NoLoadFee,
            least: 0,
            most: 10_000_000,
        },
    },
    Row {
        start: 16,
        stride: 4,
        count: 24,
        width: 4,
        content: Content::Signed {
            name: FieldName::Price,
            most: 200_000,
        },
    },
    Row {
        start: 112,
        stride: 1,
        count: 1,
        width: 1,
        content: Content::Whole {
            name: FieldName::HoursOnLine,
            least: 0,
            most: 255,
        },
    },
    Row {
        start: 113,
        stride: 1,
        count: 1,
        width: 1,
        content: Content::Whole {
            name: FieldName::OwnerCount,
            least: 1,
            most: 8,
        },
    },
    Row {
        start: 114,
        stride: 1,
        count: 2,
        width: 1,
        content: Content::Unnamed,
    },
    Row {
        start: 116,
        stride: 4,
        count: 1,
        width: 4,
        content: Content::Whole {
            name: FieldName::SelfScheduledHours,
            least: 0,
            most: 16_777_215,
        },
    },
    Row {
        start: 168,
        stride: 4,
        count: 24,
        width: 4,
        content: Content::Whole {
            name: FieldName::ClearedKwh,
            least: 0,
            most: 2_000_000,
        },
    },
    Row {
        start: 264,
        stride: 4,
        count: 24,
        width: 4,
        content: Content::Signed {
            name: FieldName::DayAheadLmp,
            most: 200_000,
        },
    },
    Row {
        start: 360,
        stride: 1,
        count: 24,
        width: 1,
        content: Content::Whole {
            name: FieldName::DayAheadFlag,
            least: 0,
            most: 2,
        },
    },
    Row {
        start: 384,
        stride: 1,
        count: 124,
        width: 1,
        content: Content::Unnamed,
    },
];

static REAL_TIME: [Row; 9] = [
    Row {
        start: 1,
        stride: 1,
        count: 3,
        width: 1,
        content: Content::Unnamed,
    },
    Row {
        start: 4,
        stride: 4,
        count: 1,
        width: 4,
        content: Content::Whole {
            name: FieldName::Resource,
            least: 1,
            most: 999_999,
        },
    },
    Row {
        start: 8,
        stride: 4,
        count: 1,
        width: 4,
        content: Content::Whole {
            name: FieldName::EconomicMinimum,
            least: 0,
            most: 2_000_000,
        },
    },
    Row {
        start: 12,
        stride: 12,
        count: 24,
        width: 4,
        content: Content::Whole {
            name: FieldName::DispatchPoint,
            least: 0,
            most: 2_000_000,
        },
    },
    Row {
        start: 16,
        stride: 12,
        count: 24,
        width: 4,
        content: Content::Whole {
            name: FieldName::MeteredKwh,
            least: 0,
            most: 2_000_000,
        },
    },
    Row {
        start: 20,
        stride: 12,
        count: 24,
        width: 4,
        content: Content::Signed {
            name: FieldName::RealTimeLmp,
            most: 200_000,
        },
    },
    Row {
        start: 300,
        stride: 1,
        count: 24,
        width: 1,
        content: Content::Whole {
            name: FieldName::Event,
            least: 0,
            most: 5,
        },
    },
    Row {
        start: 324,
        stride: 1,
        count: 24,
        width: 1,
        content: Content::Whole {
            name: FieldName::RealTimeFlag,
            least: 0,
            most: 3,
        },
    },
    Row {
        start: 348,
        stride: 1,
        count: 160,
        width: 1,
        content: Content::Unnamed,
    },
];

/// The fields of a block that begins with a letter: D, P, G, and R otherwise.
pub(crate) fn rows_for(letter: u8) -> &'static [Row]
    ensures rows { result.now ≡ rows_for letter }
    ensures steady { all_steady result.now ≡ true }
{
    match Kind::of(letter) {
        Some(Kind::Day) => &DAY,
        Some(Kind::Participant) => &PARTICIPANT,
        Some(Kind::Resource) => &RESOURCE,
        Some(Kind::RealTime) | None => &REAL_TIME,
    }
}

/// The row of the field that starts at a byte, if one does.
pub(crate) fn row_at(rows: &[Row], byte: usize) -> Option<Row>
    requires { all_steady rows.now ≡ true }
    ensures { result ≡ row_at rows.now byte }
{
    // A loop and not `find`: what `has` asks of a row is known of the rows here, and not in a closure.
    for row in rows {
        if row.has(byte) {
            return Some(*row);
        }
    }
    None
}

impl Row {
    /// Whether one of its fields starts at a byte.
    fn has(&self, byte: usize) -> bool
        requires { steady self.now ≡ true }
        ensures { result ≡ starts self.now byte }
    {
        self.start <= byte
            && byte < self.start + self.count * self.stride
            && (byte - self.start) % self.stride == 0
    }

    /// What its field at a byte of a block holds, and what it may hold.
    pub(crate) fn tell(&self, block: &[u8], byte: usize) -> Finding
        requires { (steady self.now ≡ true) × (starts self.now byte ≡ true) }
        ensures { result ≡ told self.now byte block.now }
    {
        let found = number_at(block, byte, self.width);
        match self.content {
            Content::Unnamed => Finding::Unnamed { byte, found },
            Content::Whole { name, least, most } => Finding::Field {
                field: self.field(name, byte),
                found,
                least,
                most,
            },
            Content::Signed { name, most } => Finding::Price {
                field: self.field(name, byte),
                found: found.cast_signed(),
                most,
            },
        }
    }

    /// Its field at a byte.
    fn field(&self, name: FieldName, byte: usize) -> NamedField
        requires { (steady self.now ≡ true) × (starts self.now byte ≡ true) }
        ensures { result ≡ named self.now name byte }
    {
        NamedField {
            name,
            rank: (byte - self.start) / self.stride + 1,
            byte,
            width: self.width,
        }
    }
}
