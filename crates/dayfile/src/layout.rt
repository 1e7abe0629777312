//! The fields of each kind of block: one table a kind, and one check over it.
ghost use Rattle.std.specs.Prelude.{◌≡◌, ◌+◌, ◌*◌, ◌^◌, ◌<◌, ◌≤◌, ◌⊎◌, ℕ, Bool, true, not, length, take, is_some, Decides, sum};
ghost use Rattle.std.specs.List.{AllByRecursion};
ghost use Rattle.dayfile.specs.declared.layout.Limits.TheVariants.{Whole, Signed};
ghost use Rattle.dayfile.specs.Bytes.{value, weighed};
ghost use Rattle.dayfile.specs.Kinds.{letter};
ghost use Rattle.dayfile.specs.Layout.{allows, entry_fault, first_fault, earlier, sized, all_sized, table_for, Wide};

use crate::bytes::{byte_at, half_at, word_at, word_inside};
use crate::file::BLOCK;
use crate::kind::Kind;

/// What a field may hold.
#[derive(Clone, Copy)]
pub enum Limits {
    /// A byte that no field has: 0.
    Unnamed,
    /// A number from `least` to `most`.
    Whole { least: u32, most: u32 },
    /// A number in two's complement, from -`most` to `most`.
    Signed { most: u32 },
}

/// Fields of equal width and limits: `count` of them, the first at byte `start`, each `stride` bytes after the last.
#[derive(Clone, Copy)]
pub struct Entry {
    pub start: usize,
    pub stride: usize,
    pub count: usize,
    pub width: usize,
    pub limits: Limits,
}

/// A participant's or a Resource's number.
const NUMBER: Limits = Limits::Whole {
    least: 1,
    most: 999_999,
};
/// What a participant is charged by.
const QUANTITY: Limits = Limits::Whole {
    least: 0,
    most: 10_000_000,
};
/// A No-Load Fee, in cents an hour.
const NO_LOAD_FEE: Limits = Limits::Whole {
    least: 0,
    most: 10_000_000,
};
/// A Resource's energy in an hour.
const KWH: Limits = Limits::Whole {
    least: 0,
    most: 2_000_000,
};
/// A price or an LMP, in cents per MWh.
const PRICE: Limits = Limits::Signed { most: 200_000 };

static DAY: [Entry; 6] = [
    Entry {
        start: 1,
        stride: 1,
        count: 3,
        width: 1,
        limits: Limits::Unnamed,
    },
    // date
    Entry {
        start: 4,
        stride: 4,
        count: 1,
        width: 4,
        limits: Limits::Whole {
            least: 1,
            most: 60_000,
        },
    },
    // version
    Entry {
        start: 8,
        stride: 2,
        count: 1,
        width: 2,
        limits: Limits::Whole {
            least: 1,
            most: 999,
        },
    },
    // count of participants
    Entry {
        start: 10,
        stride: 1,
        count: 1,
        width: 1,
        limits: Limits::Whole { least: 1, most: 48 },
    },
    // count of Resources
    Entry {
        start: 11,
        stride: 1,
        count: 1,
        width: 1,
        limits: Limits::Whole { least: 0, most: 24 },
    },
    Entry {
        start: 12,
        stride: 1,
        count: 496,
        width: 1,
        limits: Limits::Unnamed,
    },
];

static PARTICIPANT: [Entry; 6] = [
    Entry {
        start: 1,
        stride: 1,
        count: 3,
        width: 1,
        limits: Limits::Unnamed,
    },
    // participant
    Entry {
        start: 4,
        stride: 4,
        count: 1,
        width: 4,
        limits: NUMBER,
    },
    // for each region: day-ahead load, real-time load, deviation
    Entry {
        start: 8,
        stride: 4,
        count: 24,
        width: 4,
        limits: QUANTITY,
    },
    // network load
    Entry {
        start: 104,
        stride: 4,
        count: 1,
        width: 4,
        limits: QUANTITY,
    },
    // SCR weight
    Entry {
        start: 108,
        stride: 4,
        count: 1,
        width: 4,
        limits: QUANTITY,
    },
    Entry {
        start: 112,
        stride: 1,
        count: 396,
        width: 1,
        limits: Limits::Unnamed,
    },
];

static RESOURCE: [Entry; 15] = [
    // region
    Entry {
        start: 1,
        stride: 1,
        count: 1,
        width: 1,
        limits: Limits::Whole { least: 1, most: 8 },
    },
    // Minimum Run Time
    Entry {
        start: 2,
        stride: 1,
        count: 1,
        width: 1,
        limits: Limits::Whole { least: 0, most: 24 },
    },
    // minimum down time
    Entry {
        start: 3,
        stride: 1,
        count: 1,
        width: 1,
        limits: Limits::Whole { least: 0, most: 24 },
    },
    // Resource
    Entry {
        start: 4,
        stride: 4,
        count: 1,
        width: 4,
        limits: NUMBER,
    },
    // Start-Up Fee
    Entry {
        start: 8,
        stride: 4,
        count: 1,
        width: 4,
        limits: Limits::Whole {
            least: 0,
            most: 100_000_000,
        },
    },
    // No-Load Fee
    Entry {
        start: 12,
        stride: 4,
        count: 1,
        width: 4,
        limits: NO_LOAD_FEE,
    },
    // prices
    Entry {
        start: 16,
        stride: 4,
        count: 24,
        width: 4,
        limits: PRICE,
    },
    // hours on line at midnight
    Entry {
        start: 112,
        stride: 1,
        count: 1,
        width: 1,
        limits: Limits::Whole {
            least: 0,
            most: 255,
        },
    },
    // count of owners
    Entry {
        start: 113,
        stride: 1,
        count: 1,
        width: 1,
        limits: Limits::Whole { least: 1, most: 8 },
    },
    Entry {
        start: 114,
        stride: 1,
        count: 2,
        width: 1,
        limits: Limits::Unnamed,
    },
    // Self-Scheduled hours
    Entry {
        start: 116,
        stride: 4,
        count: 1,
        width: 4,
        limits: Limits::Whole {
            least: 0,
            most: 16_777_215,
        },
    },
    // cleared kWh
    Entry {
        start: 168,
        stride: 4,
        count: 24,
        width: 4,
        limits: KWH,
    },
    // day-ahead LMPs
    Entry {
        start: 264,
        stride: 4,
        count: 24,
        width: 4,
        limits: PRICE,
    },
    // day-ahead flags
    Entry {
        start: 360,
        stride: 1,
        count: 24,
        width: 1,
        limits: Limits::Whole { least: 0, most: 2 },
    },
    Entry {
        start: 384,
        stride: 1,
        count: 124,
        width: 1,
        limits: Limits::Unnamed,
    },
];

static REAL_TIME: [Entry; 9] = [
    Entry {
        start: 1,
        stride: 1,
        count: 3,
        width: 1,
        limits: Limits::Unnamed,
    },
    // Resource
    Entry {
        start: 4,
        stride: 4,
        count: 1,
        width: 4,
        limits: NUMBER,
    },
    // Economic Minimum
    Entry {
        start: 8,
        stride: 4,
        count: 1,
        width: 4,
        limits: KWH,
    },
    // Desired Dispatch Point
    Entry {
        start: 12,
        stride: 12,
        count: 24,
        width: 4,
        limits: KWH,
    },
    // metered kWh
    Entry {
        start: 16,
        stride: 12,
        count: 24,
        width: 4,
        limits: KWH,
    },
    // real-time LMP
    Entry {
        start: 20,
        stride: 12,
        count: 24,
        width: 4,
        limits: PRICE,
    },
    // events
    Entry {
        start: 300,
        stride: 1,
        count: 24,
        width: 1,
        limits: Limits::Whole { least: 0, most: 5 },
    },
    // real-time flags
    Entry {
        start: 324,
        stride: 1,
        count: 24,
        width: 1,
        limits: Limits::Whole { least: 0, most: 3 },
    },
    Entry {
        start: 348,
        stride: 1,
        count: 160,
        width: 1,
        limits: Limits::Unnamed,
    },
];

/// The table of a kind of block.
pub(crate) fn table_for(kind: Kind) -> &'static [Entry]
    ensures table { result.now ≡ table_for (letter kind) }
    ensures sized { all_sized result.now ≡ true }
{
    match kind {
        Kind::Day => &DAY,
        Kind::Participant => &PARTICIPANT,
        Kind::Resource => &RESOURCE,
        Kind::RealTime => &REAL_TIME,
    }
}

impl Limits {
    /// Whether a field may hold a number.
    fn allow(&self, n: u32) -> bool
        ensures { result ≡ allows self.now n }
    {
        match *self {
            Limits::Unnamed => n == 0,
            Limits::Whole { least, most } => least <= n && n <= most,
            Limits::Signed { most } => n <= most || u64::from(n) + u64::from(most) >= 4_294_967_296,
        }
    }
}

/// The number in one, two or four bytes, the lowest byte first.
fn number_at(block: &[u8], at: usize, width: usize) -> u32
    requires { Wide width }
    ensures { result ≡ value at width block.now }
{
    match width {
        1 => u32::from(byte_at(block, at)),
        2 => u32::from(half_at(block, at)),
        _ => word_at(block, at),
    }
}

/// The number in one or four bytes, of which none is past the end.
fn number_inside<const W: usize>(block: &[u8], at: usize) -> u32
    requires { ((W ≡ 1) ⊎ (W ≡ 4)) × (at + W ≤ length block.now) }
    ensures { result ≡ value at W block.now }
{
    if W == 1 {
        u32::from(block[at])
    } else {
        word_inside(block, at)
    }
}

impl Entry {
    /// Where its first faulty field starts.
    fn fault(&self, block: &[u8; BLOCK]) -> Option<usize>
        requires { sized self.now ≡ true }
        ensures { result ≡ entry_fault self.now block.now }
    {
        // as a chain with `find` its proof did not close: that each call may multiply and read is to be shown along the range
        for i in 0..self.count {
            let at = self.start + i * self.stride;
            if !self.limits.allow(number_at(block, at, self.width)) {
                return Some(at);
            }
        }
        None
    }

    /// Whether no field is faulty.
    fn holds(&self, block: &[u8; BLOCK]) -> bool
        requires { sized self.now ≡ true }
        ensures { result ≡ not (is_some (entry_fault self.now block.now)) }
    {
        let end = self.start + self.count * self.stride;
        match (self.limits, self.width) {
            (Limits::Unnamed, _) if self.stride == 1 => all_zero(&block[self.start..end]),
            (Limits::Whole { least, most }, 4) => {
                self.all_pass::<4, _>(block, |n| (least <= n) & (n <= most))
            }
            (Limits::Signed { most }, 4) => {
                self.all_pass::<4, _>(
                    block,
                    |n| (n <= most) | (u64::from(n) + u64::from(most) >= 4_294_967_296),
                )
            }
            (Limits::Whole { least, most }, 1) => {
                self.all_pass::<1, _>(block, |n| (least <= n) & (n <= most))
            }
            _ => self.fault(block).is_none(),
        }
    }

    /// Whether each of its fields, of `W` bytes, passes a test, which says what the limits allow.
    /// It looks at every field, since a loop with no way out before its end is the faster one.
    fn all_pass<const W: usize, F: Fn(u32) -> bool>(&self, block: &[u8; BLOCK], passes: F) -> bool
        requires sized { sized self.now ≡ true }
        requires width { (self.now.width ≡ W) × ((W ≡ 1) ⊎ (W ≡ 4)) }
        requires may_be_asked { (n : ℕ) → n < 2 ^ 32 → F.pre passes n }
        requires says_the_limits { (n : ℕ) (yes : Bool) → n < 2 ^ 32 → F.post passes n yes → yes ≡ allows self.now.limits n }
        ensures { result ≡ not (is_some (entry_fault self.now block.now)) }
    {
        let mut bad = false;
        // a loop, as in `fault`
        for i in 0..self.count {
            bad |= !passes(number_inside::<W>(block, self.start + i * self.stride));
        }
        !bad
    }
}

/// Whether all bytes are 0.
fn all_zero(bytes: &[u8]) -> bool
    ensures { Decides result (AllByRecursion (λ b. b ≡ 0) bytes.now) }
{
    bytes.iter().fold(0, |any, b| any | *b) == 0
}

/// The earlier of two places.
pub(crate) fn earlier_of(a: Option<usize>, b: Option<usize>) -> Option<usize>
    ensures { result ≡ earlier a b }
{
    match (a, b) {
        (Some(p), Some(q)) => Some(p.min(q)),
        _ => a.or(b),
    }
}

/// Where the first faulty field of a block starts.
pub(crate) fn field_fault(table: &[Entry], block: &[u8; BLOCK]) -> Option<usize>
    requires { all_sized table.now ≡ true }
    ensures { result ≡ first_fault table.now block.now }
{
    // not a chain, as in `Entry::fault`: each call asks that the entry is sized
    let mut first = None;
    for entry in table {
        if !entry.holds(block) {
            first = earlier_of(first, entry.fault(block));
        }
    }
    first
}

/// The sum of (i + 1) times byte i over a block's first 508 bytes.
///
/// Byte i counts in column i % 16, row after row from the last: a row is added to `once`, and `once` to `often`
/// with each row before it, so that in the end a byte of row j is in `often` j times.
pub fn check_of(block: &[u8; BLOCK]) -> u32
    ensures { result ≡ weighed 0 (take 508 block.now) }
{
    let mut once: [u32; 16] = [0; 16];
    let mut often: [u32; 16] = [0; 16];
    let (rows, last) = block[..508].as_chunks::<16>();
    add_row(&mut once, &mut often, last);
    for row in rows.iter().rev() {
        add_row(&mut once, &mut often, row);
    }
    columns_sum(&once, &often)
}

/// Adds a row of bytes to the columns.
fn add_row(once: &mut [u32; 16], often: &mut [u32; 16], row: &[u8])
    requires { (length row.now ≤ 16) × ((sum once.old + sum row.now < 2 ^ 32) × (sum often.old + sum once.old < 2 ^ 32)) }
    ensures sum { sum once.new ≡ sum once.old + sum row.now }
    ensures weighed { weighed 0 once.new ≡ weighed 0 once.old + weighed 0 row.now }
    ensures often { sum often.new ≡ sum often.old + sum (take (length row.now) once.old) }
{
    // With iter_mut in a zip, a proof knows nothing of the columns after the loop: so they are named by their places.
    for (k, byte) in row.iter().enumerate() {
        often[k] += once[k];
        once[k] += u32::from(*byte);
    }
}

/// The sum of (k + 1) times column k of `once`, and 16 times each of `often`.
fn columns_sum(once: &[u32; 16], often: &[u32; 16]) -> u32
    requires { weighed 0 once.now + 16 * sum often.now < 2 ^ 32 }
    ensures { result ≡ weighed 0 once.now + 16 * sum often.now }
{
    // both at once: with a chain's sum of `often` by itself, admitting a day takes 47 µs in place of 25
    let mut total: u32 = 0;
    for (k, column) in once.iter().enumerate() {
        total += (k as u32 + 1) * *column + 16 * often[k];
    }
    total
}
