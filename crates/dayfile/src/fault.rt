//! Why a call is refused: one type for every layer, from the file's length to the hourly grid.
//!
//! A fault is a case of [`Fault`]; it has a number, the layer at which the call stopped, and a place.
//! It is handed up by `?` and keeps all three on its way.
ghost use Rattle.std.specs.Prelude.{◌≡◌};
ghost use Rattle.dayfile.specs.Faults.{number_of, layer_of, place_of};

use std::fmt;

/// The layer at which a call stops.
#[derive(Clone, Copy, Debug, PartialEq, Eq)]
pub enum Layer {
    File,
    Block,
    End,
    Settling,
    Posting,
    Withdrawing,
    Closing,
    Writing,
    Grid,
}

/// What a refusal tells besides its number and layer.
/// Blocks, bytes within a block and rows count from 0, hours and pools from 1.
#[derive(Clone, Copy, Debug, PartialEq, Eq)]
pub enum Place {
    Nowhere,
    Block { block: usize },
    Field { block: usize, byte: usize },
    Byte { byte: usize },
    Hour { block: usize, hour: u8 },
    Pool { pool: u8 },
    Row { row: usize },
}

/// A refusal.
#[derive(Clone, Copy, Debug, PartialEq, Eq)]
pub enum Fault {
    /// 1: the file is empty, no whole number of blocks, or longer than 128 blocks.
    Length,
    /// 2: the block's check is not the sum over its bytes.
    Check { block: usize },
    /// 3: the block's kind is unknown or may not stand here.
    Order { block: usize },
    /// 4: a field is outside its limits, or an unnamed byte is not 0.
    Field { block: usize, byte: usize },
    /// 5: the participant or Resource is not above the last one.
    Rising { block: usize },
    /// 6: the owners break a rule.
    Owners { block: usize },
    /// 7: the counts of participants and Resources are not those of the day's block.
    Counts,
    /// 8: the hour's event may not follow those before it.
    Event { block: usize, hour: u8 },
    /// 9: the pool costs more than a sheet holds.
    PoolCost { pool: u8 },
    /// 10: the tariff has another number of places than the day has participants.
    TariffPlaces,
    /// 11: the pool has a cost and nobody has weight in it.
    PoolWeight { pool: u8 },
    /// 20, posting: the rows are out of order.
    PostingRows,
    /// 12: the settled day and the sheet are not of one date and version.
    OtherSheet,
    /// 13, posting: the date is not after the closed date.
    PostingClosed,
    /// 14: the date is held with this version or a higher one.
    Held { row: usize },
    /// 15: no row is free for the date.
    NoRow,
    /// 20, withdrawing: the rows are out of order.
    WithdrawingRows,
    /// 13, withdrawing: the date is not after the closed date.
    WithdrawingClosed,
    /// 16: the date is not held.
    NotHeld,
    /// 17: the closing date is not after the closed date, or past the last date.
    ClosingDate,
    /// 4, writing: a field of the record is outside its limits.
    RecordField { byte: usize },
    /// 6, writing: the record's owners break a rule.
    RecordOwners,
    /// 18: the buffer is too short.
    Room,
    /// 19: the day has no Resource of this number.
    NoResource,
    /// 8, hourly grid: the Resource's events break a rule.
    GridEvent,
}

impl Fault {
    /// The refusal's number.
    pub fn number(self) -> u8
        ensures { result ≡ number_of self }
    {
        match self {
            Fault::Length => 1,
            Fault::Check { .. } => 2,
            Fault::Order { .. } => 3,
            Fault::Field { .. } | Fault::RecordField { .. } => 4,
            Fault::Rising { .. } => 5,
            Fault::Owners { .. } | Fault::RecordOwners => 6,
            Fault::Counts => 7,
            Fault::Event { .. } | Fault::GridEvent => 8,
            Fault::PoolCost { .. } => 9,
            Fault::TariffPlaces => 10,
            Fault::PoolWeight { .. } => 11,
            Fault::OtherSheet => 12,
            Fault::PostingClosed | Fault::WithdrawingClosed => 13,
            Fault::Held { .. } => 14,
            Fault::NoRow => 15,
            Fault::NotHeld => 16,
            Fault::ClosingDate => 17,
            Fault::Room => 18,
            Fault::NoResource => 19,
            Fault::PostingRows | Fault::WithdrawingRows => 20,
        }
    }

    /// The layer at which the call stopped.
    pub fn layer(self) -> Layer
        ensures { result ≡ layer_of self }
    {
        match self {
            Fault::Length => Layer::File,
            Fault::Check { .. }
            | Fault::Order { .. }
            | Fault::Field { .. }
            | Fault::Rising { .. }
            | Fault::Owners { .. } => Layer::Block,
            Fault::Counts => Layer::End,
            Fault::Event { .. }
            | Fault::PoolCost { .. }
            | Fault::TariffPlaces
            | Fault::PoolWeight { .. } => Layer::Settling,
            Fault::PostingRows
            | Fault::OtherSheet
            | Fault::PostingClosed
            | Fault::Held { .. }
            | Fault::NoRow => Layer::Posting,
            Fault::WithdrawingRows | Fault::WithdrawingClosed | Fault::NotHeld =>
                Layer::Withdrawing,
            Fault::ClosingDate => Layer::Closing,
            Fault::RecordField { .. } | Fault::RecordOwners | Fault::Room => Layer::Writing,
            Fault::NoResource | Fault::GridEvent => Layer::Grid,
        }
    }

    /// What the refusal tells besides.
    pub fn place(self) -> Place
        ensures { result ≡ place_of self }
    {
        match self {
            Fault::Check { block }
            | Fault::Order { block }
            | Fault::Rising { block }
            | Fault::Owners { block } => Place::Block { block },
            Fault::Field { block, byte } => Place::Field { block, byte },
            Fault::Event { block, hour } => Place::Hour { block, hour },
            Fault::PoolCost { pool } | Fault::PoolWeight { pool } => Place::Pool { pool },
            Fault::Held { row } => Place::Row { row },
            Fault::RecordField { byte } => Place::Byte { byte },
            _ => Place::Nowhere,
        }
    }
}

/// The layer in a word, as `block`.
impl fmt::Display for Layer {
    ghost use Rattle.std.specs.Prelude.{Some};
    ghost use Rattle.dayfile.specs.Faults.{layer_text};

    ghost output = { λ layer. Some (layer_text layer) };

    fn fmt<W: fmt::Write>(&self, f: &mut fmt::Formatter<W>) -> fmt::Result {
        f.write_str(match self {
            Layer::File => "file",
            Layer::Block => "block",
            Layer::End => "end",
            Layer::Settling => "settling",
            Layer::Posting => "posting",
            Layer::Withdrawing => "withdrawing",
            Layer::Closing => "closing",
            Layer::Writing => "writing",
            Layer::Grid => "grid",
        })
    }
}

/// The place, as `block 3, byte 8`; nothing for [`Place::Nowhere`].
impl fmt::Display for Place {
    ghost use Rattle.std.specs.Prelude.{Some};
    ghost use Rattle.dayfile.specs.Faults.{place_text};

    ghost output = { λ place. Some (place_text place) };

    fn fmt<W: fmt::Write>(&self, f: &mut fmt::Formatter<W>) -> fmt::Result {
        match *self {
            Place::Nowhere => Ok(()),
            Place::Block { block } => write!(f, "block {block}"),
            Place::Field { block, byte } => write!(f, "block {block}, byte {byte}"),
            Place::Byte { byte } => write!(f, "byte {byte}"),
            Place::Hour { block, hour } => write!(f, "block {block}, hour {hour}"),
            Place::Pool { pool } => write!(f, "pool {pool}"),
            Place::Row { row } => write!(f, "row {row}"),
        }
    }
}

/// The refusal's number, layer and place, as `refused 4, layer block, block 3, byte 8`.
impl fmt::Display for Fault {
    ghost use Rattle.std.specs.Prelude.{Some};
    ghost use Rattle.dayfile.specs.Faults.{fault_text};

    ghost output = { λ fault. Some (fault_text fault) };

    fn fmt<W: fmt::Write>(&self, f: &mut fmt::Formatter<W>) -> fmt::Result {
        let number = self.number();
        let layer = self.layer();
        match self.place() {
            Place::Nowhere => write!(f, "refused {number}, layer {layer}"),
            place => write!(f, "refused {number}, layer {layer}, {place}"),
        }
    }
}

impl std::error::Error for Fault {}
