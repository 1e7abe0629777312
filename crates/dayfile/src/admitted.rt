//! What an admitted day shows: its blocks and records, and its file written back.
ghost use Rattle.std.specs.Prelude.{◌≡◌, ℕ, ◌+◌, ◌-◌, ◌*◌, ◌/◌, ◌%◌, ◌^◌, ◌<◌, ◌≤◌, true, ◌++◌, length, drop, Some, MatchOption, MatchResult};
ghost use Rattle.dayfile.specs.declared.record.Record.TheVariants.{Day};
ghost use Rattle.std.specs.List.{flat_map};
ghost use Rattle.dayfile.specs.Blocks.{Shows, shown};
ghost use Rattle.dayfile.specs.Records.{record_of, encode, day_of};
ghost use Rattle.dayfile.specs.Files.{accepted, block, blocks};
ghost use Rattle.dayfile.specs.Days.{records, record_at, WritesDay, built_in};

use crate::block::Block;
use crate::day::{AdmittedDay, BUILT_IN};
use crate::fault::Fault;
use crate::file::{BLOCK, block_at};
use crate::read::{parts, read_day};
use crate::record::{DayRecord, Record};
use crate::write::write_record;

impl<'f> AdmittedDay<'f> {
    /// The built-in day: one day and one participant, every field least. It fills a place before a file is admitted.
    pub fn built_in() -> AdmittedDay<'f>
        ensures records { records result.file.now ≡ built_in }
        ensures file { result.file.now ≡ flat_map encode built_in }
    {
        AdmittedDay { file: &BUILT_IN }
    }

    /// The day's own record: its date, version and counts.
    pub fn header(&self) -> DayRecord
        ensures value { result ≡ day_of (block self.now.file.now 0) }
        ensures first_record { record_at self.now.file.now 0 ≡ Some (Day result) }
    {
        read_day(&block_at(self.file, 0)[4..12])
    }

    /// How many blocks, and so records, the day has.
    pub fn blocks(&self) -> usize
        ensures { result ≡ blocks self.now.file.now }
    {
        self.file.len() / BLOCK
    }

    /// Block `k`, by its parts.
    pub fn block(&self, k: usize) -> Option<Block<'f>>
        ensures { MatchOption result (blocks self.now.file.now ≤ k) (λ b. (k < blocks self.now.file.now) × Shows (block self.now.file.now k) b × (shown b ≡ record_of (block self.now.file.now k))) }
    {
        if k < self.blocks() {
            parts(block_at(self.file, k))
        } else {
            None
        }
    }

    /// Record `k`.
    pub fn record(&self, k: usize) -> Option<Record>
        ensures { result ≡ record_at self.now.file.now k }
    {
        let block = self.block(k)?;
        Some(block.record())
    }
}

/// Writes the records of a day one after the other at the front of a buffer: the bytes of its file.
/// A buffer shorter than that is refused and left as it was.
pub fn write_day(day: &AdmittedDay<'_>, out: &mut [u8]) -> Result<(), Fault>
    ensures written_or_untouched { WritesDay day.now.file.now out.old result out.new }
    ensures file_again { MatchResult result (λ _. out.new ≡ day.now.file.now ++ drop (length day.now.file.now) out.old) (λ _. out.new ≡ out.old) }
    ensures records_are_the_file { flat_map encode (records day.now.file.now) ≡ day.now.file.now }
{
    if out.len() < day.file.len() {
        return Err(Fault::Room);
    }
    for (k, block) in day.iter().enumerate() {
        // no record of an admitted day is refused
        write_record(&block.record(), &mut out[BLOCK * k..])?;
    }
    Ok(())
}
