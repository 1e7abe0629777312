//! Writing a record as a block.
ghost use Rattle.std.specs.Prelude.{◌≡◌, ◌≤◌, ◌++◌, length, take, drop, None, OnOk};
ghost use Rattle.dayfile.specs.declared.record.Record.TheVariants.{Day, Participant, Resource, RealTime};
ghost use Rattle.dayfile.specs.Bytes.{zeros};
ghost use Rattle.dayfile.specs.Records.{record_of, encode, body, day_body, participant_body, resource_body, real_time_body, sealed};
ghost use Rattle.dayfile.specs.Writing.{Fitting, unwritten, Writes, WrittenOnly};
ghost use Rattle.dayfile.specs.Files.{answer, lone_fault};

use crate::bytes::{Part, write_parts};
use crate::fault::Fault;
use crate::file::BLOCK;
use crate::kind::Kind;
use crate::layout::{check_of, field_fault, table_for};
use crate::owners::{PLACES, kept};
use crate::record::{DayRecord, ParticipantRecord, RealTimeRecord, Record, ResourceRecord};

/// Writes a record as a block of 512 bytes at the front of a buffer, or says why not and leaves the buffer as it was.
pub fn write_record(rec: &Record, out: &mut [u8]) -> Result<(), Fault>
    ensures written_or_untouched { Writes rec.now out.old result out.new }
    ensures refused_just_for { WrittenOnly rec.now (length out.old) result }
    ensures reads_back { OnOk result ((lone_fault (take 512 out.new) ≡ None) × (record_of (take 512 out.new) ≡ rec.now)) }
    ensures any_record_decodes { record_of (encode rec.now) ≡ rec.now }
{
    let block = compose(rec);
    refuse(rec, &block, out.len())?;
    overwrite(out, &block);
    Ok(())
}

/// The block of a record, whatever its fields hold.
fn compose(rec: &Record) -> [u8; BLOCK]
    ensures value { result ≡ encode rec.now }
    ensures front { take 508 result ≡ body rec.now }
    ensures fits { Fitting rec.now }
{
    let mut block = [0; BLOCK];
    match rec {
        Record::Day(d) => d.fill(&mut block),
        Record::Participant(p) => p.fill(&mut block),
        Record::Resource(g) => g.fill(&mut block),
        Record::RealTime(r) => r.fill(&mut block),
    }
    seal(&mut block);
    block
}

/// Says why a record that makes this block is not written into so much room.
fn refuse(rec: &Record, block: &[u8; BLOCK], room: usize) -> Result<(), Fault>
    requires { take 508 block.now ≡ body rec.now }
    ensures value { result ≡ answer (unwritten rec.now room) }
{
    if let Some(byte) = field_fault(table_for(rec.kind()), block) {
        return Err(Fault::RecordField { byte });
    }
    if let Record::Resource(g) = rec {
        if !kept(&g.owners, usize::from(g.owner_count), PLACES) {
            return Err(Fault::RecordOwners);
        }
    }
    if room < BLOCK {
        Err(Fault::Room)
    } else {
        Ok(())
    }
}

/// Writes the check behind a block's first 508 bytes.
fn seal(block: &mut [u8; BLOCK])
    ensures { block.new ≡ sealed (take 508 block.old) }
{
    let check = check_of(block);
    check.write(block, 508);
}

/// Copies a block to the front of a buffer.
fn overwrite(out: &mut [u8], block: &[u8; BLOCK])
    requires { 512 ≤ length out.old }
    ensures { out.new ≡ block.now ++ drop 512 out.old }
{
    out[0..BLOCK].copy_from_slice(block);
}

impl DayRecord {
    /// Writes the fields over an empty block.
    #[tactic(auto, using(crate::proofs::Fills::day_filled))]
    fn fill(&self, block: &mut [u8; BLOCK])
        requires { block.old ≡ zeros 512 }
        ensures bytes { block.new ≡ day_body self.now ++ zeros 4 }
        ensures fits { Fitting (Day self.now) }
    {
        block[0] = Kind::Day.letter();
        self.date.write(block, 4);
        self.version.write(block, 8);
        self.participants.write(block, 10);
        self.resources.write(block, 11);
    }
}

impl ParticipantRecord {
    /// Writes the fields over an empty block.
    #[tactic(auto, using(crate::proofs::Fills::participant_filled))]
    fn fill(&self, block: &mut [u8; BLOCK])
        requires { block.old ≡ zeros 512 }
        ensures bytes { block.new ≡ participant_body self.now ++ zeros 4 }
        ensures fits { Fitting (Participant self.now) }
    {
        block[0] = Kind::Participant.letter();
        self.number.write(block, 4);
        write_parts(&self.loads, block, 8);
        self.network_load.write(block, 104);
        self.scr_weight.write(block, 108);
    }
}

impl ResourceRecord {
    /// Writes the fields over an empty block.
    fn fill(&self, block: &mut [u8; BLOCK])
        requires { block.old ≡ zeros 512 }
        ensures bytes { block.new ≡ resource_body self.now ++ zeros 4 }
        ensures fits { Fitting (Resource self.now) }
    {
        block[0] = Kind::Resource.letter();
        self.region.write(block, 1);
        self.minimum_run_hours.write(block, 2);
        self.minimum_down_hours.write(block, 3);
        self.number.write(block, 4);
        self.start_up_cents.write(block, 8);
        self.no_load_cents.write(block, 12);
        write_parts(&self.prices, block, 16);
        self.hours_on_line.write(block, 112);
        self.owner_count.write(block, 113);
        self.self_scheduled.write(block, 116);
        write_parts(&self.owners, block, 120);
        write_parts(&self.cleared_kwh, block, 168);
        write_parts(&self.lmps, block, 264);
        write_parts(&self.flags, block, 360);
    }
}

impl RealTimeRecord {
    /// Writes the fields over an empty block.
    fn fill(&self, block: &mut [u8; BLOCK])
        requires { block.old ≡ zeros 512 }
        ensures bytes { block.new ≡ real_time_body self.now ++ zeros 4 }
        ensures fits { Fitting (RealTime self.now) }
    {
        block[0] = Kind::RealTime.letter();
        self.number.write(block, 4);
        self.economic_minimum_kwh.write(block, 8);
        write_parts(&self.hours, block, 12);
        write_parts(&self.events, block, 300);
        write_parts(&self.flags, block, 324);
    }
}
