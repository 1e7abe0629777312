//! Writing records one after the other.
ghost use Rattle.std.specs.Prelude.{◌≡◌, ◌*◌, ◌++◌, length, drop, OnOk};
ghost use Rattle.std.specs.List.{flat_map};
ghost use Rattle.dayfile.specs.Records.{encode};
ghost use Rattle.small_day.specs.Writing.{WritesRecords};

use dayfile::{BLOCK, Fault, Record, write_record};

/// Writes records one after the other at the front of a buffer; the first that is not written ends it, for its own reason.
pub fn write_records(records: &[Record], out: &mut [u8]) -> Result<(), Fault>
    ensures all_or_those_before { WritesRecords records.now out.old result out.new }
    ensures all { OnOk result (out.new ≡ flat_map encode records.now ++ drop (512 * length records.now) out.old) }
{
    for (k, record) in records.iter().enumerate() {
        write_record(record, &mut out[BLOCK * k..])?;
    }
    Ok(())
}
