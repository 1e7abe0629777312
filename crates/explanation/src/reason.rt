//! The explanation of a refusal.
ghost use Rattle.std.specs.Prelude.{◌≡◌};
ghost use Rattle.dayfile.specs.Files.{block};
ghost use Rattle.explanation.specs.Findings.{finding, check_finding, field_finding, rising_finding, owners_finding, counts_finding};
ghost use Rattle.explanation.specs.Outside.{Explains};
ghost use Rattle.explanation.specs.Agreement.{FieldsAgree};

use crate::blocks::{block_at, count_before, kind_at, kind_before, last_before, number_before};
use crate::bytes::check_of;
use crate::finding::{Count, FieldName, Finding};
use crate::owners::{broken_rule, owners_of};
use crate::table::{row_at, rows_for};
use dayfile::{BLOCK, Fault, Kind, byte_at, word_at};

/// What breaks the rule of a refusal, found in the bytes of the file.
/// A refusal of another layer, or one that does not fit the bytes, is told as `Other`, or by what stands at its place.
pub fn explain(fault: Fault, file: &[u8]) -> Finding
    ensures found_in_the_bytes { result ≡ finding fault file.now }
    ensures broken_rule_is_told { Explains file.now fault result }
{
    find(fault, file)
}

/// What stands in the file at the place of a refusal.
fn find(fault: Fault, file: &[u8]) -> Finding
    ensures { result ≡ finding fault file.now }
{
    match fault {
        Fault::Length => Finding::Length { bytes: file.len() },
        Fault::Check { block } => explain_check(block_at(file, block)),
        Fault::Order { block } => Finding::Kind {
            found: kind_at(file, block),
            before: kind_before(file, block),
        },
        Fault::Field { block, byte } => explain_field(
            block_at(file, block),
            number_before(file, block),
            byte,
        ),
        Fault::Rising { block } => explain_rising(file, block),
        Fault::Owners { block } => explain_owners(
            block_at(file, block),
            count_before(file, block, Kind::Participant),
        ),
        Fault::Counts => explain_counts(file),
        _ => Finding::Other,
    }
}

/// Its contract says that each field is named with the width and the limits that it is judged by.
pub fn limits_are_those_judged_by() -> bool
    ensures { FieldsAgree }
{
    true
}

/// The check that a block states, and the one that its bytes have.
fn explain_check(block: &[u8]) -> Finding
    ensures { result ≡ check_finding block.now }
{
    Finding::Check {
        stated: word_at(block, 508),
        computed: check_of(block),
    }
}

/// The field of a block that starts at a byte, the block before it bearing a number.
fn explain_field(block: &[u8], before: u32, byte: usize) -> Finding
    ensures { result ≡ field_finding before byte block.now }
{
    let number = word_at(block, 4);
    if byte_at(block, 0) == Kind::RealTime.letter() && byte == 4 && number != before {
        return Finding::NumberOfResource {
            found: number,
            expected: before,
        };
    }
    match row_at(rows_for(byte_at(block, 0)), byte) {
        Some(row) => row.tell(block, byte),
        None => Finding::Other,
    }
}

/// The participant or Resource of block `k`, and the last one before it.
fn explain_rising(file: &[u8], k: usize) -> Finding
    ensures { result ≡ rising_finding k file.now }
{
    let (kind, name) = match Kind::of(kind_at(file, k)) {
        Some(Kind::Participant) => (Kind::Participant, FieldName::Participant),
        _ => (Kind::Resource, FieldName::Resource),
    };
    Finding::Rising {
        name,
        found: word_at(block_at(file, k), 4),
        last: last_before(file, k, kind),
    }
}

/// The rule that the owners of a block break, so many participants having been read.
fn explain_owners(block: &[u8], participants: usize) -> Finding
    ensures { result ≡ owners_finding participants block.now }
{
    broken_rule(
        &owners_of(block),
        usize::from(byte_at(block, 113)),
        participants,
    )
    .map_or(Finding::Other, Finding::Owners)
}

/// The counts that the day's own block says, and those of the blocks.
fn explain_counts(file: &[u8]) -> Finding
    ensures { result ≡ counts_finding file.now }
{
    let blocks = file.len() / BLOCK;
    Finding::Counts {
        participants: Count {
            said: byte_at(file, 10),
            read: count_before(file, blocks, Kind::Participant),
        },
        resources: Count {
            said: byte_at(file, 11),
            read: count_before(file, blocks, Kind::Resource),
        },
    }
}
