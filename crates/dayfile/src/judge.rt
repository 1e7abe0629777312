//! The rules for a block: its check, its place among the others, its fields, its number and its owners.
ghost use Rattle.std.specs.Prelude.{◌≡◌, ◌^◌, ◌<◌, true, option_map, slice_index};
ghost use Rattle.dayfile.specs.Kinds.{letter, told};
ghost use Rattle.dayfile.specs.Files.{nothing, after, checked, known, in_order, untied, rising, above, owned, block_fault, lone_fault, answer};

use crate::before::Before;
use crate::bytes::{read_parts, word_at};
use crate::fault::Fault;
use crate::file::BLOCK;
use crate::kind::Kind;
use crate::layout::{check_of, earlier_of, field_fault, table_for};
use crate::owners::{PLACES, kept};
use crate::record::{OWNERS, Owner};

/// Whether a block's check is the sum over its bytes.
fn is_checked(block: &[u8; BLOCK]) -> bool
    ensures { result ≡ checked block.now }
{
    word_at(block, 508) == check_of(block)
}

/// Whether a kind of block may stand right behind another, or first.
fn may_follow(before: Option<Kind>, kind: Kind) -> bool
    ensures { result ≡ in_order (option_map letter before) (letter kind) }
{
    match kind {
        Kind::Day => before.is_none(),
        Kind::Participant => matches!(before, Some(Kind::Day | Kind::Participant)),
        Kind::Resource => before.is_some(),
        Kind::RealTime => matches!(before, Some(Kind::Resource)),
    }
}

/// Whether a number is above the last one of its kind.
fn is_above(last: Option<u32>, number: u32) -> bool
    ensures { result ≡ above last number }
{
    last.is_none_or(|last| last < number)
}

/// Whether a Resource's owners keep their rules, places lying below a limit.
fn is_owned(block: &[u8; BLOCK], limit: usize) -> bool
    ensures { result ≡ owned limit block.now }
{
    match Kind::of(block[0]) {
        Some(Kind::Resource) => kept(
            &read_parts::<Owner, OWNERS>(&block[120..168]),
            usize::from(block[113]),
            limit,
        ),
        _ => true,
    }
}

/// The first fault of a block by itself.
pub(crate) fn judge_alone(block: &[u8; BLOCK]) -> Result<(), Fault>
    ensures { result ≡ answer (lone_fault block.now) }
{
    if !is_checked(block) {
        return Err(Fault::Check { block: 0 });
    }
    let Some(kind) = Kind::of(block[0]) else {
        return Err(Fault::Order { block: 0 });
    };
    if let Some(byte) = field_fault(table_for(kind), block) {
        return Err(Fault::Field { block: 0, byte });
    }
    if is_owned(block, PLACES) {
        Ok(())
    } else {
        Err(Fault::Owners { block: 0 })
    }
}

impl Before {
    /// What stands before the first block.
    pub(crate) fn nothing() -> Before
        ensures { told result ≡ nothing }
    {
        Before {
            kind: None,
            number: 0,
            participants: 0,
            resources: 0,
            participant: None,
            resource: None,
        }
    }

    /// The first fault of block `k`.
    pub(crate) fn judge(&self, block: &[u8; BLOCK], k: usize) -> Result<(), Fault>
        ensures { result ≡ answer (block_fault (told self.now) k block.now) }
    {
        if !is_checked(block) {
            return Err(Fault::Check { block: k });
        }
        let kind = match Kind::of(block[0]) {
            Some(kind) if may_follow(self.kind, kind) => kind,
            _ => return Err(Fault::Order { block: k }),
        };
        let field = field_fault(table_for(kind), block);
        if let Some(byte) = earlier_of(field, self.untied(block)) {
            return Err(Fault::Field { block: k, byte });
        }
        if !self.is_rising(block) {
            return Err(Fault::Rising { block: k });
        }
        if is_owned(block, self.participants) {
            Ok(())
        } else {
            Err(Fault::Owners { block: k })
        }
    }

    /// The place of the number of an R block that is not that of the block before it.
    fn untied(&self, block: &[u8; BLOCK]) -> Option<usize>
        ensures { result ≡ untied (told self.now) block.now }
    {
        let real_time = Kind::of(block[0]) == Some(Kind::RealTime);
        (real_time && word_at(block, 4) != self.number).then_some(4)
    }

    /// Whether a participant or Resource is above the last one.
    fn is_rising(&self, block: &[u8; BLOCK]) -> bool
        ensures { result ≡ rising (told self.now) block.now }
    {
        match Kind::of(block[0]) {
            Some(Kind::Participant) => is_above(self.participant, word_at(block, 4)),
            Some(Kind::Resource) => is_above(self.resource, word_at(block, 4)),
            _ => true,
        }
    }

    /// Takes note of a block.
    pub(crate) fn note(&mut self, block: &[u8; BLOCK])
        requires { (known (slice_index block.now 0) ≡ true) × ((self.old.participants < 2 ^ 60) × (self.old.resources < 2 ^ 60)) }
        ensures { told self.new ≡ after (told self.old) block.now }
    {
        let number = word_at(block, 4);
        self.kind = Kind::of(block[0]);
        self.number = number;
        match self.kind {
            Some(Kind::Participant) => {
                self.participants += 1;
                self.participant = Some(number);
            }
            Some(Kind::Resource) => {
                self.resources += 1;
                self.resource = Some(number);
            }
            _ => {}
        }
    }
}
