//! The rule that the owners of a Resource break.
ghost use Rattle.std.specs.Prelude.{◌≡◌, ◌+◌, ◌^◌, ◌<◌, length, drop};
ghost use Rattle.std.specs.List.{position};
ghost use Rattle.dayfile.specs.Records.{resource_of, owner_from};
ghost use Rattle.explanation.specs.Shares.{used_rule, sum_rule, in_use, unused_rule, owners_rule};

use crate::finding::OwnersRule;
use dayfile::{Owner, WHOLE, half_at, word_at};
use std::array;

/// The first rule that owners break, the first `count` slots being in use and places lying below a limit.
pub(crate) fn broken_rule(owners: &[Owner], count: usize, limit: usize) -> Option<OwnersRule>
    requires { (length owners.now < 2 ^ 16) × (count < 2 ^ 16) }
    ensures { result ≡ owners_rule limit count owners.now }
{
    let (used, rest) = owners.split_at(count.min(owners.len()));
    broken_by_one(used, limit)
        .or_else(|| broken_by_sum(used))
        .or_else(|| broken_by_unused(rest, count))
}

/// The first used slot that breaks a rule.
fn broken_by_one(owners: &[Owner], limit: usize) -> Option<OwnersRule>
    requires { length owners.now < 2 ^ 16 }
    ensures { result ≡ used_rule 1 0 limit owners.now }
{
    let mut least: usize = 0;
    for (i, &Owner { place, parts }) in owners.iter().enumerate() {
        let slot = i + 1;
        let at = usize::from(place);
        if at < least {
            return Some(OwnersRule::Rising {
                slot,
                place,
                last: least - 1,
            });
        }
        if at >= limit {
            return Some(OwnersRule::Below {
                slot,
                place,
                participants: limit,
            });
        }
        if parts == 0 {
            return Some(OwnersRule::Parts { slot });
        }
        least = at + 1;
    }
    None
}

/// The rule of the sum of all parts.
fn broken_by_sum(owners: &[Owner]) -> Option<OwnersRule>
    requires { length owners.now < 2 ^ 16 }
    ensures { result ≡ sum_rule owners.now }
{
    let parts = owners.iter().map(|owner| u64::from(owner.parts)).sum();
    (parts != WHOLE).then_some(OwnersRule::Sum { parts })
}

/// The first slot behind the used ones that is not 0.
fn broken_by_unused(slots: &[Owner], used: usize) -> Option<OwnersRule>
    requires { (length slots.now < 2 ^ 16) × (used < 2 ^ 16) }
    ensures { result ≡ unused_rule (used + 1) slots.now }
{
    let first = first_in_use(slots)?;
    let Owner { place, parts } = slots[first];
    Some(OwnersRule::Unused {
        slot: used + 1 + first,
        place,
        parts,
    })
}

/// Which slot is the first that is not 0, from 0.
fn first_in_use(slots: &[Owner]) -> Option<usize>
    ensures { result ≡ position in_use slots.now }
{
    slots.iter().position(|slot| *slot != Owner::default())
}

/// The eight owners of a block.
pub(crate) fn owners_of(block: &[u8]) -> [Owner; 8]
    ensures { result ≡ (resource_of block.now).owners }
{
    array::from_fn(|slot| owner_at(block, 120 + 6 * slot))
}

/// The owner at a place of a block.
fn owner_at(block: &[u8], at: usize) -> Owner
    requires { at < 512 }
    ensures { result ≡ owner_from (drop at block.now) }
{
    Owner {
        place: half_at(block, at),
        parts: word_at(block, at + 2),
    }
}
