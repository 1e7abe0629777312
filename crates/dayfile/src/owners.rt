//! The owners of a Resource.
ghost use Rattle.std.specs.Prelude.{◌≡◌, ◌^◌, ◌<◌, ◌&&◌, length, ◌==◌};
ghost use Rattle.dayfile.specs.Owners.{placed, parts_of, vacant, owners_kept};

use crate::record::Owner;

/// The participants that a day can count: a block by itself may name their places, 0 to 47.
pub const PLACES: usize = 48;

/// What all owners' parts add up to.
pub const WHOLE: u64 = 1_000_000;

/// Whether owners hold some part each, at rising places below a limit, and all of it together.
fn whole(owners: &[Owner], limit: usize) -> bool
    requires { length owners.now < 2 ^ 16 }
    ensures { result ≡ placed 0 limit owners.now && (parts_of owners.now == 1000000) }
{
    let mut least: usize = 0;
    let mut sum: u64 = 0;
    for owner in owners {
        let place = usize::from(owner.place);
        if place < least || place >= limit || owner.parts == 0 {
            return false;
        }
        least = place + 1;
        sum += u64::from(owner.parts);
    }
    sum == WHOLE
}

/// Whether no slot is in use.
fn unused(slots: &[Owner]) -> bool
    ensures { result ≡ vacant slots.now }
{
    slots.iter().all(|slot| *slot == Owner::default())
}

/// Whether the first `count` slots hold owners that keep the rules, and no other slot is in use.
pub(crate) fn kept(owners: &[Owner], count: usize, limit: usize) -> bool
    requires { length owners.now < 2 ^ 16 }
    ensures { result ≡ owners_kept limit count owners.now }
{
    let (used, rest) = owners.split_at(count.min(owners.len()));
    whole(used, limit) && unused(rest)
}
