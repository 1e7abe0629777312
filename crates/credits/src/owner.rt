//! An owner that takes a share.
ghost use Rattle.std.specs.Prelude.{◌≡◌};
ghost use Rattle.credits.specs.Owning.{of_owner};

use dayfile::Owner;

/// An owner of a Resource: its participant's place, its parts of a million, and the cents that it gets.
#[derive(Clone, Copy)]
pub(crate) struct OwnerShare {
    pub(crate) place: u16,
    pub(crate) parts: u32,
    pub(crate) cents: u64,
}

impl From<Owner> for OwnerShare {
    ghost from_gives = { λ owner share. share ≡ of_owner owner };

    fn from(owner: Owner) -> OwnerShare {
        OwnerShare {
            place: owner.place,
            parts: owner.parts,
            cents: 0,
        }
    }
}
