//! An hour's cents divided over a Resource's owners.
ghost use Rattle.std.specs.Prelude.{◌≡◌, ℕ, ◌+◌, ◌<◌, ◌≤◌, map, length, if◌then◌else◌, sum, nat_eq, refl};
ghost use Rattle.std.specs.List.{AllByRecursion};
ghost use Rattle.credits.specs.Weighing.{cut, cut_light, placed_at, placed_below};
ghost use Rattle.credits.specs.Grids.{amount, Below};
ghost use Rattle.credits.specs.Owning.{owned_cents, booked};

use crate::amounts::Pool;
use crate::owner::OwnerShare;
use crate::table::Table;
use division::{HEAVIEST, Placed, Weighted, divide};

/// The last place of a participant.
const LAST_PLACE: u16 = 47;

// No Portion of division: an owner also names its participant's place.
impl Weighted for OwnerShare {
    ghost weighs = { λ o. cut o.parts };

    ghost holds = { λ o. o.cents };

    ghost given = { λ o cents. record { place = o.place; parts = o.parts; cents = cents } };

    ghost lawful = { record { light = λ o. cut_light o.parts; holding = λ _ _. refl; weighing = λ _ _. refl; again = λ _ _ _. refl; back = λ _. refl } };

    fn weight(&self) -> u32 {
        self.parts.min(HEAVIEST)
    }

    fn take(&mut self, cents: u64) {
        self.cents = cents;
    }
}

impl Placed for OwnerShare {
    ghost stands = { λ o. placed_at o.place };

    ghost placing = { record { below = λ o. placed_below o.place } };

    fn place(&self) -> usize {
        usize::from(self.place.min(LAST_PLACE))
    }
}

/// A placed record that tells the share that it holds.
trait Sharing: Placed {
    /// The cents that it holds as its share.
    fn share(&self) -> u64
        ensures { result ≡ Self.Weighted.holds self.now };
}

impl Sharing for OwnerShare {
    fn share(&self) -> u64 {
        self.cents
    }
}

/// Books each record's share to its participant's place, in a pool.
fn book<T: Sharing>(records: &[T], pool: Pool, amounts: &mut Table)
    requires few { length records.now ≤ 48 }
    requires small { (Below 1000000000000000000 amounts.old.rows) × (AllByRecursion (λ x. T.Weighted.holds x ≤ 100000000000) records.now) }
    ensures { (i p : ℕ) → i < 48 → 1 ≤ p → p ≤ 21 → amount amounts.new.rows i p ≡ amount amounts.old.rows i p + (if nat_eq p pool.number then booked T.Placed.stands T.Weighted.holds i records.now else 0) }
{
    for record in records {
        amounts.add(record.place(), pool, record.share());
    }
}

/// Divides cents over owners, and books each one's share to its place in a pool.
pub(crate) fn share_out(cents: u64, pool: Pool, owners: &mut [OwnerShare], amounts: &mut Table)
    requires owners { (length owners.old ≤ 8) × ((AllByRecursion (λ o. o.place < 48) owners.old) × (sum (map (λ o. o.parts) owners.old) ≡ 1000000)) }
    requires small { (Below 500000000000000000 amounts.old.rows) × (cents ≤ 100000000000) }
    ensures grown { (most : ℕ) → Below most amounts.old.rows → Below (most + 100000000000) amounts.new.rows }
    ensures booked { (i p : ℕ) → i < 48 → 1 ≤ p → p ≤ 21 → amount amounts.new.rows i p ≡ amount amounts.old.rows i p + (if nat_eq p pool.number then owned_cents i (map (λ o. o.place) owners.old) (map (λ o. o.parts) owners.old) cents else 0) }
    ensures same_places { map (λ o. o.place) owners.new ≡ map (λ o. o.place) owners.old }
    ensures same_parts { map (λ o. o.parts) owners.new ≡ map (λ o. o.parts) owners.old }
{
    if cents > 0 {
        // owners have parts, so that nothing is left undivided
        let _ = divide(cents, owners);
        book(owners, pool, amounts);
    }
}
