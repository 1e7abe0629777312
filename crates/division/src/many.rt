//! Any amount over any number of records: 128-bit arithmetic, ranks by counting.
ghost use Rattle.std.specs.Prelude.{◌≡◌, ◌*◌, ◌<◌, ◌≤◌, ◌&&◌, ◌||◌, map, length, if◌then◌else◌, Some, None, sum, slice_index, ◌==◌, nat_lt};
ghost use Rattle.division.specs.Records.{handed};
ghost use Rattle.division.specs.Division.{indivisible, whole_part, remainder, left_over, rank, share, divided, after_dividing};

use crate::weighted::Weighted;

/// Some cents, and the records over which they are divided, which weigh something.
#[derive(Drop)]
struct Division<'r, T: Weighted> {
    cents: u64,
    records: &'r [T],
    /// What all records weigh.
    total: u128,
    ghost weighed: { (total ≡ sum (map T.Weighted.weighs records.now)) × (0 < total) },
}

impl<T: Weighted> Division<'_, T> {
    /// The exact share of the record at a place, times what all records weigh.
    fn exact(&self, place: usize) -> u128
        requires { place < length self.now.records.now }
        ensures { result ≡ self.now.cents * slice_index (map T.Weighted.weighs self.now.records.now) place }
    {
        u128::from(self.cents) * u128::from(self.records[place].weight())
    }

    /// The whole part of the exact share.
    fn whole_part(&self, place: usize) -> u64
        requires { place < length self.now.records.now }
        ensures { result ≡ whole_part self.now.cents (map T.Weighted.weighs self.now.records.now) place }
    {
        (self.exact(place) / self.total) as u64
    }

    /// What the whole part leaves of the exact share, times what all records weigh.
    fn remainder(&self, place: usize) -> u128
        requires { place < length self.now.records.now }
        ensures { result ≡ remainder self.now.cents (map T.Weighted.weighs self.now.records.now) place }
    {
        self.exact(place) % self.total
    }

    /// The cents that the whole parts leave over.
    fn left_over(&self) -> u64
        ensures { result ≡ left_over self.now.cents (map T.Weighted.weighs self.now.records.now) }
    {
        let places = 0..self.records.len();
        self.cents - places.map(|place| self.whole_part(place)).sum::<u64>()
    }

    /// How many records rank before the one at a place.
    fn rank(&self, place: usize) -> u64
        requires { place < length self.now.records.now }
        ensures { result ≡ rank self.now.cents (map T.Weighted.weighs self.now.records.now) place }
    {
        let own = self.remainder(place);
        let places = 0..self.records.len();
        places
            .filter(|other| ranks_before(own, place, self.remainder(*other), *other))
            .count() as u64
    }

    /// The share of the record at a place.
    fn share(&self, left: u64, place: usize) -> u64
        requires { (place < length self.now.records.now) × (left ≡ left_over self.now.cents (map T.Weighted.weighs self.now.records.now)) }
        ensures { result ≡ share self.now.cents (map T.Weighted.weighs self.now.records.now) place }
    {
        self.whole_part(place) + u64::from(self.rank(place) < left)
    }
}

/// Whether the other record ranks before the own one: its remainder is larger, or as large, and it stands earlier.
fn ranks_before(own: u128, own_place: usize, other: u128, other_place: usize) -> bool
    ensures { result ≡ (nat_lt own other || (own == other && nat_lt other_place own_place)) }
{
    own < other || (own == other && other_place < own_place)
}

/// Each record takes its share.
fn hand_out<T: Weighted>(cents: u64, total: u128, records: &mut [T])
    requires { (total ≡ sum (map T.Weighted.weighs records.old)) × (0 < total) }
    ensures { records.new ≡ handed T.Weighted.given records.old (divided cents (map T.Weighted.weighs records.old)) }
{
    let all = Division {
        cents,
        records,
        total,
    };
    let left = all.left_over();
    // Each share is worked out from all records, so no iterator may hold one of them meanwhile.
    for i in 0..records.len() {
        let all = Division {
            cents,
            records,
            total,
        };
        let share = all.share(left, i);
        records[i].take(share);
    }
}

/// Divides some cents over any number of records.
pub(crate) fn divide_many<T: Weighted>(cents: u64, records: &mut [T]) -> Option<()>
    requires { 0 < cents }
    ensures answer { result ≡ (if indivisible cents (map T.Weighted.weighs records.old) then None else Some tt) }
    ensures after { records.new ≡ after_dividing T.Weighted.weighs T.Weighted.given cents records.old }
{
    let total = records
        .iter()
        .map(|record| u128::from(record.weight()))
        .sum();
    if total == 0 {
        return None;
    }
    hand_out(cents, total, records);
    Some(())
}
