//! At most 48 records and at most 100,000,000,000 cents: 64-bit arithmetic, the cut-off by halving.
ghost use Rattle.std.specs.Prelude.{◌≡◌, ℕ, ◌+◌, ◌-◌, ◌*◌, ◌<◌, ◌≤◌, map, length, if◌then◌else◌, Some, None, sum, slice_index};
ghost use Rattle.division.specs.Records.{handed};
ghost use Rattle.division.specs.Division.{indivisible, left_over, after_dividing};
ghost use Rattle.division.specs.Cuts.{Distinct, wholes, keys, reached, noted, topped};

use crate::portion::HEAVIEST;
use crate::weighted::Weighted;

/// The most records that are divided over in 64-bit arithmetic.
pub(crate) const MOST_RECORDS: usize = 48;

/// The most cents that are divided in 64-bit arithmetic.
pub(crate) const MOST_CENTS: u64 = 100_000_000_000;

/// What all records weigh.
fn weight_of_few<T: Weighted>(records: &[T]) -> u64
    requires { length records.now ≤ MOST_RECORDS }
    ensures value { result ≡ sum (map T.Weighted.weighs records.now) }
    ensures small { result ≤ MOST_RECORDS * HEAVIEST }
{
    records
        .iter()
        .map(|record| u64::from(record.weight()))
        .sum()
}

/// The whole part of a record's exact share, and the key of its remainder.
#[derive(Clone, Copy, Default)]
struct Part {
    whole: u64,
    key: u64,
}

/// A remainder and its place in one number: the larger remainder has the larger key, then the earlier place.
fn key_of(rest: u64, place: usize) -> u64
    requires { (rest ≤ MOST_RECORDS * HEAVIEST) × (place < MOST_RECORDS) }
    ensures { result ≡ rest * 64 + (63 - place) }
{
    rest * 64 + (63 - place as u64)
}

/// Notes the parts of each record. Answers the cents that the whole parts leave over.
fn note_parts<T: Weighted>(cents: u64, total: u64, records: &[T], parts: &mut [Part]) -> u64
    requires sizes { (cents ≤ MOST_CENTS) × (length records.now ≤ MOST_RECORDS) }
    requires weighed { (total ≡ sum (map T.Weighted.weighs records.now)) × ((0 < total) × (total ≤ MOST_RECORDS * HEAVIEST)) }
    requires room { length parts.old ≡ length records.now }
    ensures left { result ≡ left_over cents (map T.Weighted.weighs records.now) }
    ensures parts { parts.new ≡ noted cents (map T.Weighted.weighs records.now) }
{
    let mut left = cents;
    // With iter_mut in a zip, a proof knows nothing of the parts after the loop: so they are named by their places.
    for (i, record) in records.iter().enumerate() {
        let exact = cents * u64::from(record.weight());
        let whole = exact / total;
        parts[i] = Part {
            whole,
            key: key_of(exact % total, i),
        };
        left -= whole;
    }
    left
}

/// How many keys reach a bound.
fn reaching(bound: u64, parts: &[Part]) -> u64
    ensures { result ≡ reached bound (keys parts.now) }
{
    parts.iter().map(|part| u64::from(bound <= part.key)).sum()
}

/// A bound that just `left` of the keys reach, all of which are different and below `above`. It is found by halving.
fn cut_off(left: u64, above: u64, parts: &[Part]) -> u64
    requires different { Distinct (λ i. slice_index (keys parts.now) i) (length (keys parts.now)) }
    requires below { (i : ℕ) → i < length (keys parts.now) → slice_index (keys parts.now) i < above }
    requires few { left < length (keys parts.now) }
    ensures { reached result (keys parts.now) ≡ left }
{
    if left == 0 {
        return above;
    }
    let mut low = 0;
    let mut high = above;
    // a range of numbers is halved, and no slice
    loop {
        let middle = low + (high - low) / 2;
        let count = reaching(middle, parts);
        if count == left {
            return middle;
        }
        if count > left {
            low = middle;
        } else {
            high = middle;
        }
    }
}

/// Each record takes its whole part, and one cent more where its key reaches the bound.
fn hand_out<T: Weighted>(bound: u64, parts: &[Part], records: &mut [T])
    requires room { length parts.now ≡ length records.old }
    requires small { (i : ℕ) → i < length parts.now → slice_index (wholes parts.now) i ≤ MOST_CENTS }
    ensures { records.new ≡ handed T.Weighted.given records.old (topped bound parts.now) }
{
    // As in note_parts: with iter_mut in a zip, a proof knows nothing of the records after the loop.
    for (i, record) in records.iter_mut().enumerate() {
        record.take(parts[i].whole + u64::from(bound <= parts[i].key));
    }
}

/// Divides some cents over a few records.
pub(crate) fn divide_few<T: Weighted>(cents: u64, records: &mut [T]) -> Option<()>
    requires { (0 < cents) × ((cents ≤ MOST_CENTS) × (length records.old ≤ MOST_RECORDS)) }
    ensures answer { result ≡ (if indivisible cents (map T.Weighted.weighs records.old) then None else Some tt) }
    ensures after { records.new ≡ after_dividing T.Weighted.weighs T.Weighted.given cents records.old }
{
    let total = weight_of_few(records);
    if total == 0 {
        return None;
    }
    let mut noted = [Part::default(); MOST_RECORDS];
    let parts = &mut noted[..records.len()];
    let left = note_parts(cents, total, records, parts);
    hand_out(cut_off(left, 64 * total, parts), parts, records);
    Some(())
}
