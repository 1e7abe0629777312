//! Whole cents divided over weighted records.
ghost use Rattle.std.specs.Prelude.{◌≡◌, map, if◌then◌else◌, Some, None};
ghost use Rattle.division.specs.Records.{handed};
ghost use Rattle.division.specs.Division.{indivisible, divided};
ghost use Rattle.division.specs.Fairness.{Fair};

use crate::few::{MOST_CENTS, MOST_RECORDS, divide_few};
use crate::many::divide_many;
use crate::weighted::Weighted;

/// Divides cents over records: each takes the whole part of cents × weight / all weights, and the cents left over go one
/// each to the largest remainders, of equal ones to the earlier record. Where there are cents, and nothing weighs, it
/// answers `None` and leaves the records as they were.
pub fn divide<T: Weighted>(cents: u64, records: &mut [T]) -> Option<()>
    ensures answer { result ≡ (if indivisible cents (map T.Weighted.weighs records.old) then None else Some tt) }
    ensures untouched { result ≡ None → records.new ≡ records.old }
    ensures shares { result ≡ Some tt → map T.Weighted.holds records.new ≡ divided cents (map T.Weighted.weighs records.old) }
    ensures fair { result ≡ Some tt → Fair cents (map T.Weighted.weighs records.old) (map T.Weighted.holds records.new) }
    ensures only { result ≡ Some tt → records.new ≡ handed T.Weighted.given records.old (map T.Weighted.holds records.new) }
    ensures weights { map T.Weighted.weighs records.new ≡ map T.Weighted.weighs records.old }
{
    if cents == 0 {
        take_nothing(records);
        return Some(());
    }
    if records.len() <= MOST_RECORDS && cents <= MOST_CENTS {
        divide_few(cents, records)
    } else {
        divide_many(cents, records)
    }
}

/// Each record takes a share of 0 cents.
fn take_nothing<T: Weighted>(records: &mut [T])
    ensures { records.new ≡ handed T.Weighted.given records.old (divided 0 (map T.Weighted.weighs records.old)) }
{
    for record in records {
        record.take(0);
    }
}
