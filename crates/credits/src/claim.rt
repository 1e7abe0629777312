//! A credit that hours share.
ghost use Rattle.std.specs.Prelude.{◌≤◌, pos, ◌≤ℤ◌};
ghost use Rattle.std.specs.List.{AllByRecursion};
ghost use Rattle.std.proofs.Props.{props};
ghost use Rattle.credits.specs.Allotments.{shared_kwh};

use crate::share::HourShare;

/// A credit in millicents, and the hours of the day, of which some share it.
pub(crate) struct Claim {
    pub(crate) amount: i64,
    pub(crate) hours: [HourShare; 24],
    ghost few: { amount ≤ℤ pos 100000000000000 },
    ghost light: { AllByRecursion (λ x. shared_kwh x ≤ 2000000) hours } by { Prim.hlevel props },
}
