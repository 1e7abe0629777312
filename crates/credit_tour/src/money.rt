//! Money in millicents.
use std::fmt;
use std::ops::{Add, AddAssign, Sub};

/// An amount in millicents, of which a thousand are a cent. What a day's amounts add up to is far from its limits, at which
/// sums and differences stay.
#[derive(Clone, Copy, Debug, Default, PartialEq, Eq)]
pub struct Millicents(i64);

impl Millicents {
    /// Cents in millicents; a `From` would not say of what.
    pub fn of_cents(cents: u32) -> Millicents {
        Millicents(i64::from(cents) * 1000)
    }

    /// What energy costs at a price: cents per MWh times kWh are millicents.
    pub fn of_energy(price: i32, kwh: u32) -> Millicents {
        Millicents(i64::from(price).saturating_mul(i64::from(kwh)))
    }

    /// The part of an amount that belongs to so many hours of a run time, a fraction of a millicent dropped.
    pub fn for_hours(self, hours: u8, of: u8) -> Millicents {
        if of == 0 {
            return self;
        }
        Millicents(self.0.saturating_mul(i64::from(hours)) / i64::from(of))
    }

    /// The nearest cents, half a cent up; an amount below 0 is 0 cents.
    pub fn to_cents(self) -> u64 {
        (u64::try_from(self.0).unwrap_or(0) + 500) / 1000
    }
}

impl Add for Millicents {
    type Output = Millicents;

    fn add(self, other: Millicents) -> Millicents {
        Millicents(self.0.saturating_add(other.0))
    }
}

impl AddAssign for Millicents {
    fn add_assign(&mut self, other: Millicents) {
        *self = *self + other;
    }
}

impl Sub for Millicents {
    type Output = Millicents;

    fn sub(self, other: Millicents) -> Millicents {
        Millicents(self.0.saturating_sub(other.0))
    }
}

impl fmt::Display for Millicents {
    fn fmt<W: fmt::Write>(&self, f: &mut fmt::Formatter<W>) -> fmt::Result {
        let amount = self.0;
        write!(f, "{amount}")
    }
}
