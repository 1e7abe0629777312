//! What hours add to a credit.
use crate::money::Millicents;
use std::io;
use std::ops::AddAssign;

/// What hours cost at their offer, and what their energy is worth.
#[derive(Clone, Copy, Debug, Default, PartialEq, Eq)]
pub struct Amounts {
    pub energy: Millicents,
    pub start_up: Millicents,
    pub no_load: Millicents,
    pub value: Millicents,
}

impl Amounts {
    /// The costs less the value.
    pub fn credit(self) -> Millicents {
        self.energy + self.start_up + self.no_load - self.value
    }
}

impl AddAssign for Amounts {
    fn add_assign(&mut self, other: Amounts) {
        self.energy += other.energy;
        self.start_up += other.start_up;
        self.no_load += other.no_load;
        self.value += other.value;
    }
}

/// Notes what the hours add up to, and answers it in cents.
pub fn note_credit(rt: &impl Print, step: u8, amounts: Amounts) -> io::Result<u64> {
    let Amounts {
        energy,
        start_up,
        no_load,
        value,
    } = amounts;
    let credit = amounts.credit();
    let cents = credit.to_cents();
    println!(rt; "")?;
    println!(rt;
        "{step}. Energy, Start-Up Fees and No-Load Fees, less the energy's value, are the credit; it is brought to the nearest cent."
    )?;
    println!(rt;
        "   {energy} + {start_up} + {no_load} - {value} = {credit} millicents, which are {cents} cents"
    )?;
    Ok(cents)
}
