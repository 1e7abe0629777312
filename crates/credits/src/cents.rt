//! Money: cents, and millicents, of which a thousand are a cent.
ghost use Rattle.std.specs.Prelude.{◌≡◌, ◌≤◌, pos, ◌+ℤ◌, ◌-ℤ◌, ◌*ℤ◌, neg_ℤ, ◌≤ℤ◌};
ghost use Rattle.dayfile.specs.Keeping.{Price};
ghost use Rattle.credits.specs.Cents.{cents, millicents};

/// Millicents of a cent.
const CENT: u64 = 1000;

/// Millicents brought to the nearest cent, half a cent up; below 0 they are 0.
pub(crate) fn to_cents(amount: i64) -> u64
    requires { amount ≤ℤ pos 100000000000000 }
    ensures value { result ≡ cents amount }
    ensures small { result ≤ 100000000000 }
{
    let Ok(amount) = u64::try_from(amount) else {
        return 0;
    };
    (amount + CENT / 2) / CENT
}

/// Cents in millicents.
pub(crate) fn to_millicents(amount: u32) -> u64
    ensures { result ≡ millicents amount }
{
    u64::from(amount) * CENT
}

/// What energy costs at a price: cents per MWh times kWh are millicents.
pub(crate) fn worth(price: i32, kwh: i64) -> i64
    requires { (Price price) × ((neg_ℤ (pos 2000000) ≤ℤ kwh) × (kwh ≤ℤ pos 2000000)) }
    ensures value { result ≡ price *ℤ kwh }
    ensures small { (neg_ℤ (pos 400000000000) ≤ℤ result) × (result ≤ℤ pos 400000000000) }
{
    i64::from(price) * kwh
}

/// By how much a cost and fees exceed a value.
pub(crate) fn excess(cost: i64, fees: u64, value: i64) -> i64
    requires { (fees ≤ 200000000000) × ((neg_ℤ (pos 400000000000) ≤ℤ cost) × ((cost ≤ℤ pos 400000000000) × ((neg_ℤ (pos 400000000000) ≤ℤ value) × (value ≤ℤ pos 400000000000)))) }
    ensures value { result ≡ (cost +ℤ pos fees) -ℤ value }
    ensures small { (neg_ℤ (pos 1000000000000) ≤ℤ result) × (result ≤ℤ pos 1000000000000) }
{
    cost + fees as i64 - value
}
