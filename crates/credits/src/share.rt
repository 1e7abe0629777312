//! An hour that may share a credit.

/// An hour among those of a credit: the kWh by which it shares in it, if it does, and the cents that it gets.
#[derive(Clone, Copy, Default)]
pub(crate) struct HourShare {
    /// `None` where the hour does not share.
    pub(crate) kwh: Option<u32>,
    pub(crate) cents: u64,
}
