//! A block of a file, by its kind: its parts, borrowed from the file.

/// A block: each kind shows its parts of the file.
#[derive(Clone, Copy, Debug, PartialEq, Eq)]
pub enum Block<'f> {
    /// D: the date, the version and the two counts.
    Day {
        head: &'f [u8],
    },
    /// P: the participant, its loads region by region, its network load and SCR weight.
    Participant {
        number: &'f [u8],
        loads: &'f [u8],
        weights: &'f [u8],
    },
    /// G: a Resource with its day-ahead hours; `status` has the hours on line, the count of owners and the Self-Scheduled hours.
    Resource {
        region: u8,
        minimum_run_hours: u8,
        minimum_down_hours: u8,
        number: &'f [u8],
        fees: &'f [u8],
        prices: &'f [u8],
        status: &'f [u8],
        owners: &'f [u8],
        cleared: &'f [u8],
        lmps: &'f [u8],
        flags: &'f [u8],
    },
    /// R: a Resource's real-time hours.
    RealTime {
        number: &'f [u8],
        minimum: &'f [u8],
        hours: &'f [u8],
        events: &'f [u8],
        flags: &'f [u8],
    },
}
