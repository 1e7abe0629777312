//! What a Resource is committed to between two hours of the real-time day.

/// A commitment between two hours.
#[derive(Clone, Copy)]
pub(crate) enum Commitment {
    /// Off line, and free to be started.
    Down,
    /// Off line by a trip: only a restart or a run of its own brings it back.
    Tripped,
    /// Running for the pool: the hours run so far, and the period's fee in millicents.
    PoolPeriod { hours: u32, fee: u64 },
    /// Running on its own schedule.
    SelfScheduled,
    /// Restarted by its owner after a trip, and not for the pool.
    RestartedOnItsOwn,
}
