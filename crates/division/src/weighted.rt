//! Records that have a weight and take a share of cents.
ghost use Rattle.std.specs.Prelude.{◌≡◌, ℕ};
ghost use Rattle.division.specs.Records.{Lawful, Placing};

/// A record that has a weight of at most 100,000,000 and takes its share of the cents that are divided.
pub trait Weighted {
    ghost weighs: { Self → ℕ };

    ghost holds: { Self → ℕ };

    ghost given: { Self → ℕ → Self };

    ghost lawful: { Lawful weighs holds given };

    /// What the record weighs.
    fn weight(&self) -> u32
        ensures { result ≡ weighs self.now };

    /// Takes a share in place of the one that it holds.
    fn take(&mut self, cents: u64)
        ensures { self.new ≡ given self.old cents };
}

/// A weighted record that names a participant, by its place 0 to 47.
pub trait Placed: Weighted {
    ghost stands: { Self → ℕ };

    ghost placing: { Placing stands };

    /// The participant's place, which stays whatever share the record takes.
    fn place(&self) -> usize
        ensures value { result ≡ stands self.now }
        ensures stays { (cents : ℕ) → stands (Self.Weighted.given self.now cents) ≡ result };
}
