//! A weighted record for whatever it stands for.
ghost use Rattle.std.specs.Prelude.{◌≡◌, min, refl};
ghost use Rattle.division.specs.Records.{cut_light};
ghost use Rattle.division.specs.declared.portion.TheConstants.{HEAVIEST};

use crate::weighted::Weighted;

/// The most that a record may weigh.
pub const HEAVIEST: u32 = 100_000_000;

/// What an item weighs, and the share of the cents that it takes. A weight above the heaviest counts as the heaviest.
#[derive(Clone, Copy, Debug, Default, PartialEq, Eq)]
pub struct Portion<T> {
    pub item: T,
    pub weight: u32,
    pub cents: u64,
}

impl<T> Portion<T> {
    /// An item that weighs so much, and has no cents yet.
    pub fn new(item: T, weight: u32) -> Portion<T>
        ensures item { result.item ≡ item }
        ensures weight { result.weight ≡ weight }
        ensures cents { result.cents ≡ 0 }
    {
        Portion {
            item,
            weight,
            cents: 0,
        }
    }
}

impl<T> Weighted for Portion<T> {
    ghost weighs = { λ p. min p.weight HEAVIEST };

    ghost holds = { λ p. p.cents };

    ghost given = { λ p cents. record { item = p.item; weight = p.weight; cents = cents } };

    ghost lawful = { record { light = λ p. cut_light p.weight; holding = λ _ _. refl; weighing = λ _ _. refl; again = λ _ _ _. refl; back = λ _. refl } };

    fn weight(&self) -> u32 {
        self.weight.min(HEAVIEST)
    }

    fn take(&mut self, cents: u64) {
        self.cents = cents;
    }
}
