//! The worked figures: numbers that anyone can check by hand, which follow from the definitions that the contracts cite.
#![tactic(auto)]

ghost use Rattle.figures.specs.Figures.{FiguresHold};

/// Its contract is the joint list of worked figures.
pub fn worked_figures_hold() -> u8
    ensures { FiguresHold }
{
    0
}
