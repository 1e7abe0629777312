//! Whole cents divided over weighted records, so that nobody can divide them better.
#![tactic(auto)]

mod dividing;
mod few;
mod many;
mod portion;
mod weighted;

pub use dividing::divide;
pub use portion::{HEAVIEST, Portion};
pub use weighted::{Placed, Weighted};
