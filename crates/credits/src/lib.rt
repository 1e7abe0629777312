//! Credits: what each Resource of an admitted day is credited in each market, hour by hour, pool by pool, owner by owner.
//!
//! It is called with a day that `dayfile` has admitted, by whoever settles it, and by programs that show a day's credits:
//!
//! ```
//! let mut day = AdmittedDay::built_in();
//! admit(file, &mut day)?;
//! let mut credits = Credits::empty();
//! credit(&day, &mut credits)?; // who is credited what, pool by pool
//! let mut grid = Grid::empty();
//! hourly_allocation(&day, 7, &mut grid)?; // Resource 7, hour by hour, before owners
//! ```
//!
//! The way of the money: millicents of a market (`day_ahead`, `real_time`), brought to cents (`cents`), allotted to hours
//! (`hours`), entered into pools (`pool`, `allocating`), divided over owners (`owners`), added up for the day (`crediting`).
#![tactic(auto)]

mod adding;
mod allocating;
mod allocation;
mod amounts;
mod cents;
mod claim;
mod commitment;
mod crediting;
mod credits;
mod day_ahead;
mod forbidden;
mod grid;
mod hourly;
mod hours;
mod owner;
mod owners;
mod pool;
mod real_time;
mod resource;
mod resources;
mod self_schedule;
mod share;
mod table;
mod walk;
mod walking;

pub use allocating::hourly_allocation;
pub use amounts::{POOLS, PoolAmounts};
pub use crediting::{DEAREST_POOL, credit};
pub use credits::{Credits, PLACES};
pub use grid::Grid;
pub use pool::Market;
