//! Why a file is refused, in words: the field or rule, what was found and what is allowed.
//!
//! [`explain`] takes a refusal and the bytes of the file, and gives a [`Finding`] with plain values. Shown, a finding is
//! one sentence, such as `the version (bytes 8 to 9) is 1000; it must be from 1 to 999`. [`first_misfit`] does the same for
//! the events of a Resource. [`PoolName`] and [`EventName`] show a pool and an event by name, and [`PlaceLines`] a place, a line
//! for each number.
#![tactic(auto)]

mod blocks;
mod bytes;
mod event_words;
mod events;
mod finding;
mod owners;
mod places;
mod pools;
mod reason;
mod table;
mod words;

pub use event_words::EventName;
pub use events::{Misfit, Status, first_misfit};
pub use finding::{Count, FieldName, Finding, NamedField, OwnersRule};
pub use places::PlaceLines;
pub use pools::PoolName;
pub use reason::{explain, limits_are_those_judged_by};
