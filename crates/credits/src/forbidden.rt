//! A refusal of a real-time day.

/// An event that may not follow those before it: its hour, from 1.
#[derive(Clone, Copy, Debug, PartialEq, Eq)]
pub(crate) struct ForbiddenEvent {
    pub(crate) hour: u8,
}
