//! A Resource of a day.
ghost use Rattle.std.specs.Prelude.{◌≡◌};

use dayfile::{RealTimeRecord, ResourceRecord};
use std::marker::Model;

/// A Resource: its block's number, its record, and its real-time record, if it has one. Both keep the limits of an admitted day.
#[derive(Drop)]
pub(crate) struct ResourceDay {
    pub(crate) block: usize,
    pub(crate) resource: ResourceRecord,
    pub(crate) real_time: Option<RealTimeRecord>,
}

impl Model for ResourceDay {
    ghost use Rattle.credits.specs.Resources as resources;

    ghost Value = { resources.ResourceDay };

    ghost view = { λ x. record { block = x.block; resource = x.resource; real_time = x.real_time } };

    ghost invariant = { λ x. resources.Admitted (record { block = x.block; resource = x.resource; real_time = x.real_time }) };
}

impl ResourceDay {
    /// Its number.
    pub(crate) fn number(&self) -> u32
        ensures { result ≡ self.now.resource.number }
    {
        self.resource.number
    }
}
