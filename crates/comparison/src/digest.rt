//! The digest of values: what was taken in so far is multiplied by 31, and the next value added, in 32 bits.
use dayfile::{
    DayRecord, Event, Flag, Load, Owner, ParticipantRecord, RealTimeHour, RealTimeRecord, Record,
    ResourceRecord,
};

/// What the values so far make.
#[derive(Clone, Copy, Default)]
pub struct Digest {
    pub value: u32,
}

impl Digest {
    /// Takes in the values of a record, or of a part of one.
    pub fn add<T: Digested>(&mut self, part: &T) {
        part.add_to(self);
    }

    /// Takes in parts one after the other.
    pub fn add_all<T: Digested>(&mut self, parts: &[T]) {
        for part in parts {
            self.add(part);
        }
    }
}

/// What has values, in the order of the format.
pub trait Digested {
    fn add_to(&self, digest: &mut Digest);
}

impl Digested for Record {
    fn add_to(&self, digest: &mut Digest) {
        match self {
            Record::Day(day) => digest.add(day),
            Record::Participant(participant) => digest.add(participant),
            Record::Resource(resource) => digest.add(resource),
            Record::RealTime(real_time) => digest.add(real_time),
        }
    }
}

impl Digested for DayRecord {
    fn add_to(&self, digest: &mut Digest) {
        digest.add(&self.date);
        digest.add(&self.version);
        digest.add(&self.participants);
        digest.add(&self.resources);
    }
}

impl Digested for ParticipantRecord {
    fn add_to(&self, digest: &mut Digest) {
        digest.add(&self.number);
        digest.add(&self.loads);
        digest.add(&self.network_load);
        digest.add(&self.scr_weight);
    }
}

impl Digested for ResourceRecord {
    fn add_to(&self, digest: &mut Digest) {
        digest.add(&self.region);
        digest.add(&self.minimum_run_hours);
        digest.add(&self.minimum_down_hours);
        digest.add(&self.number);
        digest.add(&self.start_up_cents);
        digest.add(&self.no_load_cents);
        digest.add(&self.prices);
        digest.add(&self.hours_on_line);
        digest.add(&self.owner_count);
        digest.add(&self.self_scheduled);
        digest.add(&self.owners);
        digest.add(&self.cleared_kwh);
        digest.add(&self.lmps);
        digest.add(&self.flags);
    }
}

impl Digested for RealTimeRecord {
    fn add_to(&self, digest: &mut Digest) {
        digest.add(&self.number);
        digest.add(&self.economic_minimum_kwh);
        digest.add(&self.hours);
        digest.add(&self.events);
        digest.add(&self.flags);
    }
}

impl Digested for Load {
    fn add_to(&self, digest: &mut Digest) {
        digest.add(&self.day_ahead);
        digest.add(&self.real_time);
        digest.add(&self.deviation);
    }
}

impl Digested for Owner {
    fn add_to(&self, digest: &mut Digest) {
        digest.add(&self.place);
        digest.add(&self.parts);
    }
}

impl Digested for RealTimeHour {
    fn add_to(&self, digest: &mut Digest) {
        digest.add(&self.dispatch_kwh);
        digest.add(&self.metered_kwh);
        digest.add(&self.lmp);
    }
}

/// What stands several times in a row in a record.
impl<T: Digested, const N: usize> Digested for [T; N] {
    fn add_to(&self, digest: &mut Digest) {
        digest.add_all(self);
    }
}

impl Digested for Flag {
    fn add_to(&self, digest: &mut Digest) {
        digest.add(&self.number());
    }
}

impl Digested for Event {
    fn add_to(&self, digest: &mut Digest) {
        digest.add(&self.number());
    }
}

// An impl for each width, as in values.rt.
impl Digested for u8 {
    fn add_to(&self, digest: &mut Digest) {
        digest.add(&u32::from(*self));
    }
}

impl Digested for u16 {
    fn add_to(&self, digest: &mut Digest) {
        digest.add(&u32::from(*self));
    }
}

impl Digested for i32 {
    fn add_to(&self, digest: &mut Digest) {
        digest.add(&self.cast_unsigned());
    }
}

impl Digested for u32 {
    fn add_to(&self, digest: &mut Digest) {
        digest.value = digest.value.wrapping_mul(31).wrapping_add(*self);
    }
}
