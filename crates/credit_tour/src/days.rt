//! Further days for the examples: one with both Resources, and two that are accepted as files and refused for their credits.
use crate::restart;
use dayfile::{DayRecord, Event, Flag, HOURS, Record};
use small_day::{participants, resource};

/// A day's own record, of three participants.
pub fn header(date: u32, resources: u8) -> Record {
    Record::Day(DayRecord {
        date,
        version: 1,
        participants: 3,
        resources,
    })
}

/// The small day's Resource and the one that trips, in one day.
pub fn two_resources() -> [Record; 7] {
    let [first, second, third] = participants();
    [
        header(20_002, 2),
        first,
        second,
        third,
        Record::Resource(resource()),
        Record::Resource(restart::resource()),
        Record::RealTime(restart::real_time()),
    ]
}

/// After its trip the Resource runs for the pool in hour 11, with no restart.
pub fn wrong_event() -> [Record; 6] {
    let [first, second, third] = participants();
    let mut real_time = restart::real_time();
    real_time.events[10] = Event::PoolRun;
    [
        header(20_001, 1),
        first,
        second,
        third,
        Record::Resource(restart::resource()),
        Record::RealTime(real_time),
    ]
}

/// All day the Resource clears the most energy at the highest price and the lowest LMP.
pub fn wrong_cost() -> [Record; 5] {
    let [first, second, third] = participants();
    let mut resource = resource();
    resource.cleared_kwh = [2_000_000; HOURS];
    resource.prices = [200_000; HOURS];
    resource.lmps = [-200_000; HOURS];
    resource.flags = [Flag::Economic; HOURS];
    [
        header(20_000, 1),
        first,
        second,
        third,
        Record::Resource(resource),
    ]
}
