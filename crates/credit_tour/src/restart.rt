//! The records of a day with a trip and a restart: the small day's participants, and a Resource with a real-time record.
use crate::days::header;
use dayfile::{
    BLOCK, Event, Flag, HOURS, OWNERS, Owner, RealTimeHour, RealTimeRecord, Record, ResourceRecord,
};
use small_day::participants;

/// How many records the day has.
const RESTART_RECORDS: usize = 6;
/// The bytes of its file.
pub const RESTART_BYTES: usize = BLOCK * RESTART_RECORDS;

/// The day, record by record.
pub fn restart_day() -> [Record; RESTART_RECORDS] {
    let [first, second, third] = participants();
    [
        header(20_001, 1),
        first,
        second,
        third,
        Record::Resource(resource()),
        Record::RealTime(real_time()),
    ]
}

/// A Resource that cleared nothing day-ahead, and belongs to all three participants.
pub fn resource() -> ResourceRecord {
    let mut owners = [Owner::default(); OWNERS];
    owners[0] = owner(0, 333_334);
    owners[1] = owner(1, 333_333);
    owners[2] = owner(2, 333_333);
    ResourceRecord {
        region: 3,
        minimum_run_hours: 7,
        minimum_down_hours: 0,
        number: 8,
        start_up_cents: 10_000,
        no_load_cents: 500,
        prices: [5_000; HOURS],
        hours_on_line: 0,
        owner_count: 3,
        self_scheduled: 0,
        owners,
        cleared_kwh: [0; HOURS],
        lmps: [0; HOURS],
        flags: [Flag::Economic; HOURS],
    }
}

fn owner(place: u16, parts: u32) -> Owner {
    Owner { place, parts }
}

/// It runs in hours 6 to 8, trips in hour 9, and is restarted for hours 11 to 13, in which it protects its region.
pub fn real_time() -> RealTimeRecord {
    let mut hours = [RealTimeHour::default(); HOURS];
    hours[5] = hour(30_000, 28_000, 4_200);
    hours[6] = hour(40_000, 41_000, 4_300);
    hours[7] = hour(40_000, 40_000, 5_600);
    hours[10] = hour(25_000, 22_000, 4_000);
    hours[11] = hour(30_000, 30_000, 3_900);
    hours[12] = hour(10_000, 21_000, 3_700);
    let mut flags = [Flag::Economic; HOURS];
    flags[10] = Flag::Lscpr;
    flags[11] = Flag::Lscpr;
    flags[12] = Flag::Lscpr;
    RealTimeRecord {
        number: 8,
        economic_minimum_kwh: 20_000,
        hours,
        events: events(),
        flags,
    }
}

fn hour(dispatch_kwh: u32, metered_kwh: u32, lmp: i32) -> RealTimeHour {
    RealTimeHour {
        dispatch_kwh,
        metered_kwh,
        lmp,
    }
}

fn events() -> [Event; HOURS] {
    let mut events = [Event::Off; HOURS];
    events[5] = Event::PoolRun;
    events[6] = Event::PoolRun;
    events[7] = Event::PoolRun;
    events[8] = Event::Trip;
    events[10] = Event::IsoRestart;
    events[11] = Event::PoolRun;
    events[12] = Event::PoolRun;
    events
}
