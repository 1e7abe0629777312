//! The records of a small day: three participants and one Resource.
ghost use Rattle.std.specs.Prelude.{◌≡◌, [], ◌∷◌, ◌++◌, replicate};
ghost use Rattle.dayfile.specs.declared.record.Record.TheVariants.{Participant};
ghost use Rattle.figures.specs.SmallDay.{small_day, small_participant, small_resource};

use dayfile::{BLOCK, DayRecord, Flag, Load, Owner, ParticipantRecord, Record, ResourceRecord};

/// How many records the small day has.
pub const RECORDS: usize = 5;
/// The bytes of its file.
pub const BYTES: usize = BLOCK * RECORDS;

/// The small day, record by record.
pub fn small_day() -> [Record; RECORDS]
    ensures { result ≡ small_day }
{
    let [first, second, third] = participants();
    [
        Record::Day(DayRecord {
            date: 20_000,
            version: 1,
            participants: 3,
            resources: 1,
        }),
        first,
        second,
        third,
        Record::Resource(resource()),
    ]
}

/// Its participants.
pub fn participants() -> [Record; 3]
    ensures { result ≡ Participant (small_participant 101 0 1000) ∷ Participant (small_participant 102 1000 0) ∷ Participant (small_participant 103 500 500) ∷ [] }
{
    [
        participant(101, 0, 1_000),
        participant(102, 1_000, 0),
        participant(103, 500, 500),
    ]
}

/// A participant with day-ahead loads in two regions.
fn participant(number: u32, first: u32, second: u32) -> Record
    ensures { result ≡ Participant (small_participant number first second) }
{
    let mut loads = [Load::default(); 8];
    loads[0] = load(first);
    loads[1] = load(second);
    Record::Participant(ParticipantRecord {
        number,
        loads,
        network_load: 0,
        scr_weight: 0,
    })
}

fn load(day_ahead: u32) -> Load
    ensures { result ≡ record { day_ahead = day_ahead; real_time = 0; deviation = 0 } }
{
    Load {
        day_ahead,
        ..Load::default()
    }
}

/// A Resource that clears in hours 10 and 11, and belongs to the first two participants.
pub fn resource() -> ResourceRecord
    ensures { result ≡ small_resource }
{
    let mut owners = [Owner::default(); 8];
    owners[0] = Owner {
        place: 0,
        parts: 600_000,
    };
    owners[1] = Owner {
        place: 1,
        parts: 400_000,
    };
    ResourceRecord {
        region: 1,
        minimum_run_hours: 0,
        minimum_down_hours: 0,
        number: 7,
        start_up_cents: 10_000,
        no_load_cents: 1_000,
        prices: in_two_hours(4_000, 4_000, 0),
        hours_on_line: 0,
        owner_count: 2,
        self_scheduled: 0,
        owners,
        cleared_kwh: in_two_hours(100_000, 50_000, 0),
        lmps: in_two_hours(3_500, 3_500, 0),
        flags: in_two_hours(Flag::Economic, Flag::Lscpr, Flag::Economic),
    }
}

/// A value for hour 10, one for hour 11, and one for all others.
fn in_two_hours<T: Copy>(ten: T, eleven: T, other: T) -> [T; 24]
    ensures { result ≡ replicate 9 other ++ (ten ∷ eleven ∷ replicate 13 other) }
{
    let mut hours = [other; 24];
    hours[9] = ten;
    hours[10] = eleven;
    hours
}
