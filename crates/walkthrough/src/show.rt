//! Records and blocks in words.
use dayfile::{Block, DayRecord, ParticipantRecord, Record};
use small_day::print_resource;
use std::io;

/// Prints a record of the small day: what is not 0.
pub fn print_record(rt: &impl Print, record: &Record) -> io::Result<()> {
    match record {
        Record::Day(day) => print_day(rt, day),
        Record::Participant(participant) => print_participant(rt, participant),
        Record::Resource(resource) => print_resource(rt, resource),
        Record::RealTime(real_time) => {
            let number = real_time.number;
            println!(rt; "   real-time hours of Resource {number}")
        }
    }
}

fn print_day(rt: &impl Print, day: &DayRecord) -> io::Result<()> {
    let DayRecord {
        date,
        version,
        participants,
        resources,
    } = *day;
    println!(rt;
        "   day {date}, version {version}; participants: {participants}, Resources: {resources}"
    )
}

fn print_participant(rt: &impl Print, participant: &ParticipantRecord) -> io::Result<()> {
    let number = participant.number;
    let first = participant.loads[0].day_ahead;
    let second = participant.loads[1].day_ahead;
    println!(rt;
        "   participant {number}; day-ahead load in region 1: {first}, in region 2: {second}"
    )
}

/// Prints the parts of the file that a block shows.
pub fn print_block(rt: &impl Print, k: usize, block: &Block<'_>) -> io::Result<()> {
    match block {
        Block::Day { head } => {
            let head = head.len();
            println!(rt; "   block {k} is D: {head} bytes of date, version and counts")
        }
        Block::Participant {
            number,
            loads,
            weights,
        } => {
            let number = number.len();
            let loads = loads.len();
            let weights = weights.len();
            println!(rt;
                "   block {k} is P: {number} bytes of its number, {loads} of loads, {weights} of network load and SCR weight"
            )
        }
        Block::Resource {
            region,
            prices,
            owners,
            cleared,
            ..
        } => {
            let prices = prices.len();
            let owners = owners.len();
            let cleared = cleared.len();
            println!(rt;
                "   block {k} is G: in region {region}, {prices} bytes of prices, {owners} of owners, {cleared} of cleared kWh, and more"
            )
        }
        Block::RealTime { hours, .. } => {
            let hours = hours.len();
            println!(rt; "   block {k} is R: {hours} bytes of hours, and more")
        }
    }
}
