//! A Resource's real-time record in words.
use dayfile::{Event, Flag, RealTimeHour, RealTimeRecord};
use explanation::EventName;
use std::io;

/// Prints the real-time hours in which something happened.
pub fn print_real_time(rt: &impl Print, real_time: &RealTimeRecord) -> io::Result<()> {
    let RealTimeRecord {
        number,
        economic_minimum_kwh: minimum,
        hours,
        events,
        flags,
    } = real_time;
    println!(rt; "   Resource {number} in real time; Economic Minimum: {minimum} kWh")?;
    for (hour, ((figures, event), flag)) in (1u8..).zip(hours.iter().zip(events).zip(flags)) {
        if *event != Event::Off {
            print_hour(rt, hour, figures, *event, *flag)?;
        }
    }
    Ok(())
}

/// Prints an hour with its event and figures.
fn print_hour(
    rt: &impl Print,
    hour: u8,
    figures: &RealTimeHour,
    event: Event,
    flag: Flag,
) -> io::Result<()> {
    let RealTimeHour {
        dispatch_kwh,
        metered_kwh,
        lmp,
    } = *figures;
    let event = EventName(event);
    let flag = flag.number();
    println!(rt;
        "      hour {hour}: {event}; Dispatch Point {dispatch_kwh} kWh, metered {metered_kwh} kWh, LMP {lmp}, flag {flag}"
    )
}
