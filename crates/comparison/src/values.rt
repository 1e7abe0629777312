//! The values of a record, four bytes each, in the order of the format.
use crate::reader::{BadBook, Reader};
use dayfile::{
    DayRecord, Event, Flag, Kind, Load, Owner, ParticipantRecord, RealTimeHour, RealTimeRecord,
    Record, ResourceRecord, UnknownNumber,
};

/// What is read from values of four bytes each.
pub trait Value: Sized {
    fn read(book: &mut Reader<'_>) -> Result<Self, BadBook>;
}

/// The values of a record of a kind, which is told by its letter.
pub fn read_record(book: &mut Reader<'_>, letter: u8) -> Result<Record, BadBook> {
    Ok(match Kind::of(letter).ok_or(BadBook::Kind(letter))? {
        Kind::Day => Record::Day(Value::read(book)?),
        Kind::Participant => Record::Participant(Value::read(book)?),
        Kind::Resource => Record::Resource(Value::read(book)?),
        Kind::RealTime => Record::RealTime(Value::read(book)?),
    })
}

impl Value for DayRecord {
    fn read(book: &mut Reader<'_>) -> Result<DayRecord, BadBook> {
        Ok(DayRecord {
            date: Value::read(book)?,
            version: Value::read(book)?,
            participants: Value::read(book)?,
            resources: Value::read(book)?,
        })
    }
}

impl Value for ParticipantRecord {
    fn read(book: &mut Reader<'_>) -> Result<ParticipantRecord, BadBook> {
        Ok(ParticipantRecord {
            number: Value::read(book)?,
            loads: Value::read(book)?,
            network_load: Value::read(book)?,
            scr_weight: Value::read(book)?,
        })
    }
}

impl Value for ResourceRecord {
    fn read(book: &mut Reader<'_>) -> Result<ResourceRecord, BadBook> {
        Ok(ResourceRecord {
            region: Value::read(book)?,
            minimum_run_hours: Value::read(book)?,
            minimum_down_hours: Value::read(book)?,
            number: Value::read(book)?,
            start_up_cents: Value::read(book)?,
            no_load_cents: Value::read(book)?,
            prices: Value::read(book)?,
            hours_on_line: Value::read(book)?,
            owner_count: Value::read(book)?,
            self_scheduled: Value::read(book)?,
            owners: Value::read(book)?,
            cleared_kwh: Value::read(book)?,
            lmps: Value::read(book)?,
            flags: Value::read(book)?,
        })
    }
}

impl Value for RealTimeRecord {
    fn read(book: &mut Reader<'_>) -> Result<RealTimeRecord, BadBook> {
        Ok(RealTimeRecord {
            number: Value::read(book)?,
            economic_minimum_kwh: Value::read(book)?,
            hours: Value::read(book)?,
            events: Value::read(book)?,
            flags: Value::read(book)?,
        })
    }
}

impl Value for Load {
    fn read(book: &mut Reader<'_>) -> Result<Load, BadBook> {
        Ok(Load {
            day_ahead: Value::read(book)?,
            real_time: Value::read(book)?,
            deviation: Value::read(book)?,
        })
    }
}

impl Value for Owner {
    fn read(book: &mut Reader<'_>) -> Result<Owner, BadBook> {
        Ok(Owner {
            place: Value::read(book)?,
            parts: Value::read(book)?,
        })
    }
}

impl Value for RealTimeHour {
    fn read(book: &mut Reader<'_>) -> Result<RealTimeHour, BadBook> {
        Ok(RealTimeHour {
            dispatch_kwh: Value::read(book)?,
            metered_kwh: Value::read(book)?,
            lmp: Value::read(book)?,
        })
    }
}

/// Values of one type in a row.
impl<T: Value + Default + Drop, const N: usize> Value for [T; N] {
    fn read(book: &mut Reader<'_>) -> Result<[T; N], BadBook> {
        let mut values = <[T; N]>::default();
        for value in values.iter_mut() {
            *value = T::read(book)?;
        }
        Ok(values)
    }
}

// An impl for each width: there is none over whatever number is read from a wider one.
impl Value for u8 {
    fn read(book: &mut Reader<'_>) -> Result<u8, BadBook> {
        let value = book.word()?;
        u8::try_from(value).map_err(|_| BadBook::Value(value))
    }
}

impl Value for u16 {
    fn read(book: &mut Reader<'_>) -> Result<u16, BadBook> {
        let value = book.word()?;
        u16::try_from(value).map_err(|_| BadBook::Value(value))
    }
}

impl Value for u32 {
    fn read(book: &mut Reader<'_>) -> Result<u32, BadBook> {
        book.word()
    }
}

impl Value for i32 {
    fn read(book: &mut Reader<'_>) -> Result<i32, BadBook> {
        Ok(book.word()?.cast_signed())
    }
}

impl Value for Flag {
    fn read(book: &mut Reader<'_>) -> Result<Flag, BadBook> {
        Ok(Flag::try_from(u8::read(book)?)?)
    }
}

impl Value for Event {
    fn read(book: &mut Reader<'_>) -> Result<Event, BadBook> {
        Ok(Event::try_from(u8::read(book)?)?)
    }
}

impl From<UnknownNumber> for BadBook {
    fn from(unknown: UnknownNumber) -> BadBook {
        BadBook::Value(u32::from(unknown.0))
    }
}
