//! The parts of records that stand several times in a row: how each is read and written.
ghost use Rattle.std.specs.Prelude.{◌≡◌, ◌+◌, ◌^◌, ◌<◌, ◌≤◌, length, FitsSigned};
ghost use Rattle.std.specs.Int.{w32};
ghost use Rattle.std.proofs.Common.{of_z};
ghost use Rattle.dayfile.specs.Bytes.{digits, laid};
ghost use Rattle.dayfile.specs.Records.{byte_bytes, byte_from, half_bytes, half_from, word_bytes, word_from, signed_bytes, signed_from, flag_number, FlagNumbered, flag_bytes, flag_from, event_number, EventNumbered, event_bytes, event_from, load_bytes, load_from, owner_bytes, owner_from, hour_bytes, hour_from};
ghost use Rattle.dayfile.specs.Widths.{byte_long, half_long, word_long, signed_long, flag_long, event_long, load_long, owner_long, hour_long, one, two, four, six, twelve};
ghost use Rattle.dayfile.specs.Writing.{LoadFits, OwnerFits, HourFits};

use crate::bytes::{Part, byte_at, half_at, word_at, write_bytes};
use crate::record::{Event, Flag, Load, Owner, RealTimeHour, UnknownNumber};

// A method and no `From`: `flag.number()` says what it gives.
impl Flag {
    /// The flag's number in a file.
    pub fn number(self) -> u8
        ensures { result ≡ flag_number self }
    {
        match self {
            Flag::Economic => 0,
            Flag::Lscpr => 1,
            Flag::Var => 2,
            Flag::Scr => 3,
        }
    }
}

impl TryFrom<u8> for Flag {
    type Error = UnknownNumber;

    ghost try_from_gives = { FlagNumbered };

    /// The flag of a number.
    fn try_from(number: u8) -> Result<Flag, UnknownNumber> {
        match number {
            0 => Ok(Flag::Economic),
            1 => Ok(Flag::Lscpr),
            2 => Ok(Flag::Var),
            3 => Ok(Flag::Scr),
            _ => Err(UnknownNumber(number)),
        }
    }
}

impl Event {
    /// The event's number in a file.
    pub fn number(self) -> u8
        ensures { result ≡ event_number self }
    {
        match self {
            Event::Off => 0,
            Event::PoolRun => 1,
            Event::SelfRun => 2,
            Event::Trip => 3,
            Event::IsoRestart => 4,
            Event::OwnRestart => 5,
        }
    }
}

impl TryFrom<u8> for Event {
    type Error = UnknownNumber;

    ghost try_from_gives = { EventNumbered };

    /// The event of a number.
    fn try_from(number: u8) -> Result<Event, UnknownNumber> {
        match number {
            0 => Ok(Event::Off),
            1 => Ok(Event::PoolRun),
            2 => Ok(Event::SelfRun),
            3 => Ok(Event::Trip),
            4 => Ok(Event::IsoRestart),
            5 => Ok(Event::OwnRestart),
            _ => Err(UnknownNumber(number)),
        }
    }
}

// An impl for each width: the bytes of a number are an array of its width, and there is no impl over any unsigned number.
impl Part for u8 {
    const WIDTH: usize = 1;

    ghost WIDTH = { 1 };

    ghost bytes = { byte_bytes };

    ghost from = { byte_from };

    ghost long = { byte_long };

    ghost few = { one };

    ghost fits = { λ n. n < 256 };

    #[tactic(auto, using(crate::proofs::Digits::front_byte))]
    fn read(block: &[u8], at: usize) -> u8 {
        byte_at(block, at)
    }

    #[tactic(auto, using(crate::proofs::Numbers::digits_one))]
    fn write(&self, block: &mut [u8], at: usize) {
        write_bytes(&self.to_le_bytes(), block, at);
    }
}

impl Part for u16 {
    const WIDTH: usize = 2;

    ghost WIDTH = { 2 };

    ghost bytes = { half_bytes };

    ghost from = { half_from };

    ghost long = { half_long };

    ghost few = { two };

    ghost fits = { λ n. n < 2 ^ 16 };

    fn read(block: &[u8], at: usize) -> u16 {
        half_at(block, at)
    }

    #[tactic(auto, using(crate::proofs::Digits::bytes_two))]
    fn write(&self, block: &mut [u8], at: usize) {
        write_bytes(&self.to_le_bytes(), block, at);
    }
}

impl Part for u32 {
    const WIDTH: usize = 4;

    ghost WIDTH = { 4 };

    ghost bytes = { word_bytes };

    ghost from = { word_from };

    ghost long = { word_long };

    ghost few = { four };

    ghost fits = { λ n. n < 2 ^ 32 };

    fn read(block: &[u8], at: usize) -> u32 {
        word_at(block, at)
    }

    #[tactic(auto, using(crate::proofs::Digits::bytes_four))]
    fn write(&self, block: &mut [u8], at: usize) {
        write_bytes(&self.to_le_bytes(), block, at);
    }
}

impl Part for i32 {
    const WIDTH: usize = 4;

    ghost WIDTH = { 4 };

    ghost bytes = { signed_bytes };

    ghost from = { signed_from };

    ghost long = { signed_long };

    ghost few = { four };

    ghost fits = { FitsSigned w32 };

    fn read(block: &[u8], at: usize) -> i32 {
        word_at(block, at).cast_signed()
    }

    #[tactic(auto, using(crate::proofs::Digits::bytes_four))]
    fn write(&self, block: &mut [u8], at: usize) {
        write_bytes(&self.to_le_bytes(), block, at);
    }
}

impl Part for Flag {
    const WIDTH: usize = 1;

    ghost WIDTH = { 1 };

    ghost bytes = { flag_bytes };

    ghost from = { flag_from };

    ghost long = { flag_long };

    ghost few = { one };

    ghost fits = { λ _. Unit {0} };

    #[tactic(auto, using(crate::proofs::Digits::front_byte))]
    fn read(block: &[u8], at: usize) -> Flag {
        Flag::try_from(byte_at(block, at)).unwrap_or(Flag::Scr)
    }

    fn write(&self, block: &mut [u8], at: usize) {
        self.number().write(block, at);
    }
}

impl Part for Event {
    const WIDTH: usize = 1;

    ghost WIDTH = { 1 };

    ghost bytes = { event_bytes };

    ghost from = { event_from };

    ghost long = { event_long };

    ghost few = { one };

    ghost fits = { λ _. Unit {0} };

    #[tactic(auto, using(crate::proofs::Digits::front_byte))]
    fn read(block: &[u8], at: usize) -> Event {
        Event::try_from(byte_at(block, at)).unwrap_or(Event::OwnRestart)
    }

    fn write(&self, block: &mut [u8], at: usize) {
        self.number().write(block, at);
    }
}

impl Part for Load {
    const WIDTH: usize = 12;

    ghost WIDTH = { 12 };

    ghost bytes = { load_bytes };

    ghost from = { load_from };

    ghost long = { load_long };

    ghost few = { twelve };

    ghost fits = { LoadFits };

    fn read(block: &[u8], at: usize) -> Load {
        Load {
            day_ahead: word_at(block, at),
            real_time: word_at(block, at + 4),
            deviation: word_at(block, at + 8),
        }
    }

    #[tactic(auto, using(crate::proofs::Digits::three_words))]
    fn write(&self, block: &mut [u8], at: usize) {
        self.day_ahead.write(block, at);
        self.real_time.write(block, at + 4);
        self.deviation.write(block, at + 8);
    }
}

impl Part for Owner {
    const WIDTH: usize = 6;

    ghost WIDTH = { 6 };

    ghost bytes = { owner_bytes };

    ghost from = { owner_from };

    ghost long = { owner_long };

    ghost few = { six };

    ghost fits = { OwnerFits };

    fn read(block: &[u8], at: usize) -> Owner {
        Owner {
            place: half_at(block, at),
            parts: word_at(block, at + 2),
        }
    }

    #[tactic(auto, using(crate::proofs::Digits::half_and_word))]
    fn write(&self, block: &mut [u8], at: usize) {
        self.place.write(block, at);
        self.parts.write(block, at + 2);
    }
}

impl Part for RealTimeHour {
    const WIDTH: usize = 12;

    ghost WIDTH = { 12 };

    ghost bytes = { hour_bytes };

    ghost from = { hour_from };

    ghost long = { hour_long };

    ghost few = { twelve };

    ghost fits = { HourFits };

    fn read(block: &[u8], at: usize) -> RealTimeHour {
        RealTimeHour {
            dispatch_kwh: word_at(block, at),
            metered_kwh: word_at(block, at + 4),
            lmp: word_at(block, at + 8).cast_signed(),
        }
    }

    #[tactic(auto, using(crate::proofs::Digits::three_words))]
    fn write(&self, block: &mut [u8], at: usize) {
        self.dispatch_kwh.write(block, at);
        self.metered_kwh.write(block, at + 4);
        self.lmp.write(block, at + 8);
    }
}
