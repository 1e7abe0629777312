//! The four kinds of block.
ghost use Rattle.std.specs.Prelude.{◌≡◌, false, MatchOption};
ghost use Rattle.dayfile.specs.Files.{known};
ghost use Rattle.dayfile.specs.Kinds.{letter};
ghost use Rattle.dayfile.specs.Records.{kind_of};

use crate::record::Record;

/// A kind of block; a block begins with its letter.
#[derive(Clone, Copy, Debug, PartialEq, Eq)]
pub enum Kind {
    /// D.
    Day,
    /// P.
    Participant,
    /// G.
    Resource,
    /// R.
    RealTime,
}

impl Kind {
    // no `TryFrom`: an unknown letter is refused by the place of its block, which only the caller knows
    /// The kind that a byte is the letter of.
    pub fn of(byte: u8) -> Option<Kind>
        ensures { MatchOption result (known byte ≡ false) (λ kind. letter kind ≡ byte) }
    {
        match byte {
            b'D' => Some(Kind::Day),
            b'P' => Some(Kind::Participant),
            b'G' => Some(Kind::Resource),
            b'R' => Some(Kind::RealTime),
            _ => None,
        }
    }

    /// Its letter.
    pub fn letter(self) -> u8
        ensures { result ≡ letter self }
    {
        match self {
            Kind::Day => b'D',
            Kind::Participant => b'P',
            Kind::Resource => b'G',
            Kind::RealTime => b'R',
        }
    }
}

impl Record {
    /// The kind of its block.
    pub fn kind(&self) -> Kind
        ensures { letter result ≡ kind_of self.now }
    {
        match self {
            Record::Day(_) => Kind::Day,
            Record::Participant(_) => Kind::Participant,
            Record::Resource(_) => Kind::Resource,
            Record::RealTime(_) => Kind::RealTime,
        }
    }
}
