//! Reads numbers out of bytes, one after the other, the lowest byte first.
use std::alloc::{AllocError, AllocFailed};
use std::error::Error;
use std::fmt;

/// What is wrong with a book of cases.
#[derive(Clone, Copy, Debug)]
pub enum BadBook {
    /// It ends in the middle of a case.
    Cut,
    /// A case is of no known kind, or a record's letter is none of the four.
    Kind(u8),
    /// A file is longer than any that is tried, or a division has more weights.
    Length(usize),
    /// A patch goes past the end of its file.
    Patch(usize),
    /// A value is too large for its field, or no flag or event has this number.
    Value(u32),
    /// There is no memory for what the book says.
    OutOfMemory,
}

/// What is left to be read.
#[derive(Drop)]
pub struct Reader<'b> {
    rest: &'b [u8],
}

impl<'b> Reader<'b> {
    pub fn new(bytes: &'b [u8]) -> Reader<'b> {
        Reader { rest: bytes }
    }

    pub fn is_empty(&self) -> bool {
        self.rest.is_empty()
    }

    /// The next `count` bytes.
    pub fn take(&mut self, count: usize) -> Result<&'b [u8], BadBook> {
        let (taken, rest) = self.rest.split_at_checked(count).ok_or(BadBook::Cut)?;
        self.rest = rest;
        Ok(taken)
    }

    /// The next `N` bytes.
    fn array<const N: usize>(&mut self) -> Result<[u8; N], BadBook> {
        let (taken, rest) = self.rest.split_first_chunk::<N>().ok_or(BadBook::Cut)?;
        self.rest = rest;
        Ok(*taken)
    }

    /// A number in one byte.
    pub fn byte(&mut self) -> Result<u8, BadBook> {
        Ok(u8::from_le_bytes(self.array()?))
    }

    /// A number in two bytes.
    pub fn half(&mut self) -> Result<u16, BadBook> {
        Ok(u16::from_le_bytes(self.array()?))
    }

    /// A number in four bytes.
    pub fn word(&mut self) -> Result<u32, BadBook> {
        Ok(u32::from_le_bytes(self.array()?))
    }

    /// A number in eight bytes.
    pub fn long(&mut self) -> Result<u64, BadBook> {
        Ok(u64::from_le_bytes(self.array()?))
    }
}

impl From<AllocError> for BadBook {
    fn from(_error: AllocError) -> BadBook {
        BadBook::OutOfMemory
    }
}

impl<T: Drop> From<AllocFailed<T>> for BadBook {
    fn from(_error: AllocFailed<T>) -> BadBook {
        BadBook::OutOfMemory
    }
}

impl fmt::Display for BadBook {
    fn fmt<W: fmt::Write>(&self, f: &mut fmt::Formatter<W>) -> fmt::Result {
        match *self {
            BadBook::Cut => write!(f, "the cases end in the middle of one"),
            BadBook::Kind(kind) => write!(f, "no case or record is of the kind {kind}"),
            BadBook::Length(length) => write!(f, "a case of {length} bytes is too long"),
            BadBook::Patch(at) => write!(f, "a patch at byte {at} goes past the end"),
            BadBook::Value(value) => write!(f, "the value {value} is none of its field"),
            BadBook::OutOfMemory => write!(f, "there is no memory for a case"),
        }
    }
}

impl Error for BadBook {}
