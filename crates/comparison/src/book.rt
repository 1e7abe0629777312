//! The book of cases: bytes in which one case follows the other.
//!
//! A case begins with a byte: 0 for a file, 1 for a block by itself, 2 for a record. A file or a block goes on with its
//! length and the patches that make it out of zeros, a record with its letter, its room and its values.
use crate::entries::Entry;
use crate::reader::{BadBook, Reader};
use crate::values::read_record;
use dayfile::Record;
use std::alloc::Global;

/// No file of a book is longer: a block more than the longest day file.
pub const LONGEST: usize = 66_048;

/// A case: what is offered to the engine.
#[derive(Drop)]
pub enum Case {
    File(Vec<u8>),
    Block(Vec<u8>),
    /// A record, to be written into so much room.
    Record { record: Record, room: usize },
}

impl Entry for Case {
    fn read(book: &mut Reader<'_>, alloc: Global) -> Result<Case, BadBook> {
        // a case's number is read here alone, and straight into the case
        match book.byte()? {
            0 => Ok(Case::File(read_bytes(book, alloc)?)),
            1 => Ok(Case::Block(read_bytes(book, alloc)?)),
            2 => read_offer(book),
            kind => Err(BadBook::Kind(kind)),
        }
    }
}

/// Zeros overwritten by patches.
fn read_bytes(book: &mut Reader<'_>, alloc: Global) -> Result<Vec<u8>, BadBook> {
    let length = book.word()? as usize;
    if length > LONGEST {
        return Err(BadBook::Length(length));
    }
    let mut bytes = vec![in alloc; 0; length]?;
    // so many patches follow; nothing is indexed
    for _patch in 0..book.half()? {
        read_patch(book, bytes.as_mut_slice())?;
    }
    Ok(bytes)
}

/// Writes a patch over bytes.
fn read_patch(book: &mut Reader<'_>, bytes: &mut [u8]) -> Result<(), BadBook> {
    let at = book.word()? as usize;
    let length = usize::from(book.half()?);
    let patch = book.take(length)?;
    bytes
        .get_mut(at..at + patch.len())
        .ok_or(BadBook::Patch(at))?
        .copy_from_slice(patch);
    Ok(())
}

/// A record and the room that it is offered.
fn read_offer(book: &mut Reader<'_>) -> Result<Case, BadBook> {
    let kind = book.byte()?;
    let room = usize::from(book.half()?);
    let record = read_record(book, kind)?;
    Ok(Case::Record { record, room })
}
