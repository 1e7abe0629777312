//! The divisions of the second calculation: cents over weights, one division after the other.
//!
//! A division is written as its cents (eight bytes), the number of its weights (two bytes) and the weights (four each).
use crate::entries::{Entries, Entry};
use crate::reader::{BadBook, Reader};
use division::{Portion, divide};
use std::alloc::Global;
use std::fmt::Write;

/// No division of a book has more weights.
const MOST: usize = 256;

/// Cents, and the weights that they are divided over.
#[derive(Drop)]
struct Division {
    cents: u64,
    portions: Vec<Portion<()>>,
}

impl Entry for Division {
    fn read(book: &mut Reader<'_>, alloc: Global) -> Result<Division, BadBook> {
        let cents = book.long()?;
        let count = usize::from(book.half()?);
        if count > MOST {
            return Err(BadBook::Length(count));
        }
        let portions = (0..count)
            .map(|_| -> Result<Portion<()>, BadBook> { Ok(Portion::new((), book.word()?)) })
            .try_collect(alloc)?;
        Ok(Division { cents, portions })
    }
}

/// Writes a line for each division: its number from 0, and the shares.
pub fn divide_all(divisions: &[u8], alloc: Global, text: &mut String) -> anyhow::Result<()> {
    // a division has a byte at least, so that there are no more divisions than bytes
    for (number, division) in Entries::new(divisions, alloc)
        .take(divisions.len())
        .enumerate()
    {
        let division = division?;
        write!(text, "division {number}")?;
        write_shares(division, text)?;
    }
    Ok(())
}

/// Divides, and writes the rest of the line.
fn write_shares(division: Division, text: &mut String) -> anyhow::Result<()> {
    let Division {
        cents,
        mut portions,
    } = division;
    if divide(cents, portions.as_mut_slice()).is_none() {
        writeln!(text, " nothing")?;
        return Ok(());
    }
    for portion in &portions {
        write!(text, " {}", portion.cents)?;
    }
    writeln!(text)?;
    Ok(())
}
