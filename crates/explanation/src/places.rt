//! Places in lines.
ghost use Rattle.std.specs.Prelude.{Some};
ghost use Rattle.explanation.specs.Texts.{place_text};

use dayfile::Place;
use std::fmt;

/// A place that is shown with each of its numbers in a line of its own.
#[derive(Clone, Copy, Debug, PartialEq, Eq)]
pub struct PlaceLines(pub Place);

impl fmt::Display for PlaceLines {
    ghost output = { λ lines. Some (place_text lines.0) };

    fn fmt<W: fmt::Write>(&self, f: &mut fmt::Formatter<W>) -> fmt::Result {
        match self.0 {
            Place::Nowhere => Ok(()),
            Place::Block { block } => write!(f, "block {block}\n"),
            Place::Field { block, byte } => write!(f, "block {block}\nbyte {byte}\n"),
            Place::Byte { byte } => write!(f, "byte {byte}\n"),
            Place::Hour { block, hour } => write!(f, "block {block}\nhour {hour}\n"),
            Place::Pool { pool } => write!(f, "pool {pool}\n"),
            Place::Row { row } => write!(f, "row {row}\n"),
        }
    }
}
