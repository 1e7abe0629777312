//! The blocks of an admitted day, one after the other.
ghost use Rattle.std.specs.Prelude.{◌≡◌, ◌-◌};
ghost use Rattle.std.specs.Iterator.{at_most};
ghost use Rattle.dayfile.specs.Files.{blocks};
ghost use Rattle.dayfile.specs.Days.{records};
ghost use Rattle.dayfile.specs.Coming.{NextBlock, left};

use crate::block::Block;
use crate::day::AdmittedDay;

/// The blocks of a day that are still to come, in the order of the file.
#[derive(Clone, Drop)]
pub struct Blocks<'f> {
    day: AdmittedDay<'f>,
    next: usize,
}

impl<'f> AdmittedDay<'f> {
    /// The day's blocks, in order.
    pub fn iter(&self) -> Blocks<'f>
        ensures day { result.day ≡ self.now }
        ensures from_the_first { result.next ≡ 0 }
        ensures all_records { left result ≡ records self.now.file.now }
    {
        Blocks {
            day: *self,
            next: 0,
        }
    }
}

impl<'f> Iterator for Blocks<'f> {
    type Item = Block<'f>;

    ghost next_gives = { NextBlock };

    ghost remaining = { λ s. at_most (blocks s.day.file.now - s.next) };

    fn next(&mut self) -> Option<Block<'f>> {
        let block = self.day.block(self.next)?;
        self.next += 1;
        Some(block)
    }
}

impl<'f> IntoIterator for &AdmittedDay<'f> {
    type Item = Block<'f>;

    type IntoIter = Blocks<'f>;

    ghost into_iter_gives = { λ day it. (it.day ≡ day.now) × (it.next ≡ 0) × (left it ≡ records day.now.file.now) };

    fn into_iter(self) -> Blocks<'f> {
        self.iter()
    }
}
