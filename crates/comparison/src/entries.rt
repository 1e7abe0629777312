//! What stands in a book, one entry after the other.
use crate::reader::{BadBook, Reader};
use std::alloc::Global;
use std::marker::PhantomData;

/// What a book has many of.
pub trait Entry: Sized {
    /// The next entry of a book, which has at least a byte.
    fn read(book: &mut Reader<'_>, alloc: Global) -> Result<Self, BadBook>;
}

/// The entries of a book that are still to be read.
#[derive(Drop)]
pub struct Entries<'b, T> {
    book: Reader<'b>,
    alloc: Global,
    entry: PhantomData<T>,
}

impl<'b, T: Entry> Entries<'b, T> {
    pub fn new(bytes: &'b [u8], alloc: Global) -> Entries<'b, T> {
        Entries {
            book: Reader::new(bytes),
            alloc,
            entry: PhantomData,
        }
    }
}

impl<T: Entry> Iterator for Entries<'_, T> {
    type Item = Result<T, BadBook>;

    fn next(&mut self) -> Option<Result<T, BadBook>> {
        if self.book.is_empty() {
            return None;
        }
        Some(T::read(&mut self.book, self.alloc))
    }
}
