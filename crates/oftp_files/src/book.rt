//! The partner book that a command line names.

use crate::files::{file_fault, open_input};
use oftp_outcomes::Fault;
use oftp_partners::{self as partners, Book, BookFault};
use std::alloc::Global;
use std::fs;
use std::io::Read;
use std::rt::Files;

/// The length of the longest book, in octets: forty times what 1,000 partners with the longest values need.
const LONGEST_BOOK: u64 = 16_777_216;

/// Reads a partner book from a file.
///
/// # Errors
/// [`Fault::File`] if the file can't be read, or has more than 16 MiB; those of [`book_of`].
pub fn read_book<R: Files + AllocGlobal>(rt: &R, path: &str) -> Result<Book, Fault> {
    let octets = book_octets(rt, path)?;
    book_of(rt.alloc(), octets.as_slice())
}

/// Reads a partner book from a file, and returns the file's octets with it.
///
/// # Errors
/// Those of [`read_book`].
pub fn read_book_octets(rt: &HostRuntime, path: &str) -> Result<(Vec<u8>, Book), Fault> {
    let octets = book_octets(rt, path)?;
    let book = book_of(rt.alloc(), octets.as_slice())?;
    Ok((octets, book))
}

/// Reads a partner book as [`read_book_octets`] does, from a regular file alone: a pipe would make its reader wait.
///
/// # Errors
/// Those of [`read_book`]; [`Fault::File`] if something else is at the path.
pub fn read_regular_book(rt: &HostRuntime, path: &str) -> Result<(Vec<u8>, Book), Fault> {
    let about = fs::metadata(rt, path).map_err(|error| file_fault(&error))?;
    if !about.is_file() {
        return Err(Fault::File);
    }
    read_book_octets(rt, path)
}

/// The octets of a partner book. No more are read than the longest one has.
fn book_octets<R: Files + AllocGlobal>(rt: &R, path: &str) -> Result<Vec<u8>, Fault> {
    let file = open_input(rt, path)?;
    let mut octets = Vec::new(rt.alloc());
    let mut beginning = Read::take(file, LONGEST_BOOK + 1);
    let read = beginning.read_to_end(&mut octets);
    read.map_err(|error| file_fault(&error))?;
    if octets.len() as u64 > LONGEST_BOOK {
        return Err(Fault::File);
    }
    Ok(octets)
}

/// Parses a partner book.
///
/// # Errors
/// [`Fault::Book`] if the octets aren't a valid book, with the reason; [`Fault::MEMORY`].
pub fn book_of(alloc: Global, octets: &[u8]) -> Result<Book, Fault> {
    let Ok(text) = str::from_utf8(octets) else {
        return Err(Fault::Book(BookFault::NotToml));
    };
    partners::read(alloc, text).map_err(book_fault)
}

/// The error for a book that wasn't read. Out of memory isn't an error of the book.
fn book_fault(fault: BookFault) -> Fault {
    match fault {
        BookFault::Memory => Fault::MEMORY,
        other => Fault::Book(other),
    }
}
