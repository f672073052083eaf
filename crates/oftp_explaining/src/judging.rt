//! The tables of a partner book, and where in its text a key stands.

use oftp_notes::Key;
use std::alloc::{AllocError, Global};
use strsim::levenshtein;

/// A table of a book.
#[derive(Clone, Copy, PartialEq, Eq)]
pub(crate) enum Table {
    /// What is outside of all tables.
    Top,
    /// That of the station.
    Station,
    /// That of the partner with this number, from 1 on.
    Partner(u64),
    /// Another one.
    Other,
}

/// The line at which a key of a table stands, from 1 on. Where it doesn't, it is the line at which the table begins.
pub(crate) fn line_in(text: &str, wanted: Table, key: &str) -> u64 {
    let mut now = Table::Top;
    let mut partners = 0u64;
    let mut beginning = 1;
    for (index, line) in text.lines().enumerate() {
        let number = (index as u64).saturating_add(1);
        let line = line.trim();
        if line.starts_with('[') {
            (now, partners) = entered(line, partners);
            if now == wanted {
                beginning = number;
            }
        } else if now == wanted && key_of(line) == key {
            return number;
        }
    }
    beginning
}

/// The table that begins at a line, and how many partners there are up to it.
fn entered(line: &str, partners: u64) -> (Table, u64) {
    if line.starts_with("[[partner]]") {
        let partners = partners.saturating_add(1);
        (Table::Partner(partners), partners)
    } else if line.starts_with("[station]") {
        (Table::Station, partners)
    } else {
        (Table::Other, partners)
    }
}

/// The key of a line.
fn key_of(line: &str) -> &str {
    match line.split_once('=') {
        Some((key, _)) => key.trim(),
        None => "",
    }
}

/// The line of an octet of a text, from 1 on.
pub(crate) fn line_at(text: &str, octet: usize) -> u64 {
    let mut line = 1u64;
    for (index, found) in text.as_bytes().iter().enumerate() {
        if index < octet && *found == b'\n' {
            line = line.saturating_add(1);
        }
    }
    line
}

/// The key among these that looks most like a word.
///
/// # Errors
/// Out of memory.
pub(crate) fn nearest(alloc: Global, keys: &[Key], word: &str) -> Result<Key, AllocError> {
    let mut best = Key::Book;
    let mut least = usize::MAX;
    for key in keys {
        let distance = levenshtein(alloc, key.word(), word)?;
        if distance < least {
            least = distance;
            best = *key;
        }
    }
    Ok(best)
}
