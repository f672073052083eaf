//! The words of a line.

use crate::octets::{Fields, fields_of, joined};
use oftp_vfile::{Format, Row};
use std::alloc::{AllocError, Global};

/// The rest of a line.
#[derive(Drop)]
pub struct Line<'a> {
    rest: &'a str,
}

impl<'a> Line<'a> {
    pub fn new(text: &'a str) -> Line<'a> {
        Line { rest: text }
    }

    /// The next word.
    pub fn word(&mut self) -> &'a str {
        let (word, rest) = self.rest.split_once(' ').unwrap_or((self.rest, ""));
        self.rest = rest;
        word
    }

    /// The next word as a number, 0 for another word.
    pub fn number(&mut self) -> u32 {
        self.word().parse::<u32>().unwrap_or(0)
    }

    /// The next word as the letter of a format.
    pub fn format(&mut self) -> Format {
        match self.word() {
            "F" => Format::Fixed,
            "V" => Format::Variable,
            "U" => Format::Unstructured,
            _ => Format::Text,
        }
    }

    /// The fields in the rest of the line.
    pub fn fields(&self, alloc: Global) -> Result<Fields, AllocError> {
        fields_of(alloc, self.rest)
    }

    /// The octets in the rest of the line.
    pub fn octets(&self, alloc: Global) -> Result<Vec<u8>, AllocError> {
        joined(alloc, &self.fields(alloc)?)
    }

    /// The fields in the rest of the line; none for `none`.
    pub fn words(&self, alloc: Global) -> Result<Fields, AllocError> {
        if self.rest == "none" {
            return Ok(Vec::new(alloc));
        }
        self.fields(alloc)
    }

    /// The rows in the rest of the line; none for `none`.
    pub fn rows(&self, alloc: Global) -> Result<Vec<Row>, AllocError> {
        rows_of(alloc, self.words(alloc)?)
    }
}

/// Fields as rows.
fn rows_of(alloc: Global, fields: Fields) -> Result<Vec<Row>, AllocError> {
    let mut rows = Vec::new(alloc);
    for field in fields {
        rows.push(Row::new(field))?;
    }
    Ok(rows)
}
