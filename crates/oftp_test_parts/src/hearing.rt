//! Runs a session with an office, or an operator's call. Only this file calls the engine for one office.

use crate::noting::Noting;
use oftp_engine::{End, Operator, Port, Role, RunFault, Told, operate, serve};
use oftp_partners::Book;
use std::alloc::Global;
use std::io::{self, ErrorKind, Read};
use std::test::Fail;

/// A reader that returns some octets per call, and then ends or fails.
#[derive(Drop)]
pub struct Line<'a> {
    pub octets: &'a [u8],
    /// How many octets it returns per call, at most.
    pub at_once: usize,
    pub breaks: bool,
}

impl<'a> Line<'a> {
    /// A reader that returns all octets at once, and ends.
    pub fn of(octets: &'a [u8]) -> Line<'a> {
        Line {
            octets,
            at_once: usize::MAX,
            breaks: false,
        }
    }
}

impl Read for Line<'_> {
    fn read(&mut self, piece: &mut [u8]) -> io::Result<usize> {
        if self.octets.is_empty() && self.breaks {
            return Err(io::Error::from(ErrorKind::ConnectionReset));
        }
        let length = self.octets.len().min(piece.len()).min(self.at_once);
        piece[..length].copy_from_slice(&self.octets[..length]);
        self.octets = &self.octets[length..];
        Ok(length)
    }
}

/// The result of a session.
#[derive(Drop)]
pub struct Heard {
    pub end: Result<End, RunFault>,
    /// How many octets were read.
    pub octets: u64,
    /// Whether the input has ended.
    pub has_ended: bool,
    /// The station's output.
    pub said: Vec<u8>,
    /// How many octets of the output the port counts.
    pub moved: u64,
    /// How many errors of the writer the port counts.
    pub faults: u64,
}

/// Serves a session in which at most this many octets are read.
pub fn hear(
    alloc: Global,
    office: &mut Noting,
    book: &Book,
    role: Role<'_>,
    line: Line<'_>,
    most: u64,
) -> Heard {
    let mut reader = Port::new(line, most);
    let mut writer = Port::new(Vec::new(alloc), 0);
    let end = serve(alloc, office, book, role, &mut reader, &mut writer);
    Heard {
        end,
        octets: reader.moved(),
        has_ended: reader.has_ended(),
        moved: writer.moved(),
        faults: writer.faults(),
        said: writer.into_inner(),
    }
}

/// Does an operator's call, and adds its line.
pub fn call(
    alloc: Global,
    office: &mut Noting,
    book: &Book,
    call: &Operator<'_>,
    line: &mut Vec<u8>,
) -> Result<Told, RunFault> {
    let mut writer = Port::new(Vec::new(alloc), 0);
    let told = operate(alloc, office, book, call, &mut writer);
    *line = writer.into_inner();
    told
}

/// The role of a station that calls a partner.
pub fn caller<'a>(book: &'a Book, partner: &[u8]) -> Result<Role<'a>, Fail> {
    match book.partner(partner) {
        Some(partner) => Ok(Role::Initiator(partner)),
        None => Err("the partner isn't in the book".into()),
    }
}
