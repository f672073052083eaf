//! The command `report`: which rows of a report are told, and whether as comma-separated values or as JSON.

use oftp_command_line::Report;
use oftp_filters::{Condition, Test, begins_date, keeps};
use oftp_listing::ReportKind;
use oftp_outcomes::Fault;
use std::alloc::{AllocError, Global};
use std::io::{self, ErrorKind, Write};
use std::str;

/// The names of the columns with numbers.
const NUMBERS: [&str; 5] = ["no", "rows", "units", "mark", "file"];

/// The places of the columns of a report by which its rows are chosen.
#[derive(Clone, Copy)]
struct Columns {
    partner: Option<usize>,
    state: Option<usize>,
    date: Option<usize>,
}

/// The places of the columns of a report of this kind.
fn columns_of(kind: ReportKind) -> Columns {
    let (partner, state, date) = match kind {
        ReportKind::Incoming => (Some(4), Some(8), Some(2)),
        ReportKind::Outgoing => (Some(4), Some(9), Some(2)),
        ReportKind::Issued => (None, None, None),
        ReportKind::Received => (Some(5), None, Some(3)),
    };
    Columns {
        partner,
        state,
        date,
    }
}

/// Which rows a command line asks for.
#[derive(Drop)]
pub(crate) enum Asked<'a> {
    /// Those that meet these conditions.
    Rows(Vec<Condition<'a>>),
    /// Those with something that the report doesn't tell, or since something that is no date.
    Untold,
}

/// Which rows a command line asks for.
///
/// # Errors
/// Out of memory.
pub(crate) fn asked_by<'a>(alloc: Global, line: &Report<'a>) -> Result<Asked<'a>, AllocError> {
    if !line.since.is_none_or(|text| begins_date(text.as_bytes())) {
        return Ok(Asked::Untold);
    }
    let columns = columns_of(line.kind);
    let wishes = [
        (
            columns.partner,
            line.partner.map(|text| Test::Is(text.as_bytes())),
        ),
        (
            columns.state,
            line.state.map(|text| Test::Is(text.as_bytes())),
        ),
        (
            columns.date,
            line.since.map(|text| Test::Since(text.as_bytes())),
        ),
    ];
    let mut conditions = Vec::new(alloc);
    for (column, test) in wishes {
        match (column, test) {
            (_, None) => {}
            (Some(field), Some(test)) => conditions.push(Condition { field, test })?,
            (None, Some(_)) => return Ok(Asked::Untold),
        }
    }
    Ok(Asked::Rows(conditions))
}

/// How rows are written.
#[derive(Clone, Copy, PartialEq, Eq)]
pub(crate) enum Form {
    /// As comma-separated values, below the names of the columns.
    Values,
    /// As a list of JSON objects.
    Json,
}

/// A writer that takes a report and writes those of its rows that meet some conditions.
#[derive(Drop)]
pub(crate) struct Rows<'o, 'c, 'f, W> {
    alloc: Global,
    out: &'o mut W,
    conditions: &'c [Condition<'f>],
    form: Form,
    // The names of the columns, once they came.
    heading: Option<String>,
    // What came of the next line.
    line: Vec<u8>,
    // How many rows were written.
    count: u64,
    // Whether memory ran out.
    is_short: bool,
}

impl<'o, 'c, 'f, W: Write> Rows<'o, 'c, 'f, W> {
    /// A writer to `out`.
    pub(crate) fn new(
        alloc: Global,
        out: &'o mut W,
        conditions: &'c [Condition<'f>],
        form: Form,
    ) -> Rows<'o, 'c, 'f, W> {
        Rows {
            alloc,
            out,
            conditions,
            form,
            heading: None,
            line: Vec::new(alloc),
            count: 0,
            is_short: false,
        }
    }

    /// The error of a report that is written through this, which is [`Fault::MEMORY`] if memory ran out here.
    pub(crate) fn fault_of(&self, fault: Fault) -> Fault {
        if self.is_short { Fault::MEMORY } else { fault }
    }

    /// Ends the list of rows.
    pub(crate) fn finish(&mut self) -> io::Result<()> {
        match (self.form, self.count) {
            (Form::Values, _) => Ok(()),
            (Form::Json, 0) => self.out.write_all(b"[]\n"),
            (Form::Json, _) => self.out.write_all(b"\n]\n"),
        }
    }

    /// Takes the line that is whole.
    fn take_line(&mut self) -> io::Result<()> {
        let line = self.text()?;
        match self.heading.take() {
            None => self.take_heading(line),
            Some(heading) => {
                let taken = self.take_row(heading.as_str(), line.as_str());
                self.heading = Some(heading);
                taken
            }
        }
    }

    /// The line that is whole, as text.
    fn text(&mut self) -> io::Result<String> {
        let Ok(text) = str::from_utf8(self.line.as_slice()) else {
            return Err(io::Error::from(ErrorKind::InvalidData));
        };
        let line = String::from_str(self.alloc, text)?;
        self.line.clear();
        Ok(line)
    }

    /// Takes the names of the columns.
    fn take_heading(&mut self, heading: String) -> io::Result<()> {
        if let Form::Values = self.form {
            self.put(heading.as_str())?;
        }
        self.heading = Some(heading);
        Ok(())
    }

    /// Writes a row, if it meets the conditions.
    fn take_row(&mut self, heading: &str, line: &str) -> io::Result<()> {
        let fields = fields_of(self.alloc, line)?;
        if !keeps(self.conditions, fields.as_slice()) {
            return Ok(());
        }
        match self.form {
            Form::Values => self.put(line)?,
            Form::Json => {
                let text = object_of(self.alloc, heading, line)?;
                let before: &[u8] = if self.count == 0 { b"[\n" } else { b",\n" };
                self.out.write_all(before)?;
                self.out.write_all(text.as_bytes())?;
            }
        }
        self.count = self.count.saturating_add(1);
        Ok(())
    }

    /// Writes a line and its end.
    fn put(&mut self, line: &str) -> io::Result<()> {
        self.out.write_all(line.as_bytes())?;
        self.out.write_all(b"\n")
    }

    /// Takes an octet of the report.
    fn take(&mut self, octet: u8) -> io::Result<()> {
        if octet == b'\n' {
            self.take_line()
        } else {
            self.line.push(octet)?;
            Ok(())
        }
    }
}

impl<W: Write> Write for Rows<'_, '_, '_, W> {
    fn write(&mut self, octets: &[u8]) -> io::Result<usize> {
        for octet in octets {
            if let Err(error) = self.take(*octet) {
                self.is_short |= error.kind() == ErrorKind::OutOfMemory;
                return Err(error);
            }
        }
        Ok(octets.len())
    }

    fn flush(&mut self) -> io::Result<()> {
        self.out.flush()
    }
}

/// The fields of a line. No value of a report has a comma or a quote (RFC 5024, section 5.2).
fn fields_of(alloc: Global, line: &str) -> Result<Vec<&[u8]>, AllocError> {
    let mut fields = Vec::new(alloc);
    for field in line.split(',') {
        fields.push(field.as_bytes())?;
    }
    Ok(fields)
}

/// A row as a JSON object whose keys are the names of the columns.
fn object_of(alloc: Global, heading: &str, line: &str) -> Result<String, AllocError> {
    let mut text = String::from_str(alloc, "{")?;
    for (name, value) in heading.split(',').zip(line.split(',')) {
        if text.len() > 1 {
            text.push(',')?;
        }
        write!(text, "\"{name}\":")?;
        add_value(&mut text, name, value)?;
    }
    text.push('}')?;
    Ok(text)
}

/// Adds a value of a column: a number, or a text.
fn add_value(text: &mut String, name: &str, value: &str) -> Result<(), AllocError> {
    if NUMBERS.contains(&name) {
        return text.push_str(value);
    }
    text.push('"')?;
    for character in value.chars() {
        if matches!(character, '"' | '\\') {
            text.push('\\')?;
        }
        text.push(character)?;
    }
    text.push('"')
}
