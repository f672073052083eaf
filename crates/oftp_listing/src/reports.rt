//! Reports as CSV.

ghost use Rattle.std.specs.Prelude.{◌≡◌, ◌++◌, IfErr, IfOk, map};
ghost use Rattle.csv.specs.Records.{fields_of};
ghost use Rattle.oftp_io.specs.Ports.{Puts};
ghost use Rattle.oftp_listing.specs.declared.fault.ListFault.TheVariants.{Memory};
ghost use Rattle.oftp_listing.specs.Details.{text_of};
ghost use Rattle.oftp_listing.specs.Finding.{Finds};
ghost use Rattle.oftp_listing.specs.InsideResource.{all_lines, lines_with};
ghost use Rattle.oftp_listing.specs.Names.{issued_reason, received_reason, refusal_name};
ghost use Rattle.oftp_listing.specs.Reports.{IsReported, Reports, WriterTold, heading, incoming_fields, issued_fields, line, outgoing_fields, received_fields, report_of};
ghost use Rattle.oftp_listing.specs.Texts.{Asks};

use crate::detail::Detail;
use crate::fault::ListFault;
use crate::names::{
    digit_text, format_name, incoming_state_name, is_sent, kind_name, name_text,
    outgoing_state_name, reason_name, refusal_name, response_name,
};
use crate::resource::{Resource, list_with_numbers};
use csv::{ByteRecord, WriterBuilder};
use oftp_io::Port;
use oftp_register::{IncomingEntry, IssuedEntry, Office, OutgoingEntry, ReceivedEntry};
use std::alloc::{AllocError, Global};
use std::io::Write;

/// The subject of a report.
#[derive(Clone, Copy, Debug, Drop, PartialEq, Eq)]
pub enum ReportKind {
    /// The incoming files.
    Incoming,
    /// The outgoing files.
    Outgoing,
    /// The issued responses.
    Issued,
    /// The received responses.
    Received,
}

impl ReportKind {
    // The heading of the report.
    fn heading(self) -> &'static [u8]
        ensures { result.now ≡ heading self }
    {
        match self {
            ReportKind::Incoming => {
                b"no,dataset,date,time,originator,format,rows,units,state,response\n"
            }
            ReportKind::Outgoing => {
                b"no,dataset,date,time,destination,format,rows,units,mark,state,reason\n"
            }
            ReportKind::Issued => b"no,kind,reason,sent\n",
            ReportKind::Received => b"no,kind,dataset,date,time,from,reason,file,creator\n",
        }
    }
}

// The fields of a line.
fn record_of(alloc: Global, details: &[Detail<'_>]) -> Result<ByteRecord, AllocError>
    ensures { IfOk result (λ fields. fields_of fields ≡ map text_of details.now) }
{
    let mut fields = ByteRecord::new(alloc);
    for detail in details {
        detail.add_to(alloc, &mut fields)?;
    }
    Ok(fields)
}

/// A line of comma-separated fields. Writing into a vector fails only if memory runs out.
pub(crate) fn line(alloc: Global, details: &[Detail<'_>]) -> Result<Vec<u8>, ListFault>
    ensures text { IfOk result (λ text. text.items ≡ line (map text_of details.now)) }
    ensures fault { IfErr result (λ fault. fault ≡ Memory) }
{
    let fields = record_of(alloc, details)?;
    let mut lines = WriterBuilder::new().from_writer(Vec::new(alloc));
    lines
        .write_byte_record(&fields)
        .map_err(|_| ListFault::Memory)?;
    lines.into_inner().map_err(|_| ListFault::Memory)
}

/// The details of an incoming file.
pub(crate) fn incoming_details<'a>(entry: &'a IncomingEntry, units: u64) -> [Detail<'a>; 10]
    ensures { map text_of result ≡ incoming_fields entry.now units }
{
    [
        Detail::Count(entry.no),
        Detail::Text(name_text(&entry.identity.dataset)),
        Detail::Text(digit_text(&entry.identity.date)),
        Detail::Text(digit_text(&entry.identity.time)),
        Detail::Text(name_text(&entry.identity.originator)),
        Detail::Text(format_name(entry.format)),
        Detail::Count(entry.rows),
        Detail::Count(units),
        Detail::Text(incoming_state_name(entry.state)),
        Detail::Text(response_name(&entry.response)),
    ]
}

/// The details of an outgoing file, with the reason if it was refused.
pub(crate) fn outgoing_details<'a>(
    entry: &'a OutgoingEntry,
    reason: &'a str,
    units: u64,
) -> [Detail<'a>; 11]
    ensures { reason.now ≡ refusal_name entry.now.state → map text_of result ≡ outgoing_fields entry.now units }
{
    [
        Detail::Count(entry.no),
        Detail::Text(name_text(&entry.identity.dataset)),
        Detail::Text(digit_text(&entry.identity.date)),
        Detail::Text(digit_text(&entry.identity.time)),
        Detail::Text(name_text(&entry.identity.destination)),
        Detail::Text(format_name(entry.format)),
        Detail::Count(entry.rows),
        Detail::Count(units),
        Detail::Count(entry.mark),
        Detail::Text(outgoing_state_name(entry.state)),
        Detail::Text(reason),
    ]
}

/// The details of an issued response, with its reason.
pub(crate) fn issued_details<'a>(entry: &'a IssuedEntry, reason: &'a str) -> [Detail<'a>; 4]
    ensures { reason.now ≡ issued_reason entry.now → map text_of result ≡ issued_fields entry.now }
{
    [
        Detail::Count(entry.no),
        Detail::Text(kind_name(entry.response.kind)),
        Detail::Text(reason),
        Detail::Flag(is_sent(entry.response.dispatch)),
    ]
}

/// The details of a received response, with its reason and the number of the outgoing file that it answers.
pub(crate) fn received_details<'a>(
    entry: &'a ReceivedEntry,
    reason: &'a str,
    file: u64,
) -> [Detail<'a>; 9]
    ensures { reason.now ≡ received_reason entry.now → map text_of result ≡ received_fields entry.now file }
{
    let response = &entry.response;
    [
        Detail::Count(entry.no),
        Detail::Text(kind_name(response.kind)),
        Detail::Text(name_text(&response.identity.dataset)),
        Detail::Text(digit_text(&response.identity.date)),
        Detail::Text(digit_text(&response.identity.time)),
        Detail::Text(name_text(&response.identity.destination)),
        Detail::Text(reason),
        Detail::Count(file),
        Detail::Text(name_text(&response.creator)),
    ]
}

// Appends the lines of entries, each with the number beside it.
fn add_each_line<E: Resource>(
    alloc: Global,
    front: Vec<u8>,
    entries: &[E],
    numbers: &[u64],
) -> Result<Vec<u8>, ListFault>
    ensures text { IfOk result (λ text. text.items ≡ front.items ++ lines_with E.kind entries.now numbers.now) }
    ensures fault { IfErr result (λ fault. fault ≡ Memory) }
{
    let mut text = front;
    for (entry, number) in entries.iter().zip(numbers) {
        text.extend_from_slice(entry.to_line(alloc, *number)?.as_slice())?;
    }
    Ok(text)
}

// Appends the lines of all entries of a kind to the text.
fn add_lines<E: Resource + Drop, O: Office>(
    alloc: Global,
    front: Vec<u8>,
    office: &mut O,
) -> Result<Vec<u8>, ListFault>
    ensures finds { Finds (λ r text. text.items ≡ front.items ++ all_lines E.kind r) (O.view office.old) (O.view office.new) result }
{
    let (entries, numbers) = list_with_numbers::<E, O>(alloc, office)?;
    add_each_line(alloc, front, entries.as_slice(), numbers.as_slice())
}

// The text of a report.
fn report_text<O: Office>(
    alloc: Global,
    kind: ReportKind,
    office: &mut O,
) -> Result<Vec<u8>, ListFault>
    ensures finds { Finds (λ r text. text.items ≡ report_of kind r) (O.view office.old) (O.view office.new) result }
{
    let text = Vec::from_slice(alloc, kind.heading())?;
    match kind {
        ReportKind::Incoming => add_lines::<IncomingEntry, O>(alloc, text, office),
        ReportKind::Outgoing => add_lines::<OutgoingEntry, O>(alloc, text, office),
        ReportKind::Issued => add_lines::<IssuedEntry, O>(alloc, text, office),
        ReportKind::Received => add_lines::<ReceivedEntry, O>(alloc, text, office),
    }
}

/// Writes a report of the office's register: a heading and a line for each entry, in order of their numbers. The office is only read, and
/// the writer is called after all look-ups.
///
/// # Errors
///
/// - [`ListFault::Office`]: the office returned an error. Nothing is written.
/// - [`ListFault::Memory`]: out of memory. Nothing is written.
/// - [`ListFault::Write`] only where the writer returned an error in this call. It took a beginning of the report.
pub fn report<O: Office, W: Write>(
    alloc: Global,
    kind: ReportKind,
    office: &mut O,
    writer: &mut Port<W>,
) -> Result<(), ListFault>
    ensures text { IsReported W.contents kind (O.view office.old) (O.view office.new) writer.old writer.new result }
    ensures asks { Asks (O.view office.old) (O.view office.new) }
    ensures told { Reports (O.view office.old).told (O.view office.new).told (writer.new ≡ writer.old) result }
    ensures out { Puts W.contents writer.old writer.new }
    ensures writer_told { WriterTold writer.old writer.new result }
{
    let text = report_text(alloc, kind, office)?;
    if writer.send(text.as_slice()) {
        Ok(())
    } else {
        Err(ListFault::Write)
    }
}
