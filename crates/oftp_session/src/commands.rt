//! The commands that a station sends.

ghost use Rattle.std.specs.Prelude.{◌≡◌, ◌≤◌, [], false, if◌then◌else◌};
ghost use Rattle.oftp_vfile.specs.VirtualFile.{IsLongest, is_stream, units_in};
ghost use Rattle.oftp_vfile.specs.declared.format.TheConstants.{MOST_ROWS};
ghost use Rattle.oftp_register.specs.declared.fit.TheConstants.{MOST_UNITS};
ghost use Rattle.oftp_register.specs.LookUps.{outgoing_entry};
ghost use Rattle.oftp_register.specs.Register.{Outgoing};
ghost use Rattle.oftp_codec.specs.Spelling.{is_data};
ghost use Rattle.oftp_wire.specs.declared.command.Command.TheVariants.{Efid as an_efid, Ssid as an_ssid};
ghost use Rattle.oftp_session.specs.Phases.{esid_of};
ghost use Rattle.oftp_session.specs.Opening.{answering_ssid, calling_ssid, ssid_with};
ghost use Rattle.oftp_session.specs.Receiving.{efna_of, efpa_of};
ghost use Rattle.oftp_session.specs.Listener.{sfna_of, sfpa_of};
ghost use Rattle.oftp_session.specs.InsideOpening.{agreement_of};
ghost use Rattle.oftp_session.specs.Speaker.{blocks, eerp_of, layout_of, nerp_of, response_of, sfid_of};

use crate::opening::{Agreement, answered_mode};
use oftp_partners::{Book, Partner};
use oftp_register::{
    DigitString, Identity, IssuedEntry, Name, Note, OutgoingEntry, ResponseKind, SIZE_UNIT,
};
use oftp_vfile::Format;
use oftp_wire::{
    Command, Count, Digits, Eerp, Efid, Efna, Efpa, EndReason, Esid, Layout, Mode, Nerp,
    SessionReason, Sfid, Sfna, Sfpa, Ssid, StartReason, Text, X,
};

// An empty field.
pub(crate) fn no_field<const N: usize>() -> X<'static, N>
    ensures { result ≡ [] }
{
    match X::new(b"") {
        Some(field) => field,
        None => unreachable!(),
    }
}

// An empty text.
pub(crate) fn no_text() -> Text<'static>
    ensures { result ≡ [] }
{
    match Text::new("") {
        Some(text) => text,
        None => unreachable!(),
    }
}

// ESID, without text (RFC 5024, section 5.3.11).
pub(crate) fn esid(reason: SessionReason) -> Command<'static>
    ensures { result ≡ esid_of reason }
{
    Command::Esid(Esid {
        reason: reason.number(),
        text: no_text(),
    })
}

// SFPA, with the Restart position that the station answers.
pub(crate) fn sfpa(restart: Count<17>) -> Command<'static>
    ensures { result ≡ sfpa_of restart }
{
    Command::Sfpa(Sfpa { restart })
}

// SFNA, without text.
pub(crate) fn sfna(reason: StartReason, retry: bool) -> Command<'static>
    ensures { result ≡ sfna_of reason retry }
{
    Command::Sfna(Sfna {
        reason: reason.number(),
        retry,
        text: no_text(),
    })
}

// EFPA, which asks to speak or doesn't.
pub(crate) fn efpa(change_direction: bool) -> Command<'static>
    ensures { result ≡ efpa_of change_direction }
{
    Command::Efpa(Efpa { change_direction })
}

// EFNA, without text.
pub(crate) fn efna(reason: EndReason) -> Command<'static>
    ensures { result ≡ efna_of reason }
{
    Command::Efna(Efna {
        reason: reason.number(),
        text: no_text(),
    })
}

// An SSID of the station. Options that it doesn't support are N.
fn ssid_with<'b>(
    book: &'b Book,
    partner: &'b Partner,
    buffer: Count<5>,
    credit: Count<3>,
    restart: bool,
    mode: Mode,
) -> Ssid<'b>
    ensures { result ≡ ssid_with book.entry.now partner.entry.now buffer credit restart mode }
{
    Ssid {
        level: Count::new(5),
        code: book.station().code.field(),
        password: partner.sends.field(),
        buffer,
        mode,
        compression: false,
        restart,
        special_logic: false,
        credit,
        authentication: false,
        user: no_field(),
    }
}

// The responder's SSID, with what is agreed with a partner that sent this mode.
pub(crate) fn answering_ssid<'b>(
    book: &'b Book,
    letter: Mode,
    agreement: &Agreement<'b>,
) -> Command<'b>
    ensures { result ≡ an_ssid (answering_ssid book.entry.now letter (agreement_of agreement.now)) }
{
    Command::Ssid(ssid_with(
        book,
        agreement.partner,
        agreement.link.buffer,
        agreement.link.credit,
        agreement.link.restart,
        answered_mode(agreement.partner.mode, letter),
    ))
}

// The initiator's SSID, with its own offers.
pub(crate) fn calling_ssid<'b>(book: &'b Book, partner: &'b Partner) -> Command<'b>
    ensures { result ≡ an_ssid (calling_ssid book.entry.now partner.entry.now) }
{
    let station = book.station();
    Command::Ssid(ssid_with(
        book,
        partner,
        station.buffer.field(),
        station.credit.field(),
        station.restart,
        partner.mode,
    ))
}

// A name as a field of a command.
fn name<const N: usize>(name: &Name<N>) -> X<'_, N>
    ensures { result ≡ name.now }
{
    match X::new(name.octets()) {
        Some(field) => field,
        None => unreachable!(),
    }
}

// Digits as a field of a command.
fn digits<const N: usize>(digits: &DigitString<N>) -> Digits<'_, N>
    ensures { result ≡ digits.now }
{
    match Digits::new(digits.octets()) {
        Some(field) => field,
        None => unreachable!(),
    }
}

// A text as a field of a command.
fn text(note: &Note) -> Text<'_>
    ensures { result ≡ note.now }
{
    match Text::new(note.as_str()) {
        Some(field) => field,
        None => unreachable!(),
    }
}

// EERP, the End-to-End Response to this file.
fn eerp(file: &Identity) -> Command<'_>
    ensures { result ≡ eerp_of file.now }
{
    Command::Eerp(Eerp {
        dataset: name(&file.dataset),
        date: digits(&file.date),
        time: digits(&file.time),
        user: no_field(),
        destination: name(&file.originator),
        originator: name(&file.destination),
    })
}

// NERP, a Negative End Response of which the station itself is the creator.
fn nerp<'a>(book: &'a Book, entry: &'a IssuedEntry) -> Command<'a>
    ensures { let e = entry.entry.now in
        result ≡ nerp_of book.entry.now.station.code e.identity e.response.reason e.response.text }
{
    let file = &entry.identity;
    Command::Nerp(Nerp {
        dataset: name(&file.dataset),
        date: digits(&file.date),
        time: digits(&file.time),
        destination: name(&file.originator),
        originator: name(&file.destination),
        creator: book.station().code.field(),
        reason: entry.response.reason,
        text: text(&entry.response.text),
    })
}

// The command of the response that was issued to a file.
pub(crate) fn response<'a>(book: &'a Book, entry: &'a IssuedEntry) -> Command<'a>
    ensures { result ≡ response_of book.entry.now.station.code entry.entry.now entry.entry.now.response.kind }
{
    match entry.response.kind {
        ResponseKind::EndResponse => eerp(&entry.identity),
        ResponseKind::NegativeEndResponse => nerp(book, entry),
    }
}

// Format and longest record of a file, as SFID has them.
fn layout(format: Format, longest: u32) -> Layout
    requires { IsLongest format longest }
    ensures { result ≡ layout_of format longest }
{
    match format {
        Format::Fixed => Layout::Fixed(Count::new(longest as u64)),
        Format::Variable => Layout::Variable(Count::new(longest as u64)),
        Format::Unstructured => Layout::Unstructured,
        Format::Text => Layout::Text,
    }
}

// A number of octets as SFIDOSIZ has it: in blocks of 1,024 octets, rounded up.
fn size(units: u64) -> Count<13>
    requires { units ≤ MOST_UNITS }
    ensures { result ≡ blocks units }
{
    Count::new((units + SIZE_UNIT - 1) / SIZE_UNIT)
}

// SFID of a file with this entry and this number of octets, which is offered from row `from` on.
pub(crate) fn sfid<'a>(entry: &'a OutgoingEntry, units: u64, from: u64) -> Command<'a>
    requires longest { IsLongest entry.now.format entry.now.longest }
    requires units { units ≤ MOST_UNITS }
    requires from { from ≤ MOST_ROWS }
    ensures value { (file : Outgoing) → entry.entry.now ≡ outgoing_entry entry.entry.now.no file
        → units ≡ units_in file.rows → result ≡ sfid_of file from }
    ensures command { is_data result ≡ false }
{
    let file = &entry.identity;
    Command::Sfid(Sfid {
        dataset: name(&file.dataset),
        date: digits(&file.date),
        time: digits(&file.time),
        user: no_field(),
        destination: name(&file.destination),
        originator: name(&file.originator),
        layout: layout(entry.format, entry.longest),
        size: size(units),
        original_size: size(units),
        restart: Count::new(from),
        security: Count::new(0),
        cipher: Count::new(0),
        compression: Count::new(0),
        enveloping: Count::new(0),
        signed_response: false,
        description: text(&entry.description),
    })
}

// EFID of a file. Blocks of a stream aren't counted as records (RFC 5024, section 5.3.8).
pub(crate) fn efid(format: Format, rows: Count<17>, units: Count<17>) -> Command<'static>
    ensures { result ≡ an_efid (record { records = if is_stream format then 0 else rows; units = units }) }
{
    let records = if format.is_stream() {
        Count::new(0)
    } else {
        rows
    };
    Command::Efid(Efid { records, units })
}
