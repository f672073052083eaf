//! What is told of the octets of one command.

ghost use Rattle.std.specs.Prelude.{◌≡◌, ◌≤◌, length, Some, IfOk, []};
ghost use Rattle.std.specs.List.{prefix_len};
ghost use Rattle.std.specs.Fmt.{DisplaysOnOk};
ghost use Rattle.oftp_wire.specs.Octets.{is_allowed, value_of};
ghost use Rattle.oftp_wire.specs.Messages.{command_text};
ghost use Rattle.oftp_telling.specs.Shown.{shown};
ghost use Rattle.oftp_telling.specs.Fields.{seen, all_seen, form_seen, sheet_seen};
ghost use Rattle.oftp_telling.specs.Lines.{value_text, told_value, field_text, fields_text, untexted, command_line, kind_in, told, fault_line, ToldCommand, ToldFault};
ghost use Rattle.oftp_telling.specs.Names.{sheet_of};
ghost use Rattle.oftp_telling.specs.Telling.{telling_seen};

use crate::faults::{is_secret, write_fault, write_unknown};
use crate::fields::{FieldForm, FieldSheet, NamedField};
use crate::kind::CommandKind;
use crate::shown::{write_quoted, write_shown};
use crate::tables::fields_of;
use oftp_codec::parse;
use oftp_wire::{Command, Efna, Esid, Nerp, Sfna, Text, WireFault, is_allowed};
use std::alloc::{AllocError, Global};
use std::fmt;

/// What is told of the octets of one command.
#[derive(Drop)]
pub enum Telling {
    /// A command: what it says in words, and each field.
    Command(String),
    /// So many octets of a file. DATA are summed up.
    Data(usize),
    /// Why the octets are no command.
    Fault(String),
}

// The number of allowed characters at the beginning.
fn front_len(octets: &[u8]) -> usize
    ensures value { result ≡ prefix_len is_allowed octets.now }
    ensures within { result ≤ length octets.now }
{
    octets.iter().take_while(|c| is_allowed(**c)).count()
}

// The value in a field of characters, without its padding.
fn value_of(octets: &[u8]) -> &[u8]
    ensures { result.now ≡ value_of octets.now }
{
    let (value, _) = octets.split_at(front_len(octets));
    value
}

// Writes what a field of this form has.
#[tactic(auto, unfolding(crate::specs::Lines::value_text))]
fn write_value<W: fmt::Write>(
    f: &mut fmt::Formatter<W>,
    form: FieldForm,
    octets: &[u8],
) -> fmt::Result
    ensures { DisplaysOnOk W.write_str_gives f.old result (Some (value_text (form_seen form) octets.now)) f.new }
{
    match form {
        FieldForm::Name(_) => write_shown(f, value_of(octets)),
        FieldForm::Digits(_) | FieldForm::DigitsIf(_, _) => write_shown(f, octets),
        FieldForm::Word(_)
        | FieldForm::Flag
        | FieldForm::Mode
        | FieldForm::Format
        | FieldForm::Reserved(_)
        | FieldForm::Return
        | FieldForm::Any(_)
        | FieldForm::Utf8(_) => write_quoted(f, octets),
    }
}

// Writes what a field has, but not the password.
#[tactic(auto, unfolding(crate::specs::Lines::told_value))]
fn write_told<W: fmt::Write>(
    f: &mut fmt::Formatter<W>,
    field: NamedField,
    frame: &[u8],
) -> fmt::Result
    ensures { DisplaysOnOk W.write_str_gives f.old result (Some (told_value (seen field) frame.now)) f.new }
{
    if is_secret(field.name) {
        return f.write_str("****");
    }
    write_value(f, field.form, field.octets(frame))
}

// Writes a field with what it has.
#[tactic(auto, unfolding(crate::specs::Lines::field_text))]
fn write_field<W: fmt::Write>(
    f: &mut fmt::Formatter<W>,
    field: NamedField,
    frame: &[u8],
) -> fmt::Result
    ensures { DisplaysOnOk W.write_str_gives f.old result (Some (field_text (seen field) frame.now)) f.new }
{
    write!(f, " {}=", field.name)?;
    write_told(f, field, frame)
}

// Writes all fields.
fn write_fields<W: fmt::Write>(
    f: &mut fmt::Formatter<W>,
    fields: &[NamedField],
    frame: &[u8],
) -> fmt::Result
    ensures { DisplaysOnOk W.write_str_gives f.old result (Some (fields_text (all_seen fields.now) frame.now)) f.new }
{
    match fields {
        [] => Ok(()),
        [first, rest @ ..] => {
            write_field(f, *first, frame)?;
            write_fields(f, rest, frame)
        }
    }
}

// The empty text.
fn no_text() -> Text<'static>
    ensures { result ≡ [] }
{
    Text::new("").unwrap()
}

// Writes a command in words, without its text.
fn write_untexted<W: fmt::Write>(f: &mut fmt::Formatter<W>, command: &Command<'_>) -> fmt::Result
    ensures { DisplaysOnOk W.write_str_gives f.old result (Some (command_text (untexted command.now))) f.new }
{
    match command {
        Command::Sfna(s) => {
            let plain = Command::Sfna(Sfna {
                reason: s.reason,
                retry: s.retry,
                text: no_text(),
            });
            write!(f, "{plain}")
        }
        Command::Efna(s) => {
            let plain = Command::Efna(Efna {
                reason: s.reason,
                text: no_text(),
            });
            write!(f, "{plain}")
        }
        Command::Esid(s) => {
            let plain = Command::Esid(Esid {
                reason: s.reason,
                text: no_text(),
            });
            write!(f, "{plain}")
        }
        Command::Nerp(s) => {
            let plain = Command::Nerp(nerp_without_text(s));
            write!(f, "{plain}")
        }
        other => write!(f, "{other}"),
    }
}

// A NERP without its text.
fn nerp_without_text<'a>(s: &Nerp<'a>) -> Nerp<'a>
    ensures { result ≡ record s.now { text = [] } }
{
    Nerp {
        dataset: s.dataset.again(),
        date: s.date.again(),
        time: s.time.again(),
        destination: s.destination.again(),
        originator: s.originator.again(),
        creator: s.creator.again(),
        reason: s.reason,
        text: no_text(),
    }
}

// The line of a command.
#[derive(Drop)]
struct CommandLine<'c, 's, 'f> {
    command: &'c Command<'f>,
    sheet: &'s FieldSheet,
    frame: &'f [u8],
}

impl fmt::Display for CommandLine<'_, '_, '_> {
    ghost use Rattle.std.specs.Prelude.{Some};
    ghost use Rattle.oftp_telling.specs.Fields.{sheet_seen};
    ghost use Rattle.oftp_telling.specs.Lines.{command_line};

    ghost output = { λ l. Some (command_line l.command.now (sheet_seen l.sheet.now) l.frame.now) };

    fn fmt<W: fmt::Write>(&self, f: &mut fmt::Formatter<W>) -> fmt::Result {
        write_untexted(f, self.command)?;
        f.write_str(":")?;
        write_fields(f, self.sheet.fields.as_slice(), self.frame)
    }
}

// The line of a fault.
#[derive(Drop)]
struct FaultLine<'s, 'f> {
    kind: CommandKind,
    sheet: &'s FieldSheet,
    frame: &'f [u8],
    fault: WireFault,
}

impl fmt::Display for FaultLine<'_, '_> {
    ghost use Rattle.std.specs.Prelude.{Some};
    ghost use Rattle.oftp_telling.specs.Fields.{sheet_seen};
    ghost use Rattle.oftp_telling.specs.Lines.{fault_line};

    ghost output = { λ l. Some (fault_line l.kind (sheet_seen l.sheet.now) l.frame.now l.fault) };

    fn fmt<W: fmt::Write>(&self, f: &mut fmt::Formatter<W>) -> fmt::Result {
        write_fault(f, self.kind, self.sheet, self.frame, self.fault)
    }
}

// The line of octets that begin as no command does.
#[derive(Drop)]
struct UnknownLine<'a> {
    frame: &'a [u8],
}

impl fmt::Display for UnknownLine<'_> {
    ghost use Rattle.std.specs.Prelude.{Some};
    ghost use Rattle.oftp_telling.specs.Lines.{unknown_line};

    ghost output = { λ l. Some (unknown_line l.frame.now) };

    fn fmt<W: fmt::Write>(&self, f: &mut fmt::Formatter<W>) -> fmt::Result {
        write_unknown(f, self.frame)
    }
}

/// The kind that the octets of a frame begin as, without its stream header. Of no octets there is none, nor of a letter that no command has.
pub fn kind_in(frame: &[u8]) -> Option<CommandKind>
    ensures { result ≡ kind_in frame.now }
{
    match frame {
        [] => None,
        [letter, ..] => CommandKind::of(*letter),
    }
}

// What is told of a command.
fn tell_command<'f>(
    alloc: Global,
    kind: CommandKind,
    command: &Command<'f>,
    frame: &'f [u8],
) -> Result<Telling, AllocError>
    ensures { IfOk result (λ t. telling_seen t ≡ ToldCommand (command_line command.now (sheet_of kind frame.now) frame.now)) }
{
    let sheet = fields_of(alloc, kind, frame)?;
    let line = CommandLine {
        command,
        sheet: &sheet,
        frame,
    };
    Ok(Telling::Command(format!(in alloc; "{line}")?))
}

// What is told of a fault.
fn tell_fault(
    alloc: Global,
    kind: CommandKind,
    fault: WireFault,
    frame: &[u8],
) -> Result<Telling, AllocError>
    ensures { IfOk result (λ t. telling_seen t ≡ ToldFault (fault_line kind (sheet_of kind frame.now) frame.now fault)) }
{
    let sheet = fields_of(alloc, kind, frame)?;
    let line = FaultLine {
        kind,
        sheet: &sheet,
        frame,
        fault,
    };
    Ok(Telling::Fault(format!(in alloc; "{line}")?))
}

/// What is told of the octets of a frame, without its stream header.
///
/// # Errors
///
/// Out of memory.
#[tactic(auto, unfolding(crate::specs::Lines::told))]
pub fn tell(alloc: Global, frame: &[u8]) -> Result<Telling, AllocError>
    ensures { IfOk result (λ t. telling_seen t ≡ told frame.now) }
{
    let Some(kind) = kind_in(frame) else {
        let line = UnknownLine { frame };
        return Ok(Telling::Fault(format!(in alloc; "{line}")?));
    };
    match parse(frame) {
        Ok(Command::Data(octets)) => Ok(Telling::Data(octets.octets().len())),
        Ok(command) => tell_command(alloc, kind, &command, frame),
        Err(fault) => tell_fault(alloc, kind, fault, frame),
    }
}
