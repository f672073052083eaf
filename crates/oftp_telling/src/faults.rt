//! What is told of faulty octets: which field is at fault, what it has and what it may have.

ghost use Rattle.std.specs.Prelude.{◌≡◌, ◌++◌, Some, codes, option_map};
ghost use Rattle.std.specs.Fmt.{DisplaysOnOk};
ghost use Rattle.oftp_codec.specs.Tables.{flag_words, mode_words, format_words};
ghost use Rattle.oftp_telling.specs.Shown.{quoted};
ghost use Rattle.oftp_telling.specs.Fields.{seen, all_seen, form_seen, sheet_seen};
ghost use Rattle.oftp_telling.specs.Lines.{is_secret, is_at_fault, culprit, rest_text, evidence_within, evidence_text, field_evidence, words_text, rule_text, section_text, spot_text, at_text, behind_text, place_text, fault_line, unknown_text, unknown_line};

use crate::fields::{FieldForm, FieldSheet, NamedField, front_of, rest_of};
use crate::kind::CommandKind;
use crate::shown::{write_hexadecimal, write_quoted};
use oftp_wire::WireFault;
use std::fmt;

/// How many octets are told of a field that is at fault.
pub const MOST_TOLD: usize = 64;

/// Whether nobody may read what a field has.
pub(crate) fn is_secret(name: &str) -> bool
    ensures { result ≡ is_secret name.now }
{
    name == "SSIDPSWD"
}

// Whether a field is the one with this fault in so many octets.
fn is_at_fault(fault: WireFault, len: usize, field: NamedField) -> bool
    ensures { result ≡ is_at_fault fault len (seen field) }
{
    let is_text = matches!(field.form, FieldForm::Utf8(_));
    match fault {
        WireFault::WrongLength => len < field.at || len - field.at < field.form.size(),
        WireFault::BadField(at) => field.at == at && !is_text,
        WireFault::BadText => is_text,
        WireFault::UnknownCommand | WireFault::NoRoom => false,
    }
}

// The first field with the fault. There is none where octets are left behind the last field.
fn culprit(fault: WireFault, len: usize, fields: &[NamedField]) -> Option<NamedField>
    ensures { option_map seen result ≡ culprit fault len (all_seen fields.now) }
{
    match fields {
        [] => None,
        [first, rest @ ..] => {
            if is_at_fault(fault, len, *first) {
                Some(*first)
            } else {
                culprit(fault, len, rest)
            }
        }
    }
}

// Writes how many octets are told no more.
#[tactic(auto, unfolding(crate::specs::Lines::rest_text))]
fn write_rest<W: fmt::Write>(f: &mut fmt::Formatter<W>, count: usize) -> fmt::Result
    ensures { DisplaysOnOk W.write_str_gives f.old result (Some (rest_text count)) f.new }
{
    if count == 0 {
        return Ok(());
    }
    write!(f, " and {count} octets more")
}

// Writes the first octets, so many at most, as text and in hexadecimal.
#[tactic(auto, unfolding(crate::specs::Lines::evidence_within))]
fn write_within<W: fmt::Write>(f: &mut fmt::Formatter<W>, octets: &[u8], most: usize) -> fmt::Result
    ensures { DisplaysOnOk W.write_str_gives f.old result (Some (evidence_within most octets.now)) f.new }
{
    let first = front_of(octets, most);
    write_quoted(f, first)?;
    write_hexadecimal(f, first)?;
    write_rest(f, octets.len().saturating_sub(most))
}

/// Writes octets as text and in hexadecimal: the first [`MOST_TOLD`], and how many are left. Its error is the writer's.
#[tactic(auto, unfolding(crate::specs::Lines::evidence_text))]
pub fn write_evidence<W: fmt::Write>(f: &mut fmt::Formatter<W>, octets: &[u8]) -> fmt::Result
    ensures { DisplaysOnOk W.write_str_gives f.old result (Some (evidence_text octets.now)) f.new }
{
    write_within(f, octets, MOST_TOLD)
}

/// Writes what a field has in a command, but not the password. Its error is the writer's.
#[tactic(auto, unfolding(crate::specs::Lines::field_evidence))]
pub fn write_field_evidence<W: fmt::Write>(
    f: &mut fmt::Formatter<W>,
    field: NamedField,
    frame: &[u8],
) -> fmt::Result
    ensures { DisplaysOnOk W.write_str_gives f.old result (Some (field_evidence (seen field) frame.now)) f.new }
{
    if is_secret(field.name) {
        return f.write_str("****");
    }
    write_evidence(f, field.octets(frame))
}

// Writes one more word.
fn write_or<W: fmt::Write>(f: &mut fmt::Formatter<W>, word: &[u8]) -> fmt::Result
    ensures { DisplaysOnOk W.write_str_gives f.old result (Some (codes " or " ++ quoted word.now)) f.new }
{
    f.write_str(" or ")?;
    write_quoted(f, word)
}

// Writes Y or N.
fn write_flag<W: fmt::Write>(f: &mut fmt::Formatter<W>) -> fmt::Result
    ensures { DisplaysOnOk W.write_str_gives f.old result (Some (words_text flag_words)) f.new }
{
    write_quoted(f, b"Y")?;
    write_or(f, b"N")
}

// Writes S, R or B.
fn write_mode<W: fmt::Write>(f: &mut fmt::Formatter<W>) -> fmt::Result
    ensures { DisplaysOnOk W.write_str_gives f.old result (Some (words_text mode_words)) f.new }
{
    write_quoted(f, b"S")?;
    write_or(f, b"R")?;
    write_or(f, b"B")
}

// Writes F, V, U or T.
fn write_format<W: fmt::Write>(f: &mut fmt::Formatter<W>) -> fmt::Result
    ensures { DisplaysOnOk W.write_str_gives f.old result (Some (words_text format_words)) f.new }
{
    write_quoted(f, b"F")?;
    write_or(f, b"V")?;
    write_or(f, b"U")?;
    write_or(f, b"T")
}

/// Writes which octets a field of this form may have. Its error is the writer's.
#[tactic(auto, unfolding(crate::specs::Lines::rule_text))]
pub fn write_rule<W: fmt::Write>(f: &mut fmt::Formatter<W>, form: FieldForm) -> fmt::Result
    ensures { DisplaysOnOk W.write_str_gives f.old result (Some (rule_text (form_seen form))) f.new }
{
    match form {
        FieldForm::Word(word) => write_quoted(f, word),
        FieldForm::Flag => write_flag(f),
        FieldForm::Mode => write_mode(f),
        FieldForm::Format => write_format(f),
        FieldForm::Name(len) => write!(f, "0 to {len} of 0-9 A-Z / - . & ( ), then spaces"),
        FieldForm::Digits(len) | FieldForm::DigitsIf(true, len) => write!(f, "{len} digits"),
        FieldForm::DigitsIf(false, len) => {
            write!(f, "{len} digits 0, since the format has no records")
        }
        FieldForm::Reserved(len) | FieldForm::Any(len) => write!(f, "any {len} octets"),
        FieldForm::Return => f.write_str("a carriage return, hexadecimal 0d or 8d"),
        FieldForm::Utf8(len) => write!(f, "{len} octets of UTF-8"),
    }
}

// Writes the section that says so.
#[tactic(auto, unfolding(crate::specs::Lines::section_text))]
fn write_section<W: fmt::Write>(f: &mut fmt::Formatter<W>, kind: CommandKind) -> fmt::Result
    ensures { DisplaysOnOk W.write_str_gives f.old result (Some (section_text kind)) f.new }
{
    write!(f, " (RFC 5024, section {})", kind.section())
}

/// Writes where in a command of this kind a field is. Its error is the writer's.
#[tactic(auto, unfolding(crate::specs::Lines::spot_text))]
pub fn write_field_spot<W: fmt::Write>(
    f: &mut fmt::Formatter<W>,
    kind: CommandKind,
    field: NamedField,
) -> fmt::Result
    ensures { DisplaysOnOk W.write_str_gives f.old result (Some (spot_text kind (codes "field " ++ (seen field).name) field.at)) f.new }
{
    write!(
        f,
        "{}, field {} at offset {}: ",
        kind.word(),
        field.name,
        field.at
    )
}

/// Writes where in a command of this kind the last field ends. Its error is the writer's.
#[tactic(auto, unfolding(crate::specs::Lines::spot_text))]
pub fn write_end_spot<W: fmt::Write>(
    f: &mut fmt::Formatter<W>,
    kind: CommandKind,
    end: usize,
) -> fmt::Result
    ensures { DisplaysOnOk W.write_str_gives f.old result (Some (spot_text kind (codes "behind its last field") end)) f.new }
{
    write!(
        f,
        "{}, behind its last field at offset {end}: ",
        kind.word()
    )
}

// Writes a field that is at fault.
#[tactic(auto, unfolding(crate::specs::Lines::at_text))]
fn write_at<W: fmt::Write>(
    f: &mut fmt::Formatter<W>,
    kind: CommandKind,
    field: NamedField,
    frame: &[u8],
) -> fmt::Result
    ensures { DisplaysOnOk W.write_str_gives f.old result (Some (at_text kind (seen field) frame.now)) f.new }
{
    write_field_spot(f, kind, field)?;
    write_field_evidence(f, field, frame)?;
    f.write_str(", allowed: ")?;
    write_rule(f, field.form)?;
    write_section(f, kind)
}

// Writes the octets that are left behind the last field.
#[tactic(auto, unfolding(crate::specs::Lines::behind_text))]
fn write_behind<W: fmt::Write>(
    f: &mut fmt::Formatter<W>,
    kind: CommandKind,
    end: usize,
    frame: &[u8],
) -> fmt::Result
    ensures { DisplaysOnOk W.write_str_gives f.old result (Some (behind_text kind end frame.now)) f.new }
{
    write_end_spot(f, kind, end)?;
    write_evidence(f, rest_of(frame, end))?;
    f.write_str(", allowed: nothing")?;
    write_section(f, kind)
}

/// Writes a fault in octets of a kind.
pub(crate) fn write_fault<W: fmt::Write>(
    f: &mut fmt::Formatter<W>,
    kind: CommandKind,
    sheet: &FieldSheet,
    frame: &[u8],
    fault: WireFault,
) -> fmt::Result
    ensures { DisplaysOnOk W.write_str_gives f.old result (Some (fault_line kind (sheet_seen sheet.now) frame.now fault)) f.new }
{
    write!(f, "{fault}: ")?;
    match culprit(fault, frame.len(), sheet.fields.as_slice()) {
        Some(field) => write_at(f, kind, field, frame),
        None => write_behind(f, kind, sheet.end, frame),
    }
}

// Writes what no command begins with.
#[tactic(auto, unfolding(crate::specs::Lines::unknown_text))]
fn write_unknown_octets<W: fmt::Write>(f: &mut fmt::Formatter<W>, octets: &[u8]) -> fmt::Result
    ensures { DisplaysOnOk W.write_str_gives f.old result (Some (unknown_text octets.now)) f.new }
{
    write!(f, "{}: ", WireFault::UnknownCommand)?;
    write_evidence(f, octets)?;
    f.write_str(", allowed: one of I X H 2 3 D C T 4 5 F R E N P (RFC 5024, section 5.3)")
}

/// Writes that octets begin as no command does.
#[tactic(auto, unfolding(crate::specs::Lines::unknown_line))]
pub(crate) fn write_unknown<W: fmt::Write>(f: &mut fmt::Formatter<W>, frame: &[u8]) -> fmt::Result
    ensures { DisplaysOnOk W.write_str_gives f.old result (Some (unknown_line frame.now)) f.new }
{
    write_unknown_octets(f, front_of(frame, 1))
}
