//! The fields of each kind.

ghost use Rattle.std.specs.Prelude.{◌≡◌, ◌<◌, ◌-◌, IfOk, codes};
ghost use Rattle.oftp_wire.specs.Octets.{part, number};
ghost use Rattle.oftp_codec.specs.Tables.{ssrm_table, ssid_table, sfid_table, sfpa_table, sfna_table, data_table, cdt_table, efid_table, efpa_table, efna_table, esid_table, single_table, eerp_table, nerp_table, format_of, has_records};
ghost use Rattle.oftp_telling.specs.Names.{named_rows, sheet_of, ssrm_names, ssid_names, sfid_names, sfpa_names, sfna_names, data_names, cdt_names, efid_names, efpa_names, efna_names, esid_names, cd_names, eerp_names, nerp_names, rtr_names};
ghost use Rattle.oftp_telling.specs.Fields.{all_seen, sheet_seen};

use crate::fields::FieldForm::{
    Any, Digits, DigitsIf, Flag, Format, Mode, Name, Reserved, Return, Utf8, Word,
};
use crate::fields::{FieldForm, FieldSheet, NamedField, part_of};
use crate::kind::CommandKind;
use std::alloc::{AllocError, Global};

// A field.
const fn field(name: &'static str, at: usize, form: FieldForm) -> NamedField
    ensures { result ≡ record { name = name.entry; at = at; form = form } }
{
    NamedField { name, at, form }
}

// SSRM.
fn ssrm_fields() -> [NamedField; 3]
    ensures { all_seen result ≡ named_rows ssrm_names ssrm_table.rows }
{
    [
        field("SSRMCMD", 0, Word(b"I")),
        field("SSRMMSG", 1, Word(b"ODETTE FTP READY ")),
        field("SSRMCR", 18, Return),
    ]
}

// SSID.
fn ssid_fields() -> [NamedField; 14]
    ensures { all_seen result ≡ named_rows ssid_names ssid_table.rows }
{
    [
        field("SSIDCMD", 0, Word(b"X")),
        field("SSIDLEV", 1, Digits(1)),
        field("SSIDCODE", 2, Name(25)),
        field("SSIDPSWD", 27, Name(8)),
        field("SSIDSDEB", 35, Digits(5)),
        field("SSIDSR", 40, Mode),
        field("SSIDCMPR", 41, Flag),
        field("SSIDREST", 42, Flag),
        field("SSIDSPEC", 43, Flag),
        field("SSIDCRED", 44, Digits(3)),
        field("SSIDAUTH", 47, Flag),
        field("SSIDRSV1", 48, Reserved(4)),
        field("SSIDUSER", 52, Name(8)),
        field("SSIDCR", 60, Return),
    ]
}

// SFID with or without records, and with so many octets of description.
fn sfid_fields(recorded: bool, len: usize) -> [NamedField; 20]
    ensures { all_seen result ≡ named_rows sfid_names (sfid_table recorded len).rows }
{
    [
        field("SFIDCMD", 0, Word(b"H")),
        field("SFIDDSN", 1, Name(26)),
        field("SFIDRSV1", 27, Reserved(3)),
        field("SFIDDATE", 30, Digits(8)),
        field("SFIDTIME", 38, Digits(10)),
        field("SFIDUSER", 48, Name(8)),
        field("SFIDDEST", 56, Name(25)),
        field("SFIDORIG", 81, Name(25)),
        field("SFIDFMT", 106, Format),
        field("SFIDLRECL", 107, DigitsIf(recorded, 5)),
        field("SFIDFSIZ", 112, Digits(13)),
        field("SFIDOSIZ", 125, Digits(13)),
        field("SFIDREST", 138, Digits(17)),
        field("SFIDSEC", 155, Digits(2)),
        field("SFIDCIPH", 157, Digits(2)),
        field("SFIDCOMP", 159, Digits(1)),
        field("SFIDENV", 160, Digits(1)),
        field("SFIDSIGN", 161, Flag),
        field("SFIDDESCL", 162, Digits(3)),
        field("SFIDDESC", 165, Utf8(len)),
    ]
}

// SFPA.
fn sfpa_fields() -> [NamedField; 2]
    ensures { all_seen result ≡ named_rows sfpa_names sfpa_table.rows }
{
    [
        field("SFPACMD", 0, Word(b"2")),
        field("SFPAACNT", 1, Digits(17)),
    ]
}

// SFNA with so many octets of text.
fn sfna_fields(len: usize) -> [NamedField; 5]
    ensures { all_seen result ≡ named_rows sfna_names (sfna_table len).rows }
{
    [
        field("SFNACMD", 0, Word(b"3")),
        field("SFNAREAS", 1, Digits(2)),
        field("SFNARRTR", 3, Flag),
        field("SFNAREASL", 4, Digits(3)),
        field("SFNAREAST", 7, Utf8(len)),
    ]
}

// DATA with so many octets of payload.
fn data_fields(len: usize) -> [NamedField; 2]
    ensures { all_seen result ≡ named_rows data_names (data_table len).rows }
{
    [
        field("DATACMD", 0, Word(b"D")),
        field("DATABUF", 1, Any(len)),
    ]
}

// CDT.
fn cdt_fields() -> [NamedField; 2]
    ensures { all_seen result ≡ named_rows cdt_names cdt_table.rows }
{
    [
        field("CDTCMD", 0, Word(b"C")),
        field("CDTRSV1", 1, Reserved(2)),
    ]
}

// EFID.
fn efid_fields() -> [NamedField; 3]
    ensures { all_seen result ≡ named_rows efid_names efid_table.rows }
{
    [
        field("EFIDCMD", 0, Word(b"T")),
        field("EFIDRCNT", 1, Digits(17)),
        field("EFIDUCNT", 18, Digits(17)),
    ]
}

// EFPA.
fn efpa_fields() -> [NamedField; 2]
    ensures { all_seen result ≡ named_rows efpa_names efpa_table.rows }
{
    [field("EFPACMD", 0, Word(b"4")), field("EFPACD", 1, Flag)]
}

// EFNA with so many octets of text.
fn efna_fields(len: usize) -> [NamedField; 4]
    ensures { all_seen result ≡ named_rows efna_names (efna_table len).rows }
{
    [
        field("EFNACMD", 0, Word(b"5")),
        field("EFNAREAS", 1, Digits(2)),
        field("EFNAREASL", 3, Digits(3)),
        field("EFNAREAST", 6, Utf8(len)),
    ]
}

// ESID with so many octets of text.
fn esid_fields(len: usize) -> [NamedField; 5]
    requires { len < 100000 }
    ensures { all_seen result ≡ named_rows esid_names (esid_table len).rows }
{
    [
        field("ESIDCMD", 0, Word(b"F")),
        field("ESIDREAS", 1, Digits(2)),
        field("ESIDREASL", 3, Digits(3)),
        field("ESIDREAST", 6, Utf8(len)),
        field("ESIDCR", 6 + len, Return),
    ]
}

// CD.
fn cd_fields() -> [NamedField; 1]
    ensures { all_seen result ≡ named_rows cd_names (single_table (codes "R")).rows }
{
    [field("CDCMD", 0, Word(b"R"))]
}

// EERP.
fn eerp_fields() -> [NamedField; 10]
    ensures { all_seen result ≡ named_rows eerp_names eerp_table.rows }
{
    [
        field("EERPCMD", 0, Word(b"E")),
        field("EERPDSN", 1, Name(26)),
        field("EERPRSV1", 27, Reserved(3)),
        field("EERPDATE", 30, Digits(8)),
        field("EERPTIME", 38, Digits(10)),
        field("EERPUSER", 48, Name(8)),
        field("EERPDEST", 56, Name(25)),
        field("EERPORIG", 81, Name(25)),
        field("EERPHSHL", 106, Word(&[0, 0])),
        field("EERPSIGL", 108, Word(&[0, 0])),
    ]
}

// NERP with so many octets of text.
fn nerp_fields(len: usize) -> [NamedField; 13]
    requires { len < 100000 }
    ensures { all_seen result ≡ named_rows nerp_names (nerp_table len).rows }
{
    [
        field("NERPCMD", 0, Word(b"N")),
        field("NERPDSN", 1, Name(26)),
        field("NERPRSV1", 27, Reserved(6)),
        field("NERPDATE", 33, Digits(8)),
        field("NERPTIME", 41, Digits(10)),
        field("NERPDEST", 51, Name(25)),
        field("NERPORIG", 76, Name(25)),
        field("NERPCREA", 101, Name(25)),
        field("NERPREAS", 126, Digits(2)),
        field("NERPREASL", 128, Digits(3)),
        field("NERPREAST", 131, Utf8(len)),
        field("NERPHSHL", 131 + len, Word(&[0, 0])),
        field("NERPSIGL", 131 + len + 2, Word(&[0, 0])),
    ]
}

// RTR.
fn rtr_fields() -> [NamedField; 1]
    ensures { all_seen result ≡ named_rows rtr_names (single_table (codes "P")).rows }
{
    [field("RTRCMD", 0, Word(b"P"))]
}

// The number that a digit stands for; other octets count as they stand behind `0`.
fn digit(octet: u8) -> usize
    ensures value { result ≡ octet - 48 }
    ensures small { result < 208 }
{
    usize::from(octet.saturating_sub(b'0'))
}

// The length that three digits say. Fewer digits, or other octets, are read by the same sum.
fn length_at(frame: &[u8], at: usize) -> usize
    ensures value { result ≡ number (part at 3 frame.now) }
    ensures small { result < 100000 }
{
    match part_of(frame, at, 3) {
        [a, b, c, ..] => (digit(*a) * 10 + digit(*b)) * 10 + digit(*c),
        [a, b] => digit(*a) * 10 + digit(*b),
        [a] => digit(*a),
        [] => 0,
    }
}

// Whether an SFID has a format with records. An unknown letter has none.
fn is_recorded(frame: &[u8]) -> bool
    ensures { result ≡ has_records (format_of (part 106 1 frame.now)) }
{
    matches!(part_of(frame, 106, 1), [b'F'] | [b'V'])
}

// A sheet of these fields.
fn sheet(alloc: Global, fields: &[NamedField], end: usize) -> Result<FieldSheet, AllocError>
    ensures { IfOk result (λ s. sheet_seen s ≡ record { entries = all_seen fields.now; end = end }) }
{
    let fields = Vec::from_slice(alloc, fields)?;
    Ok(FieldSheet { fields, end })
}

/// The fields that octets have which begin as this kind does. A text has the length that the field before it says.
///
/// # Errors
///
/// Out of memory.
#[tactic(auto, unfolding(crate::specs::Names::sheet_of))]
pub fn fields_of(alloc: Global, kind: CommandKind, frame: &[u8]) -> Result<FieldSheet, AllocError>
    ensures { IfOk result (λ s. sheet_seen s ≡ sheet_of kind frame.now) }
{
    match kind {
        CommandKind::Ssrm => sheet(alloc, &ssrm_fields(), 19),
        CommandKind::Ssid => sheet(alloc, &ssid_fields(), 61),
        CommandKind::Sfid => {
            let len = length_at(frame, 162);
            sheet(alloc, &sfid_fields(is_recorded(frame), len), 165 + len)
        }
        CommandKind::Sfpa => sheet(alloc, &sfpa_fields(), 18),
        CommandKind::Sfna => {
            let len = length_at(frame, 4);
            sheet(alloc, &sfna_fields(len), 7 + len)
        }
        CommandKind::Data => {
            let len = frame.len().saturating_sub(1);
            sheet(alloc, &data_fields(len), 1 + len)
        }
        CommandKind::Cdt => sheet(alloc, &cdt_fields(), 3),
        CommandKind::Efid => sheet(alloc, &efid_fields(), 35),
        CommandKind::Efpa => sheet(alloc, &efpa_fields(), 2),
        CommandKind::Efna => {
            let len = length_at(frame, 3);
            sheet(alloc, &efna_fields(len), 6 + len)
        }
        CommandKind::Esid => {
            let len = length_at(frame, 3);
            sheet(alloc, &esid_fields(len), 6 + len + 1)
        }
        CommandKind::Cd => sheet(alloc, &cd_fields(), 1),
        CommandKind::Eerp => sheet(alloc, &eerp_fields(), 110),
        CommandKind::Nerp => {
            let len = length_at(frame, 128);
            sheet(alloc, &nerp_fields(len), 131 + len + 4)
        }
        CommandKind::Rtr => sheet(alloc, &rtr_fields(), 1),
    }
}
