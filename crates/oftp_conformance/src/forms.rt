//! What is wrong with the form of a field, and with the end of a command.

ghost use Rattle.std.specs.Prelude.{◌≡◌, ◌==◌, ◌<◌, ◌≤◌, ◌^◌, length};
ghost use Rattle.std.specs.List.{list_all, prefix_len};
ghost use Rattle.std.specs.Str.{is_utf8};
ghost use Rattle.oftp_wire.specs.Octets.{is_allowed, is_padded};
ghost use Rattle.oftp_codec.specs.Form.{allows, DigitsIf};
ghost use Rattle.oftp_telling.specs.Fields.{seen, form_seen};
ghost use Rattle.oftp_conformance.specs.Forms.{is_hash_length, is_signature_length, length16, hash_rule, word_rule, form_rule, cut_rule, whole_rule, broken_form, has_trailer, is_long};

use crate::form_rule::FormRule;
use oftp_telling::{CommandKind, FieldForm, NamedField, part_of};
use oftp_wire::{all_digits, is_allowed};

/// The length of an ESID of OFTP 1, in octets: its reason and a carriage return.
const OLD_END: usize = 4;

/// The length of an EERP of OFTP 1, in octets: it has no hash and no signature.
const OLD_RESPONSE: usize = 106;

// How many allowed characters are at the beginning.
fn front_len(octets: &[u8]) -> usize
    ensures value { result ≡ prefix_len is_allowed octets.now }
    ensures within { result ≤ length octets.now }
{
    octets.iter().take_while(|c| is_allowed(**c)).count()
}

// Whether all octets are the same as this one.
fn are_all(octets: &[u8], octet: u8) -> bool
    ensures { result ≡ list_all (λ c. c == octet) octets.now }
{
    octets.iter().all(|c| *c == octet)
}

// Whether only spaces follow the allowed octets at the beginning.
fn is_padded(octets: &[u8]) -> bool
    ensures { result ≡ is_padded octets.now }
{
    let (_, rest) = octets.split_at(front_len(octets));
    are_all(rest, b' ')
}

// Whether octets are UTF-8.
#[tactic(auto, using(oftp_codec::proofs::Scans::utf8_test))]
fn is_utf8(octets: &[u8]) -> bool
    ensures { result ≡ is_utf8 octets.now }
{
    str::from_utf8(octets).is_ok()
}

// Whether a number of so many digits may stand in a field of this kind: any where there are records, and otherwise 0 alone.
#[tactic(auto, using(crate::proofs::Zeros::zeros))]
fn is_longest(recorded: bool, octets: &[u8]) -> bool
    ensures { result ≡ allows (DigitsIf recorded 5) octets.now }
{
    all_digits(octets) && (recorded || are_all(octets, b'0'))
}

// Whether octets are of a form.
fn allows(form: FieldForm, octets: &[u8]) -> bool
    ensures { result ≡ allows (form_seen form) octets.now }
{
    match form {
        FieldForm::Word(word) => octets == word,
        FieldForm::Flag => matches!(octets, [b'Y'] | [b'N']),
        FieldForm::Mode => matches!(octets, [b'S'] | [b'R'] | [b'B']),
        FieldForm::Format => matches!(octets, [b'F'] | [b'V'] | [b'U'] | [b'T']),
        FieldForm::Name(_) => is_padded(octets),
        FieldForm::Digits(_) => all_digits(octets),
        FieldForm::DigitsIf(recorded, _) => is_longest(recorded, octets),
        FieldForm::Return => matches!(octets, [0x0d] | [0x8d]),
        FieldForm::Utf8(_) => is_utf8(octets),
        FieldForm::Reserved(_) | FieldForm::Any(_) => true,
    }
}

// Whether a field has the length of a hash.
fn is_hash_length(name: &str) -> bool
    ensures { result ≡ is_hash_length name.now }
{
    name == "EERPHSHL" || name == "NERPHSHL"
}

// Whether a field has the length of a signature, where there is no hash.
fn is_signature_length(name: &str) -> bool
    ensures { result ≡ is_signature_length name.now }
{
    name == "EERPSIGL" || name == "NERPSIGL"
}

// How many octets a hash has.
fn length16(octets: &[u8]) -> usize
    ensures value { result ≡ length16 octets.now }
    ensures small { result < 65536 }
{
    match octets {
        [high, low, ..] => usize::from(*high) * 256 + usize::from(*low),
        [] | [_] => 0,
    }
}

// The rule of a response with a hash.
fn hash_rule(signature_length: &[u8]) -> FormRule
    ensures { result ≡ hash_rule signature_length.now }
{
    match signature_length {
        [0, 0] => FormRule::HashAlone,
        _ => FormRule::Signed,
    }
}

// The rule of a word or a letter.
fn word_rule(name: &str, octets: &[u8]) -> FormRule
    ensures { result ≡ word_rule name.now octets.now }
{
    if name == "SSRMMSG" {
        return FormRule::Greeting;
    }
    if name == "SSIDAUTH" && octets == b" ".as_slice() {
        return FormRule::OldLevel;
    }
    FormRule::Letter
}

// The rule that octets break which aren't of the field's form.
fn form_rule(field: NamedField, octets: &[u8]) -> FormRule
    ensures { result ≡ form_rule (seen field) (form_seen field.form) octets.now }
{
    match field.form {
        FieldForm::Name(_) => FormRule::Characters,
        FieldForm::Digits(_) => FormRule::Digits,
        FieldForm::DigitsIf(_, _) if all_digits(octets) => FormRule::Records,
        FieldForm::DigitsIf(_, _) => FormRule::Digits,
        FieldForm::Word(_) | FieldForm::Flag | FieldForm::Mode | FieldForm::Format => {
            word_rule(field.name, octets)
        }
        FieldForm::Return => FormRule::Return,
        FieldForm::Utf8(_) => FormRule::Utf8,
        FieldForm::Reserved(_) | FieldForm::Any(_) => FormRule::Letter,
    }
}

// The rule that a command of this length breaks which ends within a field.
fn cut_rule(kind: CommandKind, len: usize) -> FormRule
    ensures { result ≡ cut_rule kind len }
{
    match kind {
        CommandKind::Esid if len == OLD_END => FormRule::OldEnd,
        CommandKind::Eerp if len == OLD_RESPONSE => FormRule::OldResponse,
        _ => FormRule::Short,
    }
}

// The rule that a field breaks which is whole.
fn whole_rule(field: NamedField, octets: &[u8], frame: &[u8]) -> Option<FormRule>
    requires { field.at < 2 ^ 63 }
    ensures { result ≡ whole_rule (seen field) octets.now frame.now }
{
    if allows(field.form, octets) {
        return None;
    }
    if is_hash_length(field.name) {
        let behind = field.at + 2 + length16(octets);
        return Some(hash_rule(part_of(frame, behind, 2)));
    }
    if is_signature_length(field.name) {
        return match part_of(frame, field.at.saturating_sub(2), 2) {
            [0, 0] => Some(FormRule::Signed),
            _ => None,
        };
    }
    Some(form_rule(field, octets))
}

/// The rule on its form that a field breaks in a command of this kind, if it does. A field behind the end of the command breaks none.
#[tactic(auto, unfolding(crate::specs::Forms::broken_form))]
pub(crate) fn broken_form(kind: CommandKind, field: NamedField, frame: &[u8]) -> Option<FormRule>
    ensures { result ≡ broken_form kind (seen field) frame.now }
{
    let len = frame.len();
    if len < field.at {
        return None;
    }
    if len - field.at < field.form.size() {
        return Some(cut_rule(kind, len));
    }
    whole_rule(field, field.octets(frame), frame)
}

// Whether octets behind the last field are those of a hash and a signature.
fn has_trailer(kind: CommandKind, end: usize, frame: &[u8]) -> bool
    ensures { result ≡ has_trailer kind end frame.now }
{
    match kind {
        CommandKind::Eerp | CommandKind::Nerp => {
            !matches!(part_of(frame, end.saturating_sub(4), 4), [0, 0, 0, 0])
        }
        _ => false,
    }
}

/// Whether octets are left behind the last field of a command of this kind, which ends at this offset.
pub(crate) fn is_long(kind: CommandKind, end: usize, frame: &[u8]) -> bool
    ensures { result ≡ is_long kind end frame.now }
{
    end < frame.len() && !has_trailer(kind, end, frame)
}
