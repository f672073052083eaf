//! Reading the values of a row. A value that no part of an entry could have is `None`, which counts as an error of the store.

ghost use Rattle.std.specs.Prelude.{◌≡◌, ◌⊎◌, ◌+◌, ◌<◌, ◌≤◌, ◌^◌, ℕ, List, [], codes, false, length, IfOk, IfSome, IfErr, IsSome, pos};
ghost use Rattle.std.specs.Str.{IsUtf8, bytes_eq};
ghost use Rattle.sqlite.specs.declared.types.Value.TheVariants as value;
ghost use Rattle.sqlite.specs.Order.{bytes, column};
ghost use Rattle.oftp_wire.specs.Octets.{IsDigits, IsName, decimal, number};
ghost use Rattle.oftp_register.specs.Offices.{IsFailure};
ghost use Rattle.oftp_tables.specs.Tables.{HasRefusal, TellsIdentity, dispatch_in, format_in, format_text, identity_in, in_state_in, in_state_text, kind_in, kind_text, number_in, out_state_in, out_state_text, reason_text, refusal_text, sent_number};

use oftp_register::{
    DigitString, Dispatch, Identity, IncomingState, Name, Note, OfficeFault, OutgoingState,
    ResponseKind,
};
use oftp_vfile::Format;
use oftp_wire::{Count, Digits, Text, X};
use sqlite::Row;
use sqlite::types::ValueRef;
use std::alloc::Global;

/// Reads a name from column `at`, counted from 0. `None` where the column isn't a text of 0 to N allowed characters.
pub fn name_at<const N: usize>(row: &Row, at: usize) -> Option<Name<N>>
    ensures told { IfSome result (λ name. name ≡ bytes (column row.now at)) }
    ensures fits { IfSome result (λ name. column row.now at ≡ value.Text name) }
    ensures found { (name : List ℕ) → IsName N name → column row.now at ≡ value.Text name → IsSome result }
{
    match row.get_ref(at) {
        Ok(ValueRef::Text(text)) => match X::new(text) {
            Some(field) => Some(Name::of(&field)),
            None => None,
        },
        _ => None,
    }
}

/// Reads digits from column `at`, counted from 0. `None` where the column isn't a text of exactly N digits.
pub fn digits_at<const N: usize>(row: &Row, at: usize) -> Option<DigitString<N>>
    ensures told { IfSome result (λ digits. digits ≡ bytes (column row.now at)) }
    ensures fits { IfSome result (λ digits. column row.now at ≡ value.Text digits) }
    ensures found { (digits : List ℕ) → IsDigits N digits → column row.now at ≡ value.Text digits → IsSome result }
{
    match row.get_ref(at) {
        Ok(ValueRef::Text(text)) => match Digits::new(text) {
            Some(field) => Some(DigitString::of(&field)),
            None => None,
        },
        _ => None,
    }
}

/// Reads an identity from five columns: dataset name, date, time, originator and destination. The first is column `at`, counted from 0,
/// which is below 100. `None` where a column isn't such a text.
pub fn identity_at(row: &Row, at: usize) -> Option<Identity>
    requires { at < 100 }
    ensures told { IfSome result (λ identity. identity ≡ identity_in at row.now) }
    ensures fits { IfSome result (λ identity. TellsIdentity identity at row.now) }
    ensures found { (identity : Identity) → TellsIdentity identity at row.now → IsSome result }
{
    Some(Identity {
        dataset: name_at(row, at)?,
        date: digits_at(row, at + 1)?,
        time: digits_at(row, at + 2)?,
        originator: name_at(row, at + 3)?,
        destination: name_at(row, at + 4)?,
    })
}

/// Reads a format from column `at`, counted from 0: one of the texts `F`, `V`, `U` and `T`. `None` where the column has none of them.
pub fn format_at(row: &Row, at: usize) -> Option<Format>
    ensures told { IfSome result (λ format. format ≡ format_in (bytes (column row.now at))) }
    ensures fits { IfSome result (λ format. column row.now at ≡ value.Text (format_text format)) }
    ensures found { (format : Format) → column row.now at ≡ value.Text (format_text format) → IsSome result }
{
    match row.get_ref(at) {
        Ok(ValueRef::Text(text)) => {
            if text == b"F".as_slice() {
                Some(Format::Fixed)
            } else if text == b"V".as_slice() {
                Some(Format::Variable)
            } else if text == b"U".as_slice() {
                Some(Format::Unstructured)
            } else if text == b"T".as_slice() {
                Some(Format::Text)
            } else {
                None
            }
        }
        _ => None,
    }
}

/// Reads a number of octets or rows from column `at`, counted from 0. `None` where the column isn't an integer from 0 to 2^32 - 1.
pub fn number_at(row: &Row, at: usize) -> Option<u32>
    ensures told { IfSome result (λ n. n ≡ number_in (column row.now at)) }
    ensures fits { IfSome result (λ n. column row.now at ≡ value.Int (pos n)) }
    ensures found { (n : ℕ) → n < 2 ^ 32 → column row.now at ≡ value.Int (pos n) → IsSome result }
{
    match row.get_ref(at) {
        Ok(ValueRef::Int(n)) => match u32::try_from(n) {
            Ok(n) => Some(n),
            Err(_) => None,
        },
        _ => None,
    }
}

/// Reads the number of an entry from column `at`, counted from 0. `None` where the column isn't an integer from 0 on.
pub fn no_at(row: &Row, at: usize) -> Option<u64>
    ensures fits { IfSome result (λ n. column row.now at ≡ value.Int (pos n)) }
    ensures found { (n : ℕ) → column row.now at ≡ value.Int (pos n) → IsSome result }
{
    match row.get_ref(at) {
        Ok(ValueRef::Int(n)) => match u64::try_from(n) {
            Ok(n) => Some(n),
            Err(_) => None,
        },
        _ => None,
    }
}

/// Reads a text from column `at`, counted from 0.
///
/// # Errors
///
/// - [`OfficeFault::Store`]: the column isn't a text of 0 to 999 octets of UTF-8.
/// - [`OfficeFault::Memory`]: out of memory.
pub fn text_at(alloc: Global, row: &Row, at: usize) -> Result<Note, OfficeFault>
    ensures told { IfOk result (λ note. note ≡ bytes (column row.now at)) }
    ensures fits { IfOk result (λ note. column row.now at ≡ value.Text note) }
    ensures found { (note : List ℕ) → IsUtf8 note → length note ≤ 999 → column row.now at ≡ value.Text note → IfErr result (λ fault. fault ≡ OfficeFault.Memory) }
    ensures fails { IfErr result IsFailure }
{
    match row.get_ref(at) {
        Ok(ValueRef::Text(text)) => match str::from_utf8(text) {
            Ok(text) => match Text::new(text) {
                Some(text) => match Note::of(alloc, &text) {
                    Ok(note) => Ok(note),
                    Err(_) => Err(OfficeFault::Memory),
                },
                None => Err(OfficeFault::Store),
            },
            Err(_) => Err(OfficeFault::Store),
        },
        _ => Err(OfficeFault::Store),
    }
}

/// Reads the state of an incoming file from column `at`, counted from 0: the text `open` or `whole`. `None` where the column has neither.
pub fn incoming_state_at(row: &Row, at: usize) -> Option<IncomingState>
    ensures told { IfSome result (λ state. state ≡ in_state_in (bytes (column row.now at))) }
    ensures fits { IfSome result (λ state. column row.now at ≡ value.Text (in_state_text state)) }
    ensures found { (state : IncomingState) → column row.now at ≡ value.Text (in_state_text state) → IsSome result }
{
    match row.get_ref(at) {
        Ok(ValueRef::Text(text)) => {
            if text == b"open".as_slice() {
                Some(IncomingState::Open)
            } else if text == b"whole".as_slice() {
                Some(IncomingState::Whole)
            } else {
                None
            }
        }
        _ => None,
    }
}

// The number that two digits stand for.
fn two_digits_of(text: &[u8]) -> Option<Count<2>>
    ensures told { IfSome result (λ reason. reason ≡ number text.now) }
    ensures fits { IfSome result (λ reason. text.now ≡ decimal 2 reason) }
    ensures found { IsDigits 2 text.now → IsSome result }
{
    match text {
        [tens, units] => {
            let tens = *tens;
            let units = *units;
            if 48 <= tens && tens < 58 && 48 <= units && units < 58 {
                Some(Count::new(u64::from(tens - 48) * 10 + u64::from(units - 48)))
            } else {
                None
            }
        }
        _ => None,
    }
}

// The state of an outgoing file that isn't refused.
fn unrefused_state_of(text: &[u8]) -> Option<OutgoingState>
    ensures told { IfSome result (λ state. (reason : List ℕ) → state ≡ out_state_in text.now reason) }
    ensures fits { IfSome result (λ state. (text.now ≡ out_state_text state) × (refusal_text state ≡ [])) }
    ensures found { (state : OutgoingState) → bytes_eq text.now (codes "refused") ≡ false → text.now ≡ out_state_text state → IsSome result }
{
    if text == b"waiting".as_slice() {
        Some(OutgoingState::Waiting)
    } else if text == b"closing".as_slice() {
        Some(OutgoingState::Closing)
    } else if text == b"handed".as_slice() {
        Some(OutgoingState::Handed)
    } else if text == b"delivered".as_slice() {
        Some(OutgoingState::Delivered)
    } else if text == b"returned".as_slice() {
        Some(OutgoingState::Returned)
    } else {
        None
    }
}

// The state of an outgoing file, from its text and the text of its reason.
fn outgoing_state_of(text: &[u8], reason: &[u8]) -> Option<OutgoingState>
    ensures told { IfSome result (λ state. state ≡ out_state_in text.now reason.now) }
    ensures fits { IfSome result (λ state. (text.now ≡ out_state_text state) × (reason.now ≡ refusal_text state)) }
    ensures found { (state : OutgoingState) → HasRefusal state → text.now ≡ out_state_text state → reason.now ≡ refusal_text state → IsSome result }
{
    if text == b"refused".as_slice() {
        match two_digits_of(reason) {
            Some(reason) => Some(OutgoingState::Refused(reason)),
            None => None,
        }
    } else if reason.is_empty() {
        unrefused_state_of(text)
    } else {
        None
    }
}

/// Reads the state of an outgoing file from column `at`, counted from 0, which is below 100. The next column has the reason of a refusal in
/// two digits, and is empty in any other state. `None` where the two columns don't stand for a state.
pub fn outgoing_state_at(row: &Row, at: usize) -> Option<OutgoingState>
    requires { at < 100 }
    ensures told { IfSome result (λ state. state ≡ out_state_in (bytes (column row.now at)) (bytes (column row.now (at + 1)))) }
    ensures fits { IfSome result (λ state. (column row.now at ≡ value.Text (out_state_text state)) × (column row.now (at + 1) ≡ value.Text (refusal_text state))) }
    ensures found { (state : OutgoingState) → HasRefusal state → column row.now at ≡ value.Text (out_state_text state)
        → column row.now (at + 1) ≡ value.Text (refusal_text state) → IsSome result }
{
    match (row.get_ref(at), row.get_ref(at + 1)) {
        (Ok(ValueRef::Text(text)), Ok(ValueRef::Text(reason))) => outgoing_state_of(text, reason),
        _ => None,
    }
}

/// Reads the kind of a response from column `at`, counted from 0: the text `EERP` or `NERP`. `None` where the column has neither.
pub fn kind_at(row: &Row, at: usize) -> Option<ResponseKind>
    ensures told { IfSome result (λ kind. kind ≡ kind_in (bytes (column row.now at))) }
    ensures fits { IfSome result (λ kind. column row.now at ≡ value.Text (kind_text kind)) }
    ensures found { (kind : ResponseKind) → column row.now at ≡ value.Text (kind_text kind) → IsSome result }
{
    match row.get_ref(at) {
        Ok(ValueRef::Text(text)) => {
            if text == b"EERP".as_slice() {
                Some(ResponseKind::EndResponse)
            } else if text == b"NERP".as_slice() {
                Some(ResponseKind::NegativeEndResponse)
            } else {
                None
            }
        }
        _ => None,
    }
}

// The reason of a response of this kind, from its text.
fn reason_of(kind: ResponseKind, text: &[u8]) -> Option<Count<2>>
    ensures told { IfSome result (λ reason. reason ≡ number text.now) }
    ensures fits { IfSome result (λ reason. text.now ≡ reason_text kind reason) }
    ensures found { (reason : ℕ) → text.now ≡ reason_text kind reason → IsSome result }
{
    match kind {
        ResponseKind::EndResponse if text.is_empty() => Some(Count::new(0)),
        ResponseKind::EndResponse => None,
        ResponseKind::NegativeEndResponse => two_digits_of(text),
    }
}

/// Reads the reason of a response of this kind from column `at`, counted from 0. It is two digits for a Negative End Response, and an empty
/// text, which is 0, for an End-to-End Response. `None` where the column has anything else.
pub fn reason_at(row: &Row, at: usize, kind: ResponseKind) -> Option<Count<2>>
    ensures told { IfSome result (λ reason. reason ≡ number (bytes (column row.now at))) }
    ensures fits { IfSome result (λ reason. column row.now at ≡ value.Text (reason_text kind reason)) }
    ensures found { (reason : ℕ) → column row.now at ≡ value.Text (reason_text kind reason) → IsSome result }
{
    match row.get_ref(at) {
        Ok(ValueRef::Text(text)) => reason_of(kind, text),
        _ => None,
    }
}

/// Reads from column `at`, counted from 0, whether a response was sent: 0 for one that is due, 1 for one that was sent. `None` where the
/// column has neither.
pub fn dispatch_at(row: &Row, at: usize) -> Option<Dispatch>
    ensures told { IfSome result (λ dispatch. dispatch ≡ dispatch_in (number_in (column row.now at))) }
    ensures fits { IfSome result (λ dispatch. column row.now at ≡ value.Int (pos (sent_number dispatch))) }
    ensures found { (dispatch : Dispatch) → column row.now at ≡ value.Int (pos (sent_number dispatch)) → IsSome result }
{
    match number_at(row, at) {
        Some(0) => Some(Dispatch::Due),
        Some(1) => Some(Dispatch::Sent),
        _ => None,
    }
}

/// Reads the octets of a row of a file from column `at`, counted from 0.
///
/// # Errors
///
/// - [`OfficeFault::Store`]: the column isn't a blob.
/// - [`OfficeFault::Memory`]: out of memory.
pub fn body_at(alloc: Global, row: &Row, at: usize) -> Result<oftp_vfile::Row, OfficeFault>
    ensures told { IfOk result (λ body. body ≡ bytes (column row.now at)) }
    ensures fits { IfOk result (λ body. column row.now at ≡ value.Blob body) }
    ensures found { (body : List ℕ) → column row.now at ≡ value.Blob body → IfErr result (λ fault. fault ≡ OfficeFault.Memory) }
    ensures fails { IfErr result IsFailure }
{
    match row.get_ref(at) {
        Ok(ValueRef::Blob(body)) => match Vec::from_slice(alloc, body) {
            Ok(octets) => Ok(oftp_vfile::Row::new(octets)),
            Err(_) => Err(OfficeFault::Memory),
        },
        _ => Err(OfficeFault::Store),
    }
}
