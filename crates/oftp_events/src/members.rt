//! The members of a JSON object, appended one by one. A map of `serde_json` would sort them by their keys.

ghost use Rattle.std.specs.Prelude.{◌≡◌, ◌++◌, OnOk, codes, fold};
ghost use Rattle.serde_json.specs.Data.{number, string, unsigned};
ghost use Rattle.serde_json.specs.Written.{compact_text};
ghost use Rattle.oftp_events.specs.InsideMembers.{field_data, key_text, member_text, with_member};

use serde_json::Value;
use std::alloc::{AllocError, Global};

/// What a key has, if it has something.
#[derive(Clone, Copy)]
pub(crate) enum Field<'a> {
    /// A text.
    Text(Option<&'a str>),
    /// A number.
    Number(Option<u64>),
}

/// A key and what it has.
pub(crate) type Member<'a> = (&'a str, Field<'a>);

/// Appends a text as JSON.
///
/// # Errors
///
/// Out of memory.
pub(crate) fn add_text(alloc: Global, text: &str, line: &mut Vec<u8>) -> Result<(), AllocError>
    ensures { OnOk result (line.new.items ≡ line.old.items ++ compact_text (string text.now)) }
{
    let value = Value::try_from_str(alloc, text)?;
    line.extend_from_slice(value.to_vec(alloc)?.as_slice())
}

// Appends a number as JSON.
fn add_number(alloc: Global, count: u64, line: &mut Vec<u8>) -> Result<(), AllocError>
    ensures { OnOk result (line.new.items ≡ line.old.items ++ compact_text (number (unsigned count))) }
{
    line.extend_from_slice(count.to_string(alloc)?.as_bytes())
}

// Appends a comma, a key and a colon.
fn add_key(alloc: Global, key: &str, line: &mut Vec<u8>) -> Result<(), AllocError>
    ensures { OnOk result (line.new.items ≡ line.old.items ++ key_text key.now) }
{
    line.extend_from_slice(b",")?;
    add_text(alloc, key, line)?;
    line.extend_from_slice(b":")
}

// Appends a member behind others, if its key has something.
fn add_member(
    alloc: Global,
    key: &str,
    field: Field<'_>,
    line: &mut Vec<u8>,
) -> Result<(), AllocError>
    ensures { OnOk result (line.new.items ≡ line.old.items ++ member_text key.now (field_data field.entry)) }
{
    match field {
        Field::Text(None) | Field::Number(None) => Ok(()),
        Field::Text(Some(text)) => {
            add_key(alloc, key, line)?;
            add_text(alloc, text, line)
        }
        Field::Number(Some(count)) => {
            add_key(alloc, key, line)?;
            add_number(alloc, count, line)
        }
    }
}

/// Appends the members whose keys have something, behind others.
///
/// # Errors
///
/// Out of memory.
pub(crate) fn add_members(
    alloc: Global,
    members: &[Member<'_>],
    line: &mut Vec<u8>,
) -> Result<(), AllocError>
    ensures { OnOk result (line.new.items ≡ fold with_member line.old.items members.now) }
{
    for (key, field) in members {
        add_member(alloc, key, *field, line)?;
    }
    Ok(())
}
