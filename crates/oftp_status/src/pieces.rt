//! Texts, appended piece by piece.

ghost use Rattle.std.specs.Prelude.{◌≡◌, ◌++◌, OnOk, fold};
ghost use Rattle.serde_json.specs.Data.{string};
ghost use Rattle.serde_json.specs.Written.{compact_text};
ghost use Rattle.oftp_status.specs.Pieces.{with_piece};

use crate::age::Age;
use serde_json::Value;
use std::alloc::{AllocError, Global};

/// A piece of a text.
#[derive(Clone, Copy)]
pub(crate) enum Piece<'a> {
    /// A text as it is.
    Text(&'a str),
    /// A number.
    Number(u64),
    /// A text as JSON.
    Quoted(&'a str),
    /// An age in seconds, in words.
    Age(u64),
}

// Appends a text as JSON.
fn add_quoted(alloc: Global, quoted: &str, text: &mut Vec<u8>) -> Result<(), AllocError>
    ensures { OnOk result (text.new.items ≡ text.old.items ++ compact_text (string quoted.now)) }
{
    let value = Value::try_from_str(alloc, quoted)?;
    text.extend_from_slice(value.to_vec(alloc)?.as_slice())
}

// Appends a piece.
fn add_piece(alloc: Global, piece: Piece<'_>, text: &mut Vec<u8>) -> Result<(), AllocError>
    ensures { OnOk result (text.new.items ≡ with_piece text.old.items piece.entry) }
{
    match piece {
        Piece::Text(plain) => text.extend_from_slice(plain.as_bytes()),
        Piece::Number(number) => text.extend_from_slice(number.to_string(alloc)?.as_bytes()),
        Piece::Quoted(quoted) => add_quoted(alloc, quoted, text),
        Piece::Age(seconds) => {
            text.extend_from_slice(Age { seconds }.to_string(alloc)?.as_bytes())
        }
    }
}

/// Appends pieces.
///
/// # Errors
///
/// Out of memory.
pub(crate) fn add(alloc: Global, pieces: &[Piece<'_>], text: &mut Vec<u8>) -> Result<(), AllocError>
    ensures { OnOk result (text.new.items ≡ fold with_piece text.old.items pieces.now) }
{
    for piece in pieces {
        add_piece(alloc, *piece, text)?;
    }
    Ok(())
}
