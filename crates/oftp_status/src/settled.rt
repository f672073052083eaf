//! What is still open, a line each.

ghost use Rattle.std.specs.Prelude.{◌≡◌, OnOk};
ghost use Rattle.oftp_status.specs.Settled.{why_open, with_open};

use crate::pieces::{Piece, add};
use crate::standing::Standing;
use std::alloc::{AllocError, Global};

/// A file of the register.
#[derive(Clone, Copy)]
pub struct Held<'a> {
    /// Its number.
    pub no: u64,
    /// Its dataset name.
    pub dataset: &'a str,
    /// Its date stamp.
    pub date: &'a str,
    /// Its time stamp.
    pub time: &'a str,
    /// The partner's code.
    pub partner: &'a str,
    /// How it stands.
    pub standing: Standing,
}

// Why a file is open, empty if it isn't.
fn why_open(standing: Standing) -> &'static str
    ensures { result.now ≡ why_open standing }
{
    match standing {
        Standing::Coming => "it comes",
        Standing::Whole => "it is to be released or refused",
        Standing::Due => "its response is to be sent",
        Standing::Waiting | Standing::Closing => "it is to be sent",
        Standing::Handed => "its response is to come",
        Standing::Answered | Standing::Refused => "",
        Standing::Delivered | Standing::Returned => "",
    }
}

/// Appends the line of a file, if it is open.
///
/// # Errors
///
/// Out of memory. A beginning may be appended.
pub fn add_open(alloc: Global, held: &Held<'_>, text: &mut Vec<u8>) -> Result<(), AllocError>
    ensures { OnOk result (text.new.items ≡ with_open text.old.items held.now) }
{
    if !held.standing.is_open() {
        return Ok(());
    }
    add(
        alloc,
        &[
            Piece::Text(held.standing.way().word()),
            Piece::Text(" "),
            Piece::Number(held.no),
            Piece::Text(" "),
            Piece::Text(held.dataset),
            Piece::Text(" "),
            Piece::Text(held.date),
            Piece::Text(" "),
            Piece::Text(held.time),
            Piece::Text(" "),
            Piece::Text(held.partner),
            Piece::Text(": "),
            Piece::Text(why_open(held.standing)),
            Piece::Text("\n"),
        ],
        text,
    )
}
