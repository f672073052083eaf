//! The reply over HTTP that has a text of the picture.

ghost use Rattle.std.specs.Prelude.{◌≡◌, IfOk};
ghost use Rattle.oftp_status.specs.Replies.{media_text, reply_text};

use crate::pieces::{Piece, add};
use std::alloc::{AllocError, Global};

/// What the body of a reply is.
#[derive(Clone, Copy, Debug, Drop, PartialEq, Eq)]
pub enum Media {
    /// JSON.
    Json,
    /// Prometheus' text form.
    Metrics,
    /// Lines of JSON.
    Lines,
}

impl Media {
    // Its media type.
    fn text(self) -> &'static str
        ensures { result.now ≡ media_text self }
    {
        match self {
            Media::Json => "application/json",
            Media::Metrics => "text/plain; version=0.0.4; charset=utf-8",
            Media::Lines => "application/x-ndjson",
        }
    }
}

/// The reply 200 with this body.
///
/// # Errors
///
/// Out of memory.
pub fn reply_with(alloc: Global, media: Media, body: &[u8]) -> Result<Vec<u8>, AllocError>
    ensures { IfOk result (λ octets. octets.items ≡ reply_text media body.now) }
{
    let mut octets = Vec::new(alloc);
    add(
        alloc,
        &[
            Piece::Text("HTTP/1.1 200 OK\r\nContent-Type: "),
            Piece::Text(media.text()),
            Piece::Text("\r\nContent-Length: "),
            Piece::Number(body.len() as u64),
            Piece::Text("\r\nConnection: close\r\n\r\n"),
        ],
        &mut octets,
    )?;
    octets.extend_from_slice(body)?;
    Ok(octets)
}
