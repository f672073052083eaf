//! The octets of an HTTP reply.

ghost use Rattle.std.specs.Prelude.{◌≡◌, ◌++◌, IfErr, IfOk, decimal, length};
ghost use Rattle.oftp_listing.specs.Replies.{Says, allow_of, content_text, error_text, head_text, media_type, page_text, phrase_of, reply_text};
ghost use Rattle.oftp_listing.specs.declared.state.OfficeState.TheVariants.{Failed, Working};

use crate::fault::ListFault;
use crate::state::OfficeState;
use http::StatusCode;
use std::alloc::{AllocError, Global};
use std::marker::Model;

/// A whole reply, and whether the office failed while it was made.
#[derive(Debug, Drop)]
pub struct Reply {
    octets: Vec<u8>,
    office: OfficeState,
}

impl Model for Reply {
    ghost use Rattle.oftp_listing.specs.Replies.{Sent};

    ghost Value = { Sent };

    ghost view = { λ reply. record { octets = reply.octets.items; office = reply.office } };
}

impl Reply {
    /// The octets of the reply.
    pub fn octets(&self) -> &[u8]
        ensures { result.now ≡ self.now.octets }
    {
        self.octets.as_slice()
    }

    /// The octets alone, which aren't copied.
    pub fn into_octets(self) -> Vec<u8>
        ensures { result.items ≡ self.octets }
    {
        let Reply { octets, office: _ } = self;
        octets
    }

    /// Whether the office failed. Nothing is promised of an office that did.
    pub fn office(&self) -> OfficeState
        ensures { result ≡ self.now.office }
    {
        self.office
    }
}

/// What the body of a reply is.
#[derive(Clone, Copy, Debug, PartialEq, Eq)]
enum Content {
    /// JSON.
    Json,
    /// A page of HTML.
    Html,
}

// The media type of a body.
#[tactic(auto, unfolding(crate::specs::Replies::media_type))]
fn media_type(content: Content) -> &'static str
    ensures { result.now ≡ media_type content }
{
    match content {
        Content::Json => "application/json",
        Content::Html => "text/html; charset=utf-8",
    }
}

// The reason phrase of a status.
#[tactic(auto, unfolding(crate::specs::Replies::phrase_of))]
fn phrase(status: StatusCode) -> &'static str
    ensures { result.now ≡ phrase_of status }
{
    status.canonical_reason().unwrap_or("")
}

// The header line with the allowed method, if the status is 405.
#[tactic(auto, unfolding(crate::specs::Replies::allow_of))]
fn allow(status: StatusCode) -> &'static str
    ensures { result.now ≡ allow_of status }
{
    if status.as_u16() == 405 {
        "Allow: GET\r\n"
    } else {
        ""
    }
}

// The head of a reply, with the length of its body in decimal digits.
#[tactic(auto, unfolding(crate::specs::Replies::head_text))]
fn head(
    alloc: Global,
    status: StatusCode,
    content: Content,
    body_length: &str,
) -> Result<Vec<u8>, AllocError>
    ensures { IfOk result (λ octets. octets.items ≡ head_text status content body_length.now) }
{
    let mut octets = Vec::new(alloc);
    octets.extend_from_slice(b"HTTP/1.1 ")?;
    octets.extend_from_slice(status.as_str().as_bytes())?;
    octets.extend_from_slice(b" ")?;
    octets.extend_from_slice(phrase(status).as_bytes())?;
    octets.extend_from_slice(b"\r\nContent-Type: ")?;
    octets.extend_from_slice(media_type(content).as_bytes())?;
    octets.extend_from_slice(b"\r\nContent-Length: ")?;
    octets.extend_from_slice(body_length.as_bytes())?;
    octets.extend_from_slice(b"\r\nConnection: close\r\n")?;
    octets.extend_from_slice(allow(status).as_bytes())?;
    octets.extend_from_slice(b"\r\n")?;
    Ok(octets)
}

// The reply with this body. The head is inserted before the body, in the same vector.
fn content_reply(alloc: Global, content: Content, body: Vec<u8>) -> Result<Reply, AllocError>
    ensures { IfOk result (Says (content_text 200 content body.items) Working) }
{
    let length = body.len();
    let decimal = length.to_string(alloc)?;
    let head = head(alloc, StatusCode::OK, content, decimal.as_str())?;
    let mut octets = body;
    octets.extend_from_slice(head.as_slice())?;
    octets.rotate_left(length);
    Ok(Reply {
        octets,
        office: OfficeState::Working,
    })
}

/// The reply with this body of JSON.
///
/// # Errors
///
/// Out of memory.
pub(crate) fn body_reply(alloc: Global, body: Vec<u8>) -> Result<Reply, AllocError>
    ensures { IfOk result (Says (reply_text 200 body.items) Working) }
{
    content_reply(alloc, Content::Json, body)
}

/// The reply that shows a page.
///
/// # Errors
///
/// Out of memory.
pub(crate) fn page_reply(alloc: Global, page: &str) -> Result<Reply, AllocError>
    ensures { IfOk result (Says (page_text page.now) Working) }
{
    let body = Vec::from_slice(alloc, page.as_bytes())?;
    content_reply(alloc, Content::Html, body)
}

// The octets of a reply whose body names its status. Nothing else is allocated.
fn error_octets(alloc: Global, status: StatusCode) -> Result<Vec<u8>, AllocError>
    ensures { IfOk result (λ octets. octets.items ≡ error_text status) }
{
    let mut octets = head(alloc, status, Content::Json, "13")?;
    octets.extend_from_slice(b"{\"error\":")?;
    octets.extend_from_slice(status.as_str().as_bytes())?;
    octets.extend_from_slice(b"}")?;
    Ok(octets)
}

/// The reply whose body names its status. It allocates only its own octets.
///
/// # Errors
///
/// Out of memory.
pub(crate) fn error_reply(alloc: Global, status: StatusCode) -> Result<Reply, AllocError>
    ensures { IfOk result (Says (error_text status) Working) }
{
    Ok(Reply {
        octets: error_octets(alloc, status)?,
        office: OfficeState::Working,
    })
}

/// The reply 503 to a request that isn't answered, since the station ends.
///
/// # Errors
///
/// Out of memory.
pub fn stopping_reply(alloc: Global) -> Result<Reply, AllocError>
    ensures { IfOk result (Says (error_text 503) Working) }
{
    error_reply(alloc, StatusCode::SERVICE_UNAVAILABLE)
}

/// The reply with this status after an error of the office.
///
/// # Errors
///
/// [`ListFault::Office`]: there is no memory for it, and the office has failed.
pub(crate) fn failed_reply(alloc: Global, status: StatusCode) -> Result<Reply, ListFault>
    ensures says { IfOk result (Says (error_text status) Failed) }
    ensures fails { IfErr result (λ fault. fault ≡ ListFault.Office) }
{
    match error_octets(alloc, status) {
        Ok(octets) => Ok(Reply {
            octets,
            office: OfficeState::Failed,
        }),
        Err(_) => Err(ListFault::Office),
    }
}
