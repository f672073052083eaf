//! A session with an office, as a line.

use oftp_engine::{End, Port, Role, RunFault, serve};
use oftp_partners::{Book, read};
use oftp_register::{Office, OfficeFault};
use std::alloc::{AllocError, Global};

const BOOK: &str =
    "[station]\ncode = 'O0013SUPPLIER'\nbuffer = 128\ncredit = 1\nrestart = true\n[[partner]]\ncode = 'O0177CARMAKER'\nexpects = 'CARPW'\nsends = 'SUPPW'\nmode = 'B'\naddress = '127.0.0.1:3305'\n";

fn words_of(end: Result<End, RunFault>) -> &'static str {
    match end {
        Ok(End::Own(_)) => "own ",
        Ok(End::Partner(_)) => "partner ",
        Ok(End::Input) => "input ",
        Err(RunFault::Office) => "office ",
        Err(_) => "fault ",
    }
}

// Serves a session in which a partner calls and says this. It adds the octets that go out.
fn hear<O: Office>(
    alloc: Global,
    office: &mut O,
    book: &Book,
    heard: &[u8],
    said: &mut Vec<u8>,
) -> Result<End, RunFault> {
    let mut reader = Port::new(heard, 1_000_000);
    let mut writer = Port::new(Vec::new(alloc), 0);
    let role = Role::Responder;
    let end = serve(alloc, office, book, role, &mut reader, &mut writer);
    *said = writer.into_inner();
    end
}

// The octets of some parts.
fn octets_of(alloc: Global, parts: &[&[u8]]) -> Result<Vec<u8>, AllocError> {
    let mut octets = Vec::new(alloc);
    for part in parts {
        octets.extend_from_slice(part)?;
    }
    Ok(octets)
}

fn line_of(alloc: Global, end: Result<End, RunFault>, said: &[u8]) -> Result<String, AllocError> {
    let mut line = String::from_str(alloc, words_of(end))?;
    for octet in said {
        line.push(char::from(*octet))?;
    }
    Ok(line)
}

// The line of a session with these octets.
fn hear_line<O: Office>(
    alloc: Global,
    office: &mut O,
    book: &Book,
    heard: &[u8],
) -> Result<String, AllocError> {
    let mut said = Vec::new(alloc);
    let end = hear(alloc, office, book, heard, &mut said);
    line_of(alloc, end, said.as_slice())
}

/// How a session ends in which a partner calls and says this, and the octets that go out.
pub fn session_line<O: Office>(
    alloc: Global,
    office: &mut O,
    parts: &[&[u8]],
) -> Result<String, OfficeFault> {
    let Ok(book) = read(alloc, BOOK) else {
        return Err(OfficeFault::Memory);
    };
    let heard = octets_of(alloc, parts)?;
    Ok(hear_line(alloc, office, &book, heard.as_slice())?)
}
