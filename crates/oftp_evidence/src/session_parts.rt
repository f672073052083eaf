//! What the octets of one side of a session say of a file.

ghost use Rattle.std.specs.Prelude.{◌≡◌, ◌++◌, None, OnOk, fold};
ghost use Rattle.oftp_codec.specs.declared.limits.TheConstants.{LONGEST_FRAME};
ghost use Rattle.oftp_evidence.specs.Sides.{after_next, after_octet, heard_by, new_side, said_parts};

use crate::part::{Part, part_in};
use oftp_codec::{Deframer, FrameFault, LONGEST_FRAME};
use oftp_register::Identity;
use std::alloc::{AllocError, Global};
use std::marker::Model;

/// What was found of a file in the octets of one side of a session. The octets come in pieces, which may end anywhere; octets that are no frame
/// end the search.
#[derive(Drop)]
pub struct SessionParts {
    file: Identity,
    stream: Deframer,
    found: Vec<Part>,
}

impl Model for SessionParts {
    ghost use Rattle.std.specs.Prelude.{◌≡◌};
    ghost use Rattle.oftp_codec.specs.declared.limits.TheConstants.{LONGEST_FRAME};
    ghost use Rattle.oftp_evidence.specs.Sides.{SideParts, heard_by};

    ghost Value = { SideParts };

    ghost view = { λ p. heard_by p.file p.stream p.found.items };

    ghost invariant = { λ p. p.stream.limit ≡ LONGEST_FRAME };
}

// Adds a part, if there is one.
fn add_part(part: Option<Part>, found: &mut Vec<Part>) -> Result<(), AllocError>
    ensures { OnOk result (found.new.items ≡ found.old.items ++ said_parts part) }
{
    if let Some(part) = part {
        found.push(part)?;
    }
    Ok(())
}

// Takes the next command, if it is whole, and adds what it says of the file.
fn add_next(file: &Identity, stream: &mut Deframer, found: &mut Vec<Part>) -> Result<(), AllocError>
    requires open { stream.old.told ≡ None }
    requires limit { stream.old.limit ≡ LONGEST_FRAME }
    ensures heard { OnOk result (heard_by file.now stream.new found.new.items ≡ after_next (heard_by file.now stream.old found.old.items)) }
    ensures limit { stream.new.limit ≡ LONGEST_FRAME }
{
    match stream.next() {
        Ok(Some(frame)) => add_part(part_in(file, frame), found),
        Ok(None) | Err(_) => Ok(()),
    }
}

impl SessionParts {
    /// Of this file nothing was heard.
    pub fn new(alloc: Global, file: Identity) -> SessionParts
        ensures { result ≡ new_side file }
    {
        SessionParts {
            file,
            stream: Deframer::new(alloc, LONGEST_FRAME),
            found: Vec::new(alloc),
        }
    }

    /// Takes the next octets of the side.
    ///
    /// # Errors
    ///
    /// Out of memory: some of the octets were taken.
    pub fn hear(&mut self, piece: &[u8]) -> Result<(), AllocError>
        ensures { OnOk result (self.new ≡ fold after_octet self.old piece.now) }
    {
        for octet in piece {
            self.hear_octet(*octet)?;
        }
        Ok(())
    }

    /// What was found, in the order in which it came.
    pub fn found(&self) -> &[Part]
        ensures { result.now ≡ self.now.found }
    {
        self.found.as_slice()
    }

    // Takes an octet.
    fn hear_octet(&mut self, octet: u8) -> Result<(), AllocError>
        ensures { OnOk result (self.new ≡ after_octet self.old octet) }
    {
        match self.stream.feed(&[octet]) {
            Ok(()) => add_next(&self.file, &mut self.stream, &mut self.found),
            Err(FrameFault::Memory) => Err(AllocError),
            Err(_) => Ok(()),
        }
    }
}
