//! The answers to commands: the pieces of a content, and then the end.

ghost use Rattle.std.specs.Prelude.{◌≡◌, ◌++◌, List, ℕ, IfSome, OnOk};
ghost use Rattle.oftp_channel.specs.Answers.{spelled_end};

use oftp_channel::{Ending, LONGEST_PIECE, Outlet, write_end, write_piece};
use oftp_engine::{End, Port};
use oftp_outcomes::{Fault, Outcome};
use std::alloc::Global;

/// The message that lets a command copy the database's files.
const COPY: &[u8] = b"copy";

/// The octets of an answer.
#[derive(Drop)]
struct Answer {
    alloc: Global,
    octets: Vec<u8>,
}

impl Answer {
    /// Adds a content, in as many pieces as it needs.
    ///
    /// # Errors
    /// Out of memory.
    fn add(&mut self, content: &[u8]) -> Result<(), Fault> {
        let mut rest = content;
        for _ in 0..content.len() {
            if rest.is_empty() {
                break;
            }
            let (piece, behind) = rest.split_at(rest.len().min(LONGEST_PIECE));
            self.add_piece(piece)?;
            rest = behind;
        }
        Ok(())
    }

    /// Adds a piece. A piece that is too long gives the error of out of memory.
    fn add_piece(&mut self, piece: &[u8]) -> Result<(), Fault> {
        let mut port = Port::new(Vec::new(self.alloc), 0);
        if piece.len() <= LONGEST_PIECE && write_piece(&mut port, Outlet::Content, piece) {
            self.take(port.into_inner())
        } else {
            Err(Fault::MEMORY)
        }
    }

    /// Adds the end.
    fn add_end(&mut self, ending: Ending) -> Result<(), Fault>
        ensures { OnOk result (self.new.octets.items ≡ self.old.octets.items ++ spelled_end ending) }
    {
        let mut port = Port::new(Vec::new(self.alloc), 0);
        if write_end(&mut port, ending) {
            self.take(port.into_inner())
        } else {
            Err(Fault::MEMORY)
        }
    }

    /// Adds octets.
    fn take(&mut self, octets: Vec<u8>) -> Result<(), Fault>
        ensures { OnOk result (self.new.octets.items ≡ self.old.octets.items ++ octets.items) }
    {
        match self.octets.extend_from_slice(octets.as_slice()) {
            Ok(()) => Ok(()),
            Err(_) => Err(Fault::MEMORY),
        }
    }

    /// The octets of the answer with this end. `None` if memory runs out.
    fn ended(mut self, ending: Ending) -> Option<Vec<u8>>
        ensures { IfSome result (λ octets. (front : List ℕ) × (octets.items ≡ front ++ spelled_end ending)) }
    {
        match self.add_end(ending) {
            Ok(()) => {
                self.octets.shrink_to_fit();
                Some(self.octets)
            }
            Err(_) => None,
        }
    }
}

/// The answer with this content and this end. `None` if memory runs out.
pub fn answer_of(alloc: Global, content: &[u8], ending: Ending) -> Option<Vec<u8>>
    ensures { IfSome result (λ octets. (front : List ℕ) × (octets.items ≡ front ++ spelled_end ending)) }
{
    let mut answer = Answer {
        alloc,
        octets: Vec::new(alloc),
    };
    match answer.add(content) {
        Ok(()) => answer.ended(ending),
        Err(_) => None,
    }
}

/// The answer to a command that called a partner: the lines for its trace, and the end of the session. `None` if memory runs out.
pub fn answer_of_call(alloc: Global, trace: &[u8], ended: &Result<End, Fault>) -> Option<Vec<u8>> {
    let ending = match ended {
        Ok(end) => Ending::Outcome(Outcome::Ended(*end)),
        Err(fault) => Ending::Failed(*fault),
    };
    answer_of(alloc, trace, ending)
}

/// The answer of nothing but its end. It is empty if there is no memory for it.
pub fn bare_answer(alloc: Global, ending: Ending) -> Vec<u8> {
    answer_of(alloc, &[], ending).unwrap_or(Vec::new(alloc))
}

/// What lets a command copy the database's files, before the end of its answer. `None` if memory runs out.
pub fn copy_let(alloc: Global) -> Option<Vec<u8>> {
    let mut answer = Answer {
        alloc,
        octets: Vec::new(alloc),
    };
    answer.add(COPY).ok()?;
    Some(answer.octets)
}
