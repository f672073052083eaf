//! Writing and reading the parts of an answer.

ghost use Rattle.std.specs.Prelude.{◌≡◌, ◌≤◌, ◌++◌, ℕ, List, None, Some, IfOk, IfErr, IfSome, length};
ghost use Rattle.oftp_io.specs.Ports.{Sent};
ghost use Rattle.oftp_channel.specs.Answers.{BeginsNoPart, IsPart, Part, outlet_code, part_of, spelled_end, spelled_part, spelled_piece};
ghost use Rattle.oftp_channel.specs.Endings.{IsEnding, spelled_ending};
ghost use Rattle.oftp_channel.specs.Inputs.{Gave, Leaves};
ghost use Rattle.oftp_channel.specs.declared.answer.Outlet.{Outlet};
ghost use Rattle.oftp_channel.specs.declared.answer.TheConstants.{LONGEST_PIECE};
ghost use Rattle.oftp_channel.specs.declared.ending.Ending.{Ending};
ghost use Rattle.oftp_channel.specs.declared.fault.ReadFault.TheVariants.{Form};

use crate::ending::Ending;
use crate::fault::ReadFault;
use crate::inputs::{read_long, read_octet, read_word};
use crate::labels::Label;
use oftp_io::Port;
use std::alloc::Global;
use std::io::{Read, Write};

/// The length of the longest piece of an answer, in octets.
pub const LONGEST_PIECE: usize = 65_536;

/// The destination of a piece of an answer.
#[derive(Clone, Copy, Debug, PartialEq, Eq, Drop)]
pub enum Outlet {
    /// The standard output.
    Output,
    /// The file that is made.
    Content,
}

/// A part of an answer.
#[derive(Debug, Drop)]
pub enum AnswerPart {
    /// Octets for an outlet, at most [`LONGEST_PIECE`].
    Piece(Outlet, Vec<u8>),
    /// The end: how the request ended.
    End(Ending),
}

impl Outlet {
    // The octet that encodes it.
    fn code(self) -> u8
        ensures { result ≡ outlet_code self }
    {
        match self {
            Outlet::Output => 1,
            Outlet::Content => 2,
        }
    }

    // The outlet that an octet encodes.
    fn of_code(code: u8) -> Option<Outlet>
        ensures one { IfSome result (λ outlet. outlet_code outlet ≡ code) }
        ensures none { result ≡ None → (outlet : Outlet) → outlet_code outlet ≡ code → ⊥ }
    {
        match code {
            1 => Some(Outlet::Output),
            2 => Some(Outlet::Content),
            _ => None,
        }
    }
}

/// Writes a piece of at most [`LONGEST_PIECE`] octets, and returns whether the writer took all of it. If it didn't, it returned an error
/// and has a beginning of the piece.
pub fn write_piece<W: Write>(writer: &mut Port<W>, outlet: Outlet, octets: &[u8]) -> bool
    requires { length octets.now ≤ LONGEST_PIECE }
    ensures { Sent W.contents writer.old writer.new (spelled_piece outlet octets.now) result }
{
    let length = (octets.len() as u32).to_be_bytes();
    if !writer.send(&[outlet.code(), length[0], length[1], length[2], length[3]]) {
        return false;
    }
    writer.send(octets)
}

/// Writes the end of an answer, and returns whether the writer took all of it. If it didn't, it returned an error and has a beginning of
/// the end.
pub fn write_end<W: Write>(writer: &mut Port<W>, ending: Ending) -> bool
    ensures { Sent W.contents writer.old writer.new (spelled_end ending) result }
{
    let label = ending.label();
    if !writer.send(&[0, label.kind]) {
        return false;
    }
    writer.send(&label.number.to_be_bytes())
}

// Reads the kind of an ending and its number.
fn read_ending<R: Read>(alloc: Global, reader: &mut Port<R>) -> Result<Ending, ReadFault>
    ensures ending { IfOk result (λ ending. IsEnding ending) }
    ensures read { IfOk result (λ ending. Gave R.remaining reader.old reader.new (spelled_ending ending)) }
    ensures again { (told : Ending) (rest : List ℕ) → IsEnding told → R.remaining reader.old.inner ≡ Some (spelled_ending told ++ rest)
        → IfOk result (λ ending. ending ≡ told) }
    ensures refused { IfErr result (λ fault. fault ≡ Form → (heard more rest : List ℕ) (ending : Ending) → R.remaining reader.old.inner ≡ Some heard
        → IsEnding ending → heard ++ more ≡ spelled_ending ending ++ rest → ⊥) }
    ensures leaves { IfErr result (λ fault. Leaves R.remaining reader.old reader.new fault) }
{
    let kind = read_octet(alloc, reader)?;
    let number = read_long(alloc, reader)?;
    Ending::of_label(Label { kind, number }).ok_or(ReadFault::Form)
}

/// Reads the next part of an answer.
///
/// # Errors
///
/// - [`ReadFault::Form`] only where no part of an answer begins with the octets of the input, whatever follows them.
/// - [`ReadFault::Input`] only where the reader returned an error or its end.
/// - [`ReadFault::Memory`]: out of memory.
///
/// The octets that were read are lost.
pub fn read_part<R: Read>(alloc: Global, reader: &mut Port<R>) -> Result<AnswerPart, ReadFault>
    // The octets that were read are the encoding of the part.
    ensures part { IfOk result (λ part. IsPart (part_of part)) }
    ensures read { IfOk result (λ part. Gave R.remaining reader.old reader.new (spelled_part (part_of part))) }
    // A part that was written is read back, whatever follows it.
    ensures again { (told : Part) (rest : List ℕ) → IsPart told → R.remaining reader.old.inner ≡ Some (spelled_part told ++ rest)
        → IfOk result (λ part. part_of part ≡ told) }
    ensures refused { IfErr result (λ fault. fault ≡ Form → (heard : List ℕ) → R.remaining reader.old.inner ≡ Some heard → BeginsNoPart heard) }
    ensures leaves { IfErr result (λ fault. Leaves R.remaining reader.old reader.new fault) }
{
    let code = read_octet(alloc, reader)?;
    if code == 0 {
        let ending = read_ending(alloc, reader)?;
        return Ok(AnswerPart::End(ending));
    }
    let outlet = Outlet::of_code(code).ok_or(ReadFault::Form)?;
    let octets = read_word(alloc, reader, LONGEST_PIECE)?;
    Ok(AnswerPart::Piece(outlet, octets))
}
