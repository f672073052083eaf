//! The octet by which a station says that it will read a request.

ghost use Rattle.std.specs.Prelude.{◌≡◌, ◌∷◌, [], ℕ, List, Some, IfErr, OnOk};
ghost use Rattle.oftp_io.specs.Ports.{Sent};
ghost use Rattle.oftp_channel.specs.Inputs.{Gave, Leaves};
ghost use Rattle.oftp_channel.specs.declared.fault.ReadFault.TheVariants.{Form};
ghost use Rattle.oftp_channel.specs.declared.ready.TheConstants.{READY};

use crate::fault::ReadFault;
use crate::inputs::read_octet;
use oftp_io::Port;
use std::alloc::Global;
use std::io::{Read, Write};

/// The octet by which a station says that it will read a request: the digit 1. Any other octet belongs to another channel.
pub const READY: u8 = b'1';

/// Writes [`READY`], and returns whether the writer took it. If it didn't, it returned an error.
pub fn write_ready<W: Write>(writer: &mut Port<W>) -> bool
    ensures { Sent W.contents writer.old writer.new (READY ∷ []) result }
{
    writer.send(&[READY])
}

/// Reads [`READY`], for which a command waits before it sends its request.
///
/// # Errors
///
/// - [`ReadFault::Form`] only where the input begins with another octet.
/// - [`ReadFault::Input`] only where the reader returned an error or its end.
/// - [`ReadFault::Memory`]: out of memory.
///
/// The octets that were read are lost.
pub fn read_ready<R: Read>(alloc: Global, reader: &mut Port<R>) -> Result<(), ReadFault>
    ensures read { OnOk result (Gave R.remaining reader.old reader.new (READY ∷ [])) }
    ensures refused { IfErr result (λ fault. fault ≡ Form → (rest : List ℕ) → R.remaining reader.old.inner ≡ Some (READY ∷ rest) → ⊥) }
    ensures leaves { IfErr result (λ fault. Leaves R.remaining reader.old reader.new fault) }
{
    if read_octet(alloc, reader)? == READY {
        Ok(())
    } else {
        Err(ReadFault::Form)
    }
}
