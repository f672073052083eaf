//! Splitting a whole stream into commands.

ghost use Rattle.std.specs.Prelude.{◌≡◌, ◌≤◌, ◌++◌, IfOk, OnOk, None};
ghost use Rattle.std.specs.List.{flat_map, AllByRecursion};
ghost use Rattle.oftp_codec.specs.declared.limits.TheConstants.{LONGEST_FRAME, SHORTEST_FRAME};
ghost use Rattle.oftp_codec.specs.Header.{frame, IsCommand};
ghost use Rattle.oftp_codec.specs.Stream.{IsRest, copied, joined, Reads};

use crate::deframer::Deframer;
use crate::frame_fault::FrameFault;
use std::alloc::{AllocError, Global};

/// The commands of a stream, copied, and the error after them.
#[derive(Drop)]
pub struct CutStream {
    /// The commands, without their headers.
    pub commands: Vec<Vec<u8>>,
    /// The error after the last command, or `None` where the rest is empty or a frame that isn't whole.
    pub fault: Option<FrameFault>,
}

/// Copies the commands that are whole, and returns the error after them.
fn drain(
    alloc: Global,
    deframer: &mut Deframer,
    commands: &mut Vec<Vec<u8>>,
) -> Result<Option<FrameFault>, AllocError>
    requires { deframer.old.told ≡ None }
    ensures whole { OnOk result (flat_map frame (copied commands.old.items) ++ deframer.old.rest
        ≡ flat_map frame (copied commands.new.items) ++ deframer.new.rest) }
    ensures each { AllByRecursion (IsCommand deframer.old.limit) (copied commands.old.items)
        → OnOk result (AllByRecursion (IsCommand deframer.old.limit) (copied commands.new.items)) }
    ensures limit { OnOk result (deframer.new.limit ≡ deframer.old.limit) }
    ensures told { IfOk result (λ fault. deframer.new.told ≡ fault) }
    ensures rest { IfOk result (λ fault. IsRest deframer.old.limit deframer.new.rest fault) }
{
    loop {
        match deframer.next() {
            Ok(Some(command)) => commands.push(Vec::from_slice(alloc, command)?)?,
            Ok(None) => return Ok(None),
            Err(fault) => return Ok(Some(fault)),
        }
    }
}

/// Splits the stream that these pieces make up into its commands. Their frames have at most `limit` octets, which must be 5 to 100,003. The
/// result depends only on the stream, and not on the pieces (RFC 5024, section 8).
///
/// # Errors
///
/// Out of memory.
pub fn cut(alloc: Global, limit: usize, pieces: &[&[u8]]) -> Result<CutStream, AllocError>
    requires low { SHORTEST_FRAME ≤ limit }
    requires high { limit ≤ LONGEST_FRAME }
    ensures { IfOk result (λ c. Reads limit (joined pieces.now) (copied c.commands.items) c.fault) }
{
    let mut deframer = Deframer::new(alloc, limit);
    let mut commands = Vec::new(alloc);
    for piece in pieces {
        if deframer.feed(piece).is_err() {
            return Err(AllocError);
        }
        let fault = drain(alloc, &mut deframer, &mut commands)?;
        if fault.is_some() {
            return Ok(CutStream { commands, fault });
        }
    }
    Ok(CutStream {
        commands,
        fault: None,
    })
}
