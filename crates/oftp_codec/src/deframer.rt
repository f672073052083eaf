//! Splitting a stream that arrives in pieces into commands.

ghost use Rattle.std.specs.Prelude.{◌≡◌, ◌+◌, ◌-◌, ◌*◌, ◌<◌, ◌≤◌, ◌++◌, [], length, drop, max, Some, None, Ok, Err, OnOk, OnErr, IfOk, IfErr, IfSome, IfNone};
ghost use Rattle.std.specs.Vec.{vec_len, vec_capacity};
ghost use Rattle.oftp_codec.specs.declared.limits.TheConstants.{LONGEST_FRAME, SHORTEST_FRAME};
ghost use Rattle.oftp_codec.specs.Stream.{front, len_of, Finds, BeginsWith, IsRest, next_of, left_of, shown};

use crate::frame_fault::FrameFault;
use crate::limits::{FRAME_HEADER, SHORTEST_FRAME};
use std::alloc::Global;
use std::marker::Model;

/// Takes a stream in pieces of any length, and returns its commands (RFC 5024, section 8).
///
/// It keeps the octets in one buffer, and a command is a slice of it. Octets that were returned are dropped by a later `feed`.
#[derive(Drop)]
pub struct Deframer {
    limit: usize,
    room: usize,
    buffer: Vec<u8>,
    begin: usize,
    told: Option<FrameFault>,
}

impl Model for Deframer {
    ghost use Rattle.std.specs.Prelude.{◌≤◌, ◌*◌, length, drop};
    ghost use Rattle.std.specs.Vec.{vec_capacity};
    ghost use Rattle.oftp_codec.specs.Stream.{Stream};
    ghost use Rattle.oftp_codec.specs.declared.limits.TheConstants.{LONGEST_FRAME, SHORTEST_FRAME};

    ghost Value = { Stream };

    ghost view = { λ d. record {
      limit = d.limit;
      rest = drop d.begin d.buffer.items;
      told = d.told;
      room = d.room;
      capacity = vec_capacity d.buffer;
    } };

    // The capacity is twice the room, because `make_room` allocates twice what is needed.
    ghost invariant = { λ d. (SHORTEST_FRAME ≤ d.limit) × (d.limit ≤ LONGEST_FRAME) × (d.begin ≤ length d.buffer.items)
        × (2 * d.room ≤ vec_capacity d.buffer) };
}

/// The length of the whole frame at the beginning, or `None` where more octets are needed.
#[tactic(auto, unfolding(crate::specs::Stream::front, crate::specs::Stream::sized))]
fn frame_len(rest: &[u8], limit: usize) -> Result<Option<usize>, FrameFault>
    ensures value { result ≡ len_of (front limit rest.now) }
    ensures found { Finds limit rest.now result }
{
    match rest {
        [] => Ok(None),
        [0x10, high, middle, low, command @ ..] => {
            let len = usize::from(*high) * 65_536 + usize::from(*middle) * 256 + usize::from(*low);
            if len < SHORTEST_FRAME || limit < len {
                return Err(FrameFault::BadLength);
            }
            if command.len() + FRAME_HEADER < len {
                return Ok(None);
            }
            Ok(Some(len))
        }
        [0x10, ..] => Ok(None),
        [_, ..] => Err(FrameFault::BadHeader),
    }
}

/// Removes the first `count` octets. The capacity stays.
fn drop_front(buffer: &mut Vec<u8>, count: usize)
    requires { count ≤ length buffer.old.items }
    ensures items { buffer.new.items ≡ drop count buffer.old.items }
    ensures capacity { vec_capacity buffer.new ≡ vec_capacity buffer.old }
{
    let len = buffer.len() - count;
    buffer.copy_within(count.., 0);
    buffer.truncate(len);
}

/// Allocates twice what the buffer would hold with `count` more octets, unless it has more already. So each allocation, and each move of
/// the octets to the beginning, is followed by as many octets that need neither.
fn make_room(buffer: &mut Vec<u8>, count: usize) -> Result<(), FrameFault>
    ensures items { buffer.new.items ≡ buffer.old.items }
    ensures ok { OnOk result
        (vec_capacity buffer.new ≡ max (vec_capacity buffer.old) (2 * (vec_len buffer.old + count))) }
    ensures err { IfErr result (λ fault. (fault ≡ FrameFault.Memory)
        × (vec_capacity buffer.new ≡ vec_capacity buffer.old)
        × (vec_capacity buffer.old < 2 * (vec_len buffer.old + count))) }
{
    let needed = buffer.len().checked_add(count).ok_or(FrameFault::Memory)?;
    let wanted = needed.checked_mul(2).ok_or(FrameFault::Memory)?;
    buffer.reserve_exact(wanted - buffer.len())?;
    Ok(())
}

/// Appends octets to the buffer, which has the capacity for them.
fn append(buffer: &mut Vec<u8>, piece: &[u8])
    requires { vec_len buffer.old + length piece.now ≤ vec_capacity buffer.old }
    ensures items { buffer.new.items ≡ buffer.old.items ++ piece.now }
    ensures capacity { vec_capacity buffer.new ≡ vec_capacity buffer.old }
{
    for octet in piece {
        buffer.push_reserved(*octet);
    }
}

impl Deframer {
    ghost use Rattle.std.specs.Borrow.{sem};
    ghost use Rattle.std.specs.Io.BufRead.{Rests};
    ghost use Rattle.oftp_codec.specs.contracts.deframer.Deframer.{the_row};

    /// A deframer without octets. It allocates nothing. `limit` is the greatest length of a frame in octets, with its header. It must be 5
    /// to 100,003, the greatest of RFC 5024, section 8.
    pub fn new(alloc: Global, limit: usize) -> Deframer
        requires low { SHORTEST_FRAME ≤ limit }
        requires high { limit ≤ LONGEST_FRAME }
        ensures { result ≡ record { limit = limit; rest = []; told = None; room = 0; capacity = 0 } }
    {
        Deframer {
            limit,
            room: 0,
            buffer: Vec::new(alloc),
            begin: 0,
            told: None,
        }
    }

    /// A deframer that has allocated twice `room` octets. `feed` doesn't return `Memory` while the octets that were fed and not returned
    /// are at most `room`. `limit` is as in `new`: 5 to 100,003 octets.
    ///
    /// # Errors
    ///
    /// [`FrameFault::Memory`]: out of memory, or twice `room` isn't a `usize`.
    pub fn with_room(alloc: Global, limit: usize, room: usize) -> Result<Deframer, FrameFault>
        requires low { SHORTEST_FRAME ≤ limit }
        requires high { limit ≤ LONGEST_FRAME }
        ensures ok { IfOk result
            (λ d. d ≡ record { limit = limit; rest = []; told = None; room = room; capacity = 2 * room }) }
        ensures err { IfErr result (λ fault. fault ≡ FrameFault.Memory) }
    {
        let capacity = room.checked_mul(2).ok_or(FrameFault::Memory)?;
        Ok(Deframer {
            limit,
            room,
            buffer: Vec::with_capacity(alloc, capacity)?,
            begin: 0,
            told: None,
        })
    }

    /// The number of octets, fed and not returned, up to which `feed` doesn't return `Memory`: the `room` of `with_room`, or else 0.
    pub fn room(&self) -> usize
        ensures { result ≡ self.now.room }
    {
        self.room
    }

    /// The number of octets that the deframer has allocated: at most twice the greatest number that it held, or twice its `room`.
    pub fn capacity(&self) -> usize
        ensures { result ≡ self.now.capacity }
    {
        self.buffer.capacity()
    }

    /// Appends the next piece of the stream. It allocates at most twice the octets that it then holds. Over a whole stream its time is
    /// linear in the octets, however long the pieces are; no clause says this.
    ///
    /// # Errors
    ///
    /// - The error that `next` returned before, if it did.
    /// - [`FrameFault::Memory`], only where more than `room` octets would be held.
    ///
    /// The deframer is unchanged.
    pub fn feed(&mut self, piece: &[u8]) -> Result<(), FrameFault>
        ensures ok { OnOk result
            (self.new ≡ record self.old { rest = self.old.rest ++ piece.now; capacity = self.new.capacity }) }
        ensures capacity { self.new.capacity
            ≤ max self.old.capacity (2 * (length self.old.rest + length piece.now)) }
        ensures open { OnOk result (self.old.told ≡ None) }
        ensures err { OnErr result (self.new ≡ self.old) }
        ensures told { IfErr result (λ fault. IfSome self.old.told (λ before. fault ≡ before)) }
        ensures memory { IfErr result (λ fault. IfNone self.old.told ((fault ≡ FrameFault.Memory)
            × (self.old.room < length self.old.rest + length piece.now))) }
    {
        if let Some(before) = self.told {
            return Err(before);
        }
        if self.buffer.capacity() - self.buffer.len() < piece.len() {
            drop_front(&mut self.buffer, self.begin);
            self.begin = 0;
            make_room(&mut self.buffer, piece.len())?;
        }
        append(&mut self.buffer, piece);
        Ok(())
    }

    /// Returns the next whole command without its header, or `None` where the next frame isn't whole. It allocates nothing (RFC 5024,
    /// section 8).
    ///
    /// # Errors
    ///
    /// [`FrameFault::BadHeader`] or [`FrameFault::BadLength`]: the next frame is faulty. Its octets stay where they are. From then on
    /// `feed` and `next` both return this error.
    pub fn next(&mut self) -> Result<Option<&[u8]>, FrameFault>
        ensures value { shown result ≡ next_of self.old self.old.told }
        ensures* after { sem 𝓛 (Rests the_row self.entry
            (λ new. new ≡ left_of self.old self.old.told)) }

        // The same in the words of `Front`.
        ensures command { IfOk result (λ found. IfSome found
            (λ m. BeginsWith self.old.limit self.old.rest m.now)) }
        ensures none { IfOk result
            (λ found. IfNone found (IsRest self.old.limit self.old.rest None)) }
        ensures fault { self.old.told ≡ None
            → IfErr result (λ fault. IsRest self.old.limit self.old.rest (Some fault)) }
    {
        if let Some(fault) = self.told {
            return Err(fault);
        }
        match frame_len(&self.buffer[self.begin..], self.limit) {
            Ok(Some(len)) => {
                let from = self.begin + FRAME_HEADER;
                self.begin += len;
                Ok(Some(&self.buffer[from..self.begin]))
            }
            Ok(None) => Ok(None),
            Err(fault) => {
                self.told = Some(fault);
                Err(fault)
            }
        }
    }
}
