//! The pieces of an encoding, and how they are written.

ghost use Rattle.std.specs.Prelude.{◌≡◌, ℕ, ◌+◌, ◌-◌, ◌≤◌, ◌<◌, ◌^◌, ◌↔◌, length, IsTrue};
ghost use Rattle.oftp_wire.specs.Octets.{spaces, decimal, put};
ghost use Rattle.std.specs.List.{AllByRecursion};
ghost use Rattle.oftp_codec.specs.Piece.{octets_of, spelling, IsRight};
ghost use Rattle.oftp_codec.specs.Spelling.{IsWritten};

use oftp_wire::WireFault;

/// A piece of an encoding.
#[derive(Clone, Copy)]
pub(crate) enum Piece<'a> {
    /// These octets.
    Octets(&'a [u8]),
    /// A value, padded with spaces to this many octets.
    Padded(&'a [u8], usize),
    /// A number in this many digits.
    Decimal(u64, usize),
    /// This many spaces.
    Spaces(usize),
}

/// Writes octets at an offset.
fn put_octets(out: &mut [u8], at: usize, octets: &[u8])
    requires { at + length octets.now ≤ length out.old }
    ensures { out.new ≡ put at octets.now out.old }
{
    out[at..at + octets.len()].copy_from_slice(octets);
}

/// Writes spaces at an offset.
fn put_spaces(out: &mut [u8], at: usize, count: usize)
    requires { at + count ≤ length out.old }
    ensures { out.new ≡ put at (spaces count) out.old }
{
    out[at..at + count].fill(b' ');
}

/// Writes a number in digits at an offset.
fn put_decimal(out: &mut [u8], at: usize, count: usize, value: u64)
    requires { at + count ≤ length out.old }
    ensures { out.new ≡ put at (decimal count value) out.old }
{
    if count > 0 {
        put_decimal(out, at, count - 1, value / 10);
        out[at + count - 1] = b'0' + (value % 10) as u8;
    }
}

impl Piece<'_> {
    /// The number of its octets.
    fn len(&self) -> usize
        requires { IsRight self.now }
        ensures { result ≡ length (octets_of self.now) }
    {
        match self {
            Piece::Octets(octets) => octets.len(),
            Piece::Padded(_, count) => *count,
            Piece::Decimal(_, count) => *count,
            Piece::Spaces(count) => *count,
        }
    }

    /// Writes it at an offset.
    fn put(&self, out: &mut [u8], at: usize)
        requires right { IsRight self.now }
        requires room { at + length (octets_of self.now) ≤ length out.old }
        ensures { out.new ≡ put at (octets_of self.now) out.old }
    {
        match self {
            Piece::Octets(octets) => put_octets(out, at, octets),
            Piece::Padded(octets, count) => {
                put_octets(out, at, octets);
                put_spaces(out, at + octets.len(), *count - octets.len());
            }
            Piece::Decimal(value, count) => put_decimal(out, at, *count, *value),
            Piece::Spaces(count) => put_spaces(out, at, *count),
        }
    }
}

/// Whether the pieces fit into this many octets.
fn has_room(pieces: &[Piece], room: usize) -> bool
    requires { AllByRecursion IsRight pieces.now }
    ensures { IsTrue result ↔ (length (spelling pieces.now) ≤ room) }
{
    let mut left = room;
    for piece in pieces {
        let len = piece.len();
        if left < len {
            return false;
        }
        left -= len;
    }
    true
}

/// Writes the pieces one after the other, and returns how many octets they have.
pub(crate) fn write(out: &mut [u8], pieces: &[Piece]) -> Result<usize, WireFault>
    requires { AllByRecursion IsRight pieces.now }
    ensures { IsWritten result (spelling pieces.now) out.old out.new }
{
    if !has_room(pieces, out.len()) {
        return Err(WireFault::NoRoom);
    }
    let mut at = 0;
    for piece in pieces {
        piece.put(out, at);
        at += piece.len();
    }
    Ok(at)
}
