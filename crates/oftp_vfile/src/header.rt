//! The header octet of a subrecord (RFC 5024, section 7.2).
ghost use Rattle.std.specs.Prelude.{◌≡◌, ◌<◌};
ghost use Rattle.oftp_vfile.specs.Subrecord.{count_in, has_compression, has_end, header_octet};

// The flag of the end of a record, or of a stream.
const END: u8 = 0x80;

// The flag of compression.
const COMPRESSION: u8 = 0x40;

// The bits of the number of octets.
const COUNT: u8 = 0x3f;

/// The most octets of a subrecord.
pub const MOST_COUNT: usize = 63;

/// The header of an uncompressed subrecord of fewer than 64 octets (RFC 5024, section 7.2). `ends` says whether it ends a record, or a
/// stream.
pub fn header_octet(ends: bool, count: usize) -> u8
    requires { count < 64 }
    ensures { result ≡ header_octet ends count }
{
    if ends { END + count as u8 } else { count as u8 }
}

/// Whether the subrecord ends a record, or a stream.
pub fn has_end(header: u8) -> bool
    ensures { result ≡ has_end header }
{
    header & END != 0
}

/// Whether the subrecord is compressed.
pub fn has_compression(header: u8) -> bool
    ensures { result ≡ has_compression header }
{
    header & COMPRESSION != 0
}

/// How many octets follow the header.
pub fn count_in(header: u8) -> usize
    ensures { result ≡ count_in header }
{
    usize::from(header & COUNT)
}
