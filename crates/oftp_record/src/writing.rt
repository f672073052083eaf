//! Writing an entry.

ghost use Rattle.std.specs.Prelude.{◌≡◌, ◌+◌, ◌<◌, ◌≤◌, ◌++◌, Some, Err, IfOk, IfErr, OnOk, OnErr, length, vec_capacity, vec_len};
ghost use Rattle.oftp_record.specs.AppendFaults.{append_fault_text};
ghost use Rattle.oftp_record.specs.Entries.{entry_digest, entry_length, entry_octets, noted};
ghost use Rattle.oftp_record.specs.declared.header.TheConstants.{LONGEST_CONTENT};
ghost use Rattle.oftp_record.specs.declared.writing.AppendFault.TheVariants.{Memory, TooLong};

use crate::chain::{ChainDigest, DIGEST_LEN};
use crate::entry::RecordEntry;
use crate::header::{HEADER_LEN, Header, LONGEST_CONTENT};
use std::alloc::AllocError;
use std::error::Error;
use std::fmt;

/// Why an entry wasn't written.
#[derive(Clone, Copy, Debug, PartialEq, Eq, Drop)]
pub enum AppendFault {
    /// Its content has more than [`LONGEST_CONTENT`] octets.
    TooLong,
    /// Out of memory.
    Memory,
}

impl fmt::Display for AppendFault {
    ghost output = { λ e. Some (append_fault_text e) };

    fn fmt<W: fmt::Write>(&self, f: &mut fmt::Formatter<W>) -> fmt::Result {
        f.write_str(match self {
            AppendFault::TooLong => "an entry of a record is too long",
            AppendFault::Memory => "out of memory",
        })
    }
}

impl Error for AppendFault {}

impl From<AllocError> for AppendFault {
    ghost from_gives = { λ _ e. e ≡ Memory };

    fn from(_refused: AllocError) -> AppendFault {
        Self::Memory
    }
}

// Appends octets for which there is room.
pub(crate) fn append(octets: &mut Vec<u8>, part: &[u8])
    requires { vec_len octets.old + length part.now ≤ vec_capacity octets.old }
    ensures items { octets.new.items ≡ octets.old.items ++ part.now }
    ensures len { vec_len octets.new ≡ vec_len octets.old + length part.now }
    ensures capacity { vec_capacity octets.old ≤ vec_capacity octets.new }
{
    let _ = octets.extend_from_slice(part);
}

/// Appends an entry to the octets of a record, and returns its digest. `before` is the digest of the entry before it.
///
/// # Errors
///
/// - [`AppendFault::TooLong`] exactly where the content has more than [`LONGEST_CONTENT`] octets.
/// - [`AppendFault::Memory`]: out of memory, only where there was no room for the entry.
///
/// The octets are unchanged.
pub fn append_entry(
    octets: &mut Vec<u8>,
    entry: &RecordEntry<'_>,
    before: &ChainDigest,
) -> Result<ChainDigest, AppendFault>
    ensures written { OnOk result (octets.new.items ≡ octets.old.items ++ entry_octets (noted entry.now) before.now.0) }
    ensures digest { IfOk result (λ digest. digest.0 ≡ entry_digest (noted entry.now) before.now.0) }
    ensures long { LONGEST_CONTENT < length entry.now.content.now → result ≡ Err TooLong }
    ensures too_long { IfErr result (λ fault. fault ≡ TooLong → LONGEST_CONTENT < length entry.now.content.now) }
    ensures memory { IfErr result (λ fault. fault ≡ Memory → vec_capacity octets.old < vec_len octets.old + entry_length (noted entry.now)) }
    ensures err { OnErr result (octets.new.items ≡ octets.old.items) }
{
    if entry.content.len() > LONGEST_CONTENT {
        return Err(AppendFault::TooLong);
    }
    octets.reserve(HEADER_LEN + entry.content.len() + DIGEST_LEN)?;
    let header = Header {
        kind: entry.kind,
        moment: entry.moment,
        count: entry.content.len() as u32,
    };
    let begin = octets.len();
    append(octets, header.octets().as_slice());
    append(octets, entry.content);
    let digest = ChainDigest::of(&octets[begin..], before);
    append(octets, digest.0.as_slice());
    Ok(digest)
}
