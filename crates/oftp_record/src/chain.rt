//! The digests that make the entries of a record a chain.

ghost use Rattle.std.specs.Prelude.{◌≡◌, ◌++◌};
ghost use Rattle.sha2.specs.Sha256.{sha256};
ghost use Rattle.oftp_record.specs.Entries.{chained, no_digest};

use sha2::{Digest, Sha256};

/// The length of a digest in octets.
pub const DIGEST_LEN: usize = 32;

/// The digest of an entry: the SHA-256 of the SHA-256 of its header and content, and of the digest of the entry before it. So the entries of a
/// record are a chain.
#[derive(Clone, Copy, Debug, PartialEq, Eq, Drop)]
pub struct ChainDigest(pub [u8; DIGEST_LEN]);

impl ChainDigest {
    /// What takes the place of a digest before the first entry of a record: 32 octets of 0.
    pub fn first() -> ChainDigest
        ensures { result.0 ≡ no_digest }
    {
        ChainDigest([0; DIGEST_LEN])
    }

    // The digest of an entry with this header and content, behind one whose digest is `before`.
    pub(crate) fn of(body: &[u8], before: &ChainDigest) -> ChainDigest
        ensures { result.0 ≡ chained body.now before.now.0 }
    {
        ChainDigest::over(&Sha256::digest(body), before)
    }

    // The digest of an entry whose header and content have this SHA-256, behind one whose digest is `before`.
    pub(crate) fn over(body: &[u8; DIGEST_LEN], before: &ChainDigest) -> ChainDigest
        ensures { result.0 ≡ sha256 (body.now ++ before.now.0) }
    {
        let mut hasher = Sha256::new();
        hasher.update(body.as_slice());
        hasher.update(before.0.as_slice());
        ChainDigest(hasher.finalize())
    }
}
