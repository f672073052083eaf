//! The digests of messages, eight side by side where that can be.

ghost use Rattle.std.specs.Prelude.{◌≡◌, ℕ, ◌++◌, List, All, IfSome, OnOk, length, map};
ghost use Rattle.std.specs.List.{flat_map};
ghost use Rattle.sha2.specs.Hashers.{Holds256};
ghost use Rattle.sha2.specs.Sha256.{sha256};

use crate::digests::{BLOCK_LEN, LANES, digests_of_eight};
use sha2::{Digest, Sha256};
use std::alloc::AllocError;

/// Adds the SHA-256 of each of these messages to what a hasher holds, in their order. Eight messages of one length, of whole blocks, are digested side
/// by side. For that they are joined in `room`, whose octets are lost. Where there is no memory for it they are digested one by one.
pub fn add_digests(hasher: &mut Sha256, room: &mut Vec<u8>, messages: &[&[u8]])
    ensures { (held : List ℕ) → Holds256 hasher.old held
        → Holds256 hasher.new (held ++ flat_map (λ message. sha256 message.now) messages.now) }
{
    match digests_side_by_side(room, messages) {
        Some(digests) => add_all(hasher, &digests),
        None => add_each(hasher, messages),
    }
}

// Adds eight digests.
fn add_all(hasher: &mut Sha256, digests: &[[u8; 32]; 8])
    ensures { (held : List ℕ) → Holds256 hasher.old held → Holds256 hasher.new (held ++ flat_map (λ digest. digest) digests.now) }
{
    'each: for digest in digests {
        hasher.update(digest.as_slice());
    }
}

// Adds the digest of each message, one by one.
fn add_each(hasher: &mut Sha256, messages: &[&[u8]])
    ensures { (held : List ℕ) → Holds256 hasher.old held
        → Holds256 hasher.new (held ++ flat_map (λ message. sha256 message.now) messages.now) }
{
    'each: for message in messages {
        hasher.update(Sha256::digest(*message).as_slice());
    }
}

// The digest of each of eight messages of one length, of whole blocks. `None` where they are others, or there is no memory to join them.
fn digests_side_by_side(room: &mut Vec<u8>, messages: &[&[u8]]) -> Option<[[u8; 32]; 8]>
    ensures { IfSome result (λ digests. digests ≡ map (λ message. sha256 message.now) messages.now) }
{
    let size = common_length(messages)?;
    if messages.len() != LANES || size % BLOCK_LEN != 0 {
        return None;
    }
    room.clear();
    let Ok(()) = join(room, messages) else {
        return None;
    };
    Some(digests_of_eight(room, size, size))
}

// The length that each of these messages has, if they have one.
fn common_length(messages: &[&[u8]]) -> Option<usize>
    ensures { IfSome result (λ size. All (λ message. length message.now ≡ size) messages.now) }
{
    let size = messages.first()?.len();
    if messages.iter().all(|message| message.len() == size) {
        Some(size)
    } else {
        None
    }
}

// Appends messages, one behind another.
fn join(joined: &mut Vec<u8>, messages: &[&[u8]]) -> Result<(), AllocError>
    ensures { OnOk result (joined.new.items ≡ joined.old.items ++ flat_map (λ message. message.now) messages.now) }
{
    'each: for message in messages {
        joined.extend_from_slice(message)?;
    }
    Ok(())
}
