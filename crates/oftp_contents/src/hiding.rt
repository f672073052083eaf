//! The text of a partner book in a record: with X for each character of a password, or with digests in the place of the passwords.

ghost use Rattle.std.specs.Prelude.{◌≡◌, ◌++◌, IfOk, OnOk, option_map, string_bytes};
ghost use Rattle.std.specs.Str.{bytes_eq};
ghost use Rattle.oftp_contents.specs.Hiding.{Gives, crossed_out_part, digest_text, found_in, hidden_book, hidden_part, joined, known_in, known_part, known_password, shown_book, shown_part, without_passwords};

use crate::books::{BookPart, Quote, parts_of};
use crate::escapes::{hidden_literal, hidden_string};
use sha2::{Digest, Sha256};
use std::alloc::{AllocError, Global};
use std::marker::Model;

/// The text of a book with X for each character of a password that one may have, so that sessions go the same way by it.
///
/// # Errors
/// Out of memory.
#[tactic(auto, unfolding(crate::specs::Hiding::without_passwords))]
pub fn without_passwords(alloc: Global, book: &[u8]) -> Result<Vec<u8>, AllocError>
    ensures { IfOk result (λ text. text.items ≡ without_passwords book.now) }
{
    let parts = parts_of(alloc, book)?;
    let mut text = Vec::new(alloc);
    for part in parts.iter() {
        add_crossed_out(alloc, part, &mut text)?;
    }
    Ok(text)
}

// Appends a part of a book with X for the characters of the password, if it is one.
fn add_crossed_out(alloc: Global, part: &BookPart, to: &mut Vec<u8>) -> Result<(), AllocError>
    ensures { OnOk result (to.new.items ≡ to.old.items ++ crossed_out_part part.now) }
{
    if !part.is_string() {
        return to.extend_from_slice(part.octets());
    }
    let hidden = match part.quote() {
        Quote::Double => hidden_string(alloc, part.octets())?,
        Quote::Single => hidden_literal(alloc, part.octets())?,
    };
    to.extend_from_slice(hidden.as_slice())
}

/// The text of a book with digests in the place of its passwords: the hexadecimal digits of the SHA-256 of a salt and the password, as it is written
/// between its quotes.
///
/// # Errors
/// Out of memory.
#[tactic(auto, unfolding(crate::specs::Hiding::hidden_book))]
pub fn hidden_book(alloc: Global, book: &[u8], salt: u64) -> Result<Vec<u8>, AllocError>
    ensures { IfOk result (λ text. text.items ≡ hidden_book salt book.now) }
{
    let parts = parts_of(alloc, book)?;
    let mut text = Vec::new(alloc);
    for part in parts.iter() {
        add_hidden(alloc, part, salt, &mut text)?;
    }
    Ok(text)
}

// Appends a part of a book with the digest of the password, if it is one.
fn add_hidden(alloc: Global, part: &BookPart, salt: u64, to: &mut Vec<u8>) -> Result<(), AllocError>
    ensures { OnOk result (to.new.items ≡ to.old.items ++ hidden_part salt part.now) }
{
    if !part.is_string() {
        return to.extend_from_slice(part.octets());
    }
    let digest = digest_text(alloc, salt, part.password())?;
    part.add_instead(digest.as_bytes(), to)
}

// The digest of a password: hexadecimal digits.
#[tactic(auto, unfolding(crate::specs::Hiding::digest_text))]
fn digest_text(alloc: Global, salt: u64, password: &[u8]) -> Result<String, AllocError>
    ensures { IfOk result (λ text. string_bytes text ≡ digest_text salt password.now) }
{
    let mut hasher = Sha256::new();
    hasher.update(salt.to_be_bytes().as_slice());
    hasher.update(password);
    hex::encode(alloc, hasher.finalize().as_slice())
}

/// A password and its digest.
#[derive(Drop)]
struct KnownPassword {
    password: Vec<u8>,
    digest: String,
}

impl Model for KnownPassword {
    ghost use Rattle.std.specs.Prelude.{string_bytes};
    ghost use Rattle.oftp_contents.specs.Hiding.{Known};

    ghost Value = { Known };

    ghost view = { λ k. record { password = k.password.items; digest = string_bytes k.digest } };
}

impl KnownPassword {
    // A password with its digest by a salt.
    fn new(alloc: Global, salt: u64, password: &[u8]) -> Result<KnownPassword, AllocError>
        ensures { IfOk result (λ known. known ≡ known_password salt password.now) }
    {
        let digest = digest_text(alloc, salt, password)?;
        let password = Vec::from_slice(alloc, password)?;
        Ok(KnownPassword { password, digest })
    }

    // The password.
    fn password(&self) -> &[u8]
        ensures { result.now ≡ self.now.password }
    {
        self.password.as_slice()
    }

    // Whether this is its digest.
    fn has(&self, digest: &[u8]) -> bool
        ensures { result ≡ bytes_eq self.now.digest digest.now }
    {
        self.digest.as_bytes() == digest
    }
}

// The passwords of a book with their digests by a salt. The empty one is among them.
#[tactic(auto, unfolding(crate::specs::Hiding::known_in))]
fn known_in(alloc: Global, salt: u64, book: &[u8]) -> Result<Vec<KnownPassword>, AllocError>
    ensures { IfOk result (λ known. known.items ≡ known_in salt book.now) }
{
    let parts = parts_of(alloc, book)?;
    let mut known = Vec::new(alloc);
    known.push(KnownPassword::new(alloc, salt, &[])?)?;
    for part in parts.iter() {
        add_known(alloc, salt, part, &mut known)?;
    }
    Ok(known)
}

// Appends the password that a part of a book is, if it is one.
fn add_known(
    alloc: Global,
    salt: u64,
    part: &BookPart,
    to: &mut Vec<KnownPassword>,
) -> Result<(), AllocError>
    ensures { OnOk result (to.new.items ≡ to.old.items ++ known_part salt part.now) }
{
    if part.is_string() {
        to.push(KnownPassword::new(alloc, salt, part.password())?)?;
    }
    Ok(())
}

// The first of some passwords with this digest.
#[tactic(auto, unfolding(crate::specs::Hiding::found_in))]
fn found_in<'k>(known: &'k [KnownPassword], digest: &[u8]) -> Option<&'k [u8]>
    ensures { option_map (λ password. password.now) result ≡ found_in known.entry.now digest.now }
{
    match known.iter().find(|one| one.has(digest)) {
        Some(one) => Some(one.password()),
        None => None,
    }
}

/// The text of a book of which [`hidden_book`] gave a text with this salt. Its passwords are among those of another book. `None` if that lacks one; the
/// empty one is known.
///
/// # Errors
/// Out of memory.
#[tactic(auto, unfolding(crate::specs::Hiding::shown_book))]
pub fn shown_book(
    alloc: Global,
    recorded: &[u8],
    salt: u64,
    other: &[u8],
) -> Result<Option<Vec<u8>>, AllocError>
    ensures { IfOk result (λ shown. option_map (λ text. text.items) shown ≡ shown_book salt other.now recorded.now) }
{
    let known = known_in(alloc, salt, other)?;
    let parts = parts_of(alloc, recorded)?;
    let mut text = Vec::new(alloc);
    for part in parts.iter() {
        match add_shown(part, known.as_slice(), &mut text)? {
            Shown::Known => {}
            Shown::Unknown => return Ok(None),
        }
    }
    Ok(Some(text))
}

/// Whether a password is known.
#[derive(Clone, Copy, Debug, PartialEq, Eq, Drop)]
enum Shown {
    /// It is, or a part has none.
    Known,
    /// It isn't.
    Unknown,
}

// Appends a part of a book with the password that has the digest in its place, if that is known.
fn add_shown(
    part: &BookPart,
    known: &[KnownPassword],
    to: &mut Vec<u8>,
) -> Result<Shown, AllocError>
    ensures { IfOk result (λ shown. Gives shown (joined (Some to.old.items) (shown_part known.now part.now)) to.new.items) }
{
    if !part.is_string() {
        to.extend_from_slice(part.octets())?;
        return Ok(Shown::Known);
    }
    let Some(password) = found_in(known, part.password()) else {
        return Ok(Shown::Unknown);
    };
    part.add_instead(password, to)?;
    Ok(Shown::Known)
}
