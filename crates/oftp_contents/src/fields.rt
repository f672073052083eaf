//! The layout of a content: a number, a code, two texts, and octets.

ghost use Rattle.std.specs.Prelude.{◌≡◌, ◌<◌, ◌≤◌, ◌^◌, ◌↔◌, ◌++◌, ◌∷◌, List, ℕ, [], None, Err, IfErr, IfOk, IfSome, IsTrue, OnOk, length};
ghost use Rattle.std.specs.Int.{w64, to_be_bytes};
ghost use Rattle.oftp_contents.specs.Fields.{IsLaid, Laid, fields_octets, laid, laid_length, spelled_text};
ghost use Rattle.oftp_record.specs.declared.header.TheConstants.{LONGEST_CONTENT};
ghost use Rattle.oftp_record.specs.declared.writing.AppendFault.TheVariants.{TooLong};

use oftp_record::{AppendFault, LONGEST_CONTENT};
use std::alloc::{AllocError, Global};

/// The octets of a content beside its texts and its octets: the number, the code, and two lengths.
pub(crate) const FIXED: usize = 17;

/// The most octets of the texts and the octets together.
const ROOM: usize = LONGEST_CONTENT - FIXED;

/// The fields of a content. Texts and octets are borrowed.
#[derive(Clone, Copy, Debug, Drop)]
pub struct ContentFields<'a> {
    /// The number.
    pub number: u64,
    /// The code.
    pub code: u8,
    /// The first text.
    pub first: &'a [u8],
    /// The second text.
    pub second: &'a [u8],
    /// The octets.
    pub rest: &'a [u8],
}

impl<'a> ContentFields<'a> {
    // Whether its octets are as few as those of a content.
    fn fits(&self) -> bool
        ensures { IsTrue result ↔ laid_length (laid self.now) ≤ LONGEST_CONTENT }
    {
        let first = self.first.len();
        let second = self.second.len();
        let rest = self.rest.len();
        first <= ROOM && second <= ROOM - first && rest <= ROOM - first - second
    }

    // The number and the code, as octets.
    fn head(&self) -> [u8; 9]
        ensures { result ≡ to_be_bytes w64 self.now.number ++ self.now.code ∷ [] }
    {
        let n = self.number.to_be_bytes();
        [n[0], n[1], n[2], n[3], n[4], n[5], n[6], n[7], self.code]
    }

    /// Its octets.
    ///
    /// # Errors
    ///
    /// - [`AppendFault::TooLong`] exactly where it has more than [`LONGEST_CONTENT`] octets.
    /// - [`AppendFault::Memory`]: out of memory.
    pub fn octets(&self, alloc: Global) -> Result<Vec<u8>, AppendFault>
        ensures written { IfOk result (λ octets. octets.items ≡ fields_octets (laid self.now)) }
        ensures long { LONGEST_CONTENT < laid_length (laid self.now) → result ≡ Err TooLong }
        ensures too_long { IfErr result (λ fault. fault ≡ TooLong → LONGEST_CONTENT < laid_length (laid self.now)) }
    {
        if !self.fits() {
            return Err(AppendFault::TooLong);
        }
        Ok(self.spelled(alloc)?)
    }

    // Its octets, where they fit.
    fn spelled(&self, alloc: Global) -> Result<Vec<u8>, AllocError>
        requires { laid_length (laid self.now) ≤ LONGEST_CONTENT }
        ensures { IfOk result (λ octets. octets.items ≡ fields_octets (laid self.now)) }
    {
        let mut octets = Vec::from_slice(alloc, &self.head())?;
        append_text(&mut octets, self.first)?;
        append_text(&mut octets, self.second)?;
        octets.extend_from_slice(self.rest)?;
        Ok(octets)
    }

    /// The fields that these octets are, or `None` where they are none.
    pub fn of(octets: &'a [u8]) -> Option<ContentFields<'a>>
        ensures some { IfSome result (λ fields. octets.now ≡ fields_octets (laid fields)) }
        ensures none { result ≡ None → (fields : Laid) → IsLaid fields → octets.now ≡ fields_octets fields → ⊥ }
    {
        let [a, b, c, d, e, f, g, h, code, behind @ ..] = octets else {
            return None;
        };
        let first = text_in(behind)?;
        let second = text_in(first.behind)?;
        Some(ContentFields {
            number: u64::from_be_bytes([*a, *b, *c, *d, *e, *f, *g, *h]),
            code: *code,
            first: first.text,
            second: second.text,
            rest: second.behind,
        })
    }
}

// Appends a text, with its length before it.
fn append_text(octets: &mut Vec<u8>, text: &[u8]) -> Result<(), AllocError>
    requires { length text.now < 2 ^ 32 }
    ensures { OnOk result (octets.new.items ≡ octets.old.items ++ spelled_text text.now) }
{
    octets.extend_from_slice(&(text.len() as u32).to_be_bytes())?;
    octets.extend_from_slice(text)
}

// A text at the beginning of octets.
#[derive(Clone, Copy, Drop)]
struct BegunText<'a> {
    text: &'a [u8],
    // The octets behind it.
    behind: &'a [u8],
}

// The text that octets begin with, or `None` where they begin with none.
fn text_in<'a>(octets: &'a [u8]) -> Option<BegunText<'a>>
    ensures some { IfSome result (λ begun. octets.now ≡ spelled_text begun.text.now ++ begun.behind.now) }
    ensures short { IfSome result (λ begun. length begun.text.now < 2 ^ 32) }
    ensures none { result ≡ None → (text behind : List ℕ) → length text < 2 ^ 32 → octets.now ≡ spelled_text text ++ behind → ⊥ }
{
    let [a, b, c, d, rest @ ..] = octets else {
        return None;
    };
    let count = u32::from_be_bytes([*a, *b, *c, *d]) as usize;
    if rest.len() < count {
        return None;
    }
    Some(BegunText {
        text: &rest[..count],
        behind: &rest[count..],
    })
}
