//! Writing and reading requests.

ghost use Rattle.std.specs.Prelude.{◌≡◌, ◌≤◌, ◌<◌, ◌^◌, ◌↔◌, ◌++◌, ℕ, List, Some, IfOk, IfErr, IsTrue, length};
ghost use Rattle.oftp_io.specs.Ports.{Sent};
ghost use Rattle.oftp_channel.specs.Asked.{octets_in, read_words, written_words};
ghost use Rattle.oftp_channel.specs.Inputs.{Gave, Leaves};
ghost use Rattle.oftp_channel.specs.Requests.{BeginsNoRequest, IsRequest, spelled_request, spelled_word};
ghost use Rattle.oftp_channel.specs.declared.fault.ReadFault.TheVariants.{Form};

use crate::fault::ReadFault;
use crate::inputs::{read_number, read_word};
use oftp_io::Port;
use std::alloc::Global;
use std::io::{Read, Write};

/// The most words of a request.
pub const MOST_WORDS: usize = 64;

/// The most octets of all words of a request together: 80 MiB.
pub const LARGEST_REQUEST: usize = 83_886_080;

/// A word of a request that is written.
#[derive(Clone, Copy, Drop)]
pub enum Word<'a> {
    /// One octet.
    Octet(u8),
    /// A number, whose word is eight octets with the most significant first.
    Number(u64),
    /// Octets that are borrowed.
    Octets(&'a [u8]),
}

// The word without octets.
impl Default for Word<'_> {
    fn default() -> Self {
        Word::Octets(&[])
    }
}

impl Word<'_> {
    // The number of its octets.
    fn len(&self) -> usize
        ensures { result ≡ length (octets_in self.now) }
    {
        match self {
            Word::Octet(_) => 1,
            Word::Number(_) => 8,
            Word::Octets(octets) => octets.len(),
        }
    }
}

/// Whether these words make a request: at most [`MOST_WORDS`], of at most [`LARGEST_REQUEST`] octets together.
pub fn words_fit(words: &[Word<'_>]) -> bool
    ensures { IsTrue result ↔ IsRequest (written_words words.now) }
{
    let mut left = LARGEST_REQUEST;
    for word in words {
        let length = word.len();
        if left < length {
            return false;
        }
        left -= length;
    }
    words.len() <= MOST_WORDS
}

/// Writes a request of words that pass [`words_fit`], and returns whether the writer took all of it. If it didn't, it returned an error and
/// has a beginning of the request.
pub fn write_words<W: Write>(writer: &mut Port<W>, words: &[Word<'_>]) -> bool
    requires { IsRequest (written_words words.now) }
    ensures { Sent W.contents writer.old writer.new (spelled_request (written_words words.now)) result }
{
    if !writer.send(&(words.len() as u32).to_be_bytes()) {
        return false;
    }
    for word in words {
        if !write_word(writer, word) {
            return false;
        }
    }
    true
}

// Writes a word, and returns whether the writer took all of it.
fn write_word<W: Write>(writer: &mut Port<W>, word: &Word<'_>) -> bool
    requires { length (octets_in word.now) < 2 ^ 32 }
    ensures { Sent W.contents writer.old writer.new (spelled_word (octets_in word.now)) result }
{
    match word {
        Word::Octet(octet) => write_octets(writer, &[*octet]),
        Word::Number(number) => write_octets(writer, &number.to_be_bytes()),
        Word::Octets(octets) => write_octets(writer, octets),
    }
}

// Writes a word of these octets, and returns whether the writer took all of it.
fn write_octets<W: Write>(writer: &mut Port<W>, word: &[u8]) -> bool
    requires { length word.now < 2 ^ 32 }
    ensures { Sent W.contents writer.old writer.new (spelled_word word.now) result }
{
    if !writer.send(&(word.len() as u32).to_be_bytes()) {
        return false;
    }
    writer.send(word)
}

/// Reads a request. Memory is allocated as its octets arrive.
///
/// # Errors
///
/// - [`ReadFault::Form`] only where no request begins with the octets of the input, whatever follows them.
/// - [`ReadFault::Input`] only where the reader returned an error or its end.
/// - [`ReadFault::Memory`]: out of memory.
///
/// The octets that were read are lost.
pub fn read_request<R: Read>(alloc: Global, reader: &mut Port<R>) -> Result<Vec<Vec<u8>>, ReadFault>
    // The octets that were read are the encoding of the request.
    ensures request { IfOk result (λ words. IsRequest (read_words words.items)) }
    ensures read { IfOk result (λ words. Gave R.remaining reader.old reader.new (spelled_request (read_words words.items))) }
    // A request that was written is read back, whatever follows it.
    ensures again { (asked : List (List ℕ)) (rest : List ℕ) → IsRequest asked → R.remaining reader.old.inner ≡ Some (spelled_request asked ++ rest)
        → IfOk result (λ words. read_words words.items ≡ asked) }
    ensures refused { IfErr result (λ fault. fault ≡ Form → (heard : List ℕ) → R.remaining reader.old.inner ≡ Some heard → BeginsNoRequest heard) }
    ensures leaves { IfErr result (λ fault. Leaves R.remaining reader.old reader.new fault) }
{
    let count = read_number(alloc, reader)? as usize;
    if count > MOST_WORDS {
        return Err(ReadFault::Form);
    }
    let mut left = LARGEST_REQUEST;
    let mut words = Vec::new(alloc);
    'words: while words.len() < count {
        let word = read_word(alloc, reader, left)?;
        left -= word.len();
        words.push(word)?;
    }
    Ok(words)
}
