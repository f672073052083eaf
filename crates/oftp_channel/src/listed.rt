//! A file in a list that is an answer.

ghost use Rattle.std.specs.Prelude.{◌≡◌, None, IfSome, false};
ghost use Rattle.oftp_io.specs.Ports.{Sent};
ghost use Rattle.oftp_channel.specs.Asked.{read_words};
ghost use Rattle.oftp_channel.specs.Listed.{IsListable, entry_words};
ghost use Rattle.oftp_channel.specs.Requests.{IsRequest, spelled_request};
ghost use Rattle.oftp_channel.specs.declared.listed.ListedFile.{ListedFile};

use crate::fields::{number_in, text_in};
use crate::request::{Word, words_fit, write_words};
use crate::stamp::stamp_in;
use oftp_io::Port;
use std::io::Write;

/// A file in a list.
#[derive(Clone, Copy, Drop)]
pub struct ListedFile<'a> {
    /// The file's number.
    pub no: u64,
    /// Its dataset name.
    pub dataset: &'a str,
    /// Its date stamp, CCYYMMDD.
    pub date: &'a str,
    /// Its time stamp, HHMMSScccc.
    pub time: &'a str,
    /// The Identification Code of the partner, its originator or its destination.
    pub code: &'a str,
}

impl<'a> ListedFile<'a> {
    /// The file that these words stand for. `None` if they stand for none: if they aren't five, the number isn't one of eight octets, or a
    /// text isn't UTF-8.
    pub fn of(words: &'a [Vec<u8>]) -> Option<ListedFile<'a>>
        ensures some { IfSome result (λ file. entry_words file ≡ read_words words.now) }
        ensures none { result ≡ None → (file : ListedFile) → IsListable file → entry_words file ≡ read_words words.now → ⊥ }
    {
        let [no, dataset, date, time, code] = words else {
            return None;
        };
        let stamp = stamp_in(dataset, date, time)?;
        Some(ListedFile {
            no: number_in(no)?,
            dataset: stamp.dataset,
            date: stamp.date,
            time: stamp.time,
            code: text_in(code)?,
        })
    }
}

/// Writes a file of a list, and returns whether the writer took all of it. If it didn't, it returned an error and has a beginning of the
/// file; or the words of the file don't fit ([`words_fit`]), and nothing is written.
pub fn write_entry<W: Write>(writer: &mut Port<W>, file: &ListedFile<'_>) -> bool
    ensures sent { IsRequest (entry_words file.now) → Sent W.contents writer.old writer.new (spelled_request (entry_words file.now)) result }
    ensures kept { (IsRequest (entry_words file.now) → ⊥) → (result ≡ false) × (writer.new ≡ writer.old) }
{
    let words = [
        Word::Number(file.no),
        Word::Octets(file.dataset.as_bytes()),
        Word::Octets(file.date.as_bytes()),
        Word::Octets(file.time.as_bytes()),
        Word::Octets(file.code.as_bytes()),
    ];
    words_fit(&words) && write_words(writer, &words)
}
