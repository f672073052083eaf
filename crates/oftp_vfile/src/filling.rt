//! Making payloads from the rows of a file.
ghost use Rattle.std.specs.Prelude.{◌≡◌, ◌↔◌, ◌+◌, ◌<◌, ◌≤◌, ◌++◌, ◌∷◌, [], ℕ, List, length, take, slice_index_or, true, false, All, IsTrue};
ghost use Rattle.oftp_vfile.specs.declared.format.TheConstants.{MOST_ROWS};
ghost use Rattle.oftp_vfile.specs.VirtualFile.{is_stream, whole_count};
ghost use Rattle.oftp_vfile.specs.Fill.{needs, payloads_of};
ghost use Rattle.oftp_vfile.specs.Filling.{Filling, AreLent, FillsNext, IfBuffer, IsFirstPayload, IsInRows, Sent, advanced, least, new_filling};
ghost use Rattle.oftp_vfile.specs.Packing.{PacksNext};

use crate::content::Row;
use crate::format::{BLOCK, Format};
use crate::packing::{End, Place, pack_records, pack_stream};
use std::marker::Model;

/// The result of filling a buffer.
#[derive(Clone, Copy, Debug, PartialEq, Eq, Hash)]
pub enum Filled {
    /// This number of octets of the buffer is the next payload.
    Buffer(usize),
    /// Nothing is left to send.
    Done,
    /// The payload isn't full at the end of the given rows, and further rows follow: the caller has to give more of them.
    More,
}

/// Makes payloads from rows, by the buffer filling rules (RFC 5024, section 7.3). It holds no row and allocates nothing: each call borrows
/// rows and writes from them into the buffer.
#[derive(Drop)]
pub struct Filler {
    format: Format,
    row: usize,
    // How many octets of the row were sent.
    offset: usize,
    // Whether the end of a stream was sent.
    done: bool,
    mark: usize,
}

impl Model for Filler {
    ghost use Rattle.std.specs.Prelude.{◌≤◌};
    ghost use Rattle.oftp_vfile.specs.Filling.{Filling};

    ghost Value = { Filling };

    ghost view = { λ f. record {
      format = f.format;
      row = f.row;
      offset = f.offset;
      done = f.done;
      mark = f.mark;
    } };

    ghost invariant = { λ f. f.mark ≤ f.row };
}

// How many octets the subrecord of the shortest further row needs.
fn least_need(format: Format) -> usize
    ensures { result ≡ needs (least format) }
{
    match format {
        Format::Variable => 1,
        Format::Fixed | Format::Unstructured | Format::Text => 2,
    }
}

// How many of these rows, wholly sent, count towards the mark: in a stream only full blocks.
fn whole_count(format: Format, rows: &[Row]) -> usize
    ensures value { result ≡ whole_count format rows.now }
    ensures most { result ≤ length rows.now }
{
    if format.is_stream() {
        rows.iter().filter(|row| row.len() == BLOCK).count()
    } else {
        rows.len()
    }
}

impl Filler {
    /// A filler that begins at row `from` of its file: 0, or the row from which a broken transfer is continued. It allocates nothing.
    pub fn new(format: Format, from: usize) -> Filler
        ensures value { result ≡ new_filling format from }
        ensures sent { (size : ℕ) (rows : List (List ℕ)) → Sent result size from rows [] }
    {
        Filler {
            format,
            row: from,
            offset: 0,
            done: false,
            mark: from,
        }
    }

    /// The format of its file.
    pub fn format(&self) -> Format
        ensures { result ≡ self.now.format }
    {
        self.format
    }

    /// The row from which the next call borrows rows.
    pub fn row(&self) -> usize
        ensures { result ≡ self.now.row }
    {
        self.row
    }

    /// How many rows of the file, from its first one on, count as wholly sent. In a stream these are only full blocks, so never a last,
    /// shorter one. A transfer that breaks can be continued from there (RFC 5024, section 1.5.4).
    pub fn mark(&self) -> usize
        ensures { result ≡ self.now.mark }
    {
        self.mark
    }

    /// Whether the filler may borrow these rows, from its row on. In the middle of a row, that row has to be the first of them.
    pub fn is_in(&self, rows: &[Row]) -> bool
        ensures { IsTrue result ↔ IsInRows self.now rows.now }
    {
        match rows.first() {
            Some(row) => self.offset == 0 || self.offset < row.len(),
            None => self.offset == 0,
        }
    }

    /// Writes the next payload into `out`: the octets after the `D` of a DATA command (RFC 5024, sections 5.3.6 and 7.3).
    ///
    /// It borrows rows from `row()` on, any number of them. `last` says whether they reach the end of the file. The caller makes sure that
    ///
    /// - `out` has at least 2 octets,
    /// - no row lies beyond the 1,000,000 that a file may have,
    /// - in the middle of a row, this row is given, with all its octets; at the start of a row, none need be given,
    /// - no row of a stream is empty.
    ///
    /// `More` asks for more rows: the payload isn't full, and further rows follow. `Done` says that nothing is left. Both leave the filler
    /// unchanged, and the content of `out` unspecified. It allocates nothing.
    pub fn next_buffer(&mut self, rows: &[Row], last: bool, out: &mut [u8]) -> Filled
        requires room { 2 ≤ length out.old }
        requires few { self.old.row + length rows.now ≤ MOST_ROWS }
        requires place { IsInRows self.old rows.now }
        requires some { is_stream self.old.format ≡ true → All (λ r. 0 < length r) rows.now }

        // A payload is the first one of what is left, wherever the given rows end.
        ensures buffer { IfBuffer result (λ n. (n ≤ length out.old)
            × IsFirstPayload (length out.old) self.old self.new rows.now last (take n out.new)) }

        // `More` is returned exactly where a subrecord of a further row could fit, and `Done` exactly where nothing is left.
        ensures fills { FillsNext (length out.old) self.old self.new rows.now last result }

        // The payloads so far, and all of them, if the given rows are those of a whole file.
        ensures sent { (from : ℕ) (file payloads : List (List ℕ))
            → Sent self.old (length out.old) from file payloads
            → AreLent self.old from file rows.now last
            → IfBuffer result (λ n.
            Sent self.new (length out.old) from file (payloads ++ take n out.new ∷ [])) }
        ensures all { (from : ℕ) (file payloads : List (List ℕ))
            → Sent self.old (length out.old) from file payloads
            → AreLent self.old from file rows.now last
            → result ≡ Filled.Done → payloads ≡ payloads_of self.old.format (length out.old) file }
    {
        if self.format.is_stream() {
            self.next_of_stream(rows, last, out)
        } else {
            self.next_of_records(rows, last, out)
        }
    }

    // Moves on to a place in the given rows.
    fn advance(&mut self, rows: &[Row], place: Place)
        requires row { place.row ≤ length rows.now }
        requires few { self.old.row + length rows.now ≤ MOST_ROWS }
        ensures { self.new ≡ advanced self.old rows.now place.row place.offset }
    {
        let (sent, _) = rows.split_at(place.row);
        self.mark += whole_count(self.format, sent);
        self.row += place.row;
        self.offset = place.offset;
    }

    // The next payload of a file of records.
    fn next_of_records(&mut self, rows: &[Row], last: bool, out: &mut [u8]) -> Filled
        requires records { is_stream self.old.format ≡ false }
        requires room { 2 ≤ length out.old }
        requires few { self.old.row + length rows.now ≤ MOST_ROWS }
        requires place { IsInRows self.old rows.now }
        ensures buffer { IfBuffer result (λ n. (n ≤ length out.old)
            × PacksNext (length out.old) self.old self.new rows.now last (take n out.new)) }
        ensures fills { FillsNext (length out.old) self.old self.new rows.now last result }
    {
        let (at, place) = pack_records(rows, self.offset, out);
        if place.row == rows.len() && !last && out.len() - at >= least_need(self.format) {
            return Filled::More;
        }
        if at == 0 {
            return Filled::Done;
        }
        self.advance(rows, place);
        Filled::Buffer(at)
    }

    // The next payload of a stream.
    fn next_of_stream(&mut self, rows: &[Row], last: bool, out: &mut [u8]) -> Filled
        requires stream { is_stream self.old.format ≡ true }
        requires room { 2 ≤ length out.old }
        requires few { self.old.row + length rows.now ≤ MOST_ROWS }
        requires place { IsInRows self.old rows.now }
        requires some { All (λ r. 0 < length r) rows.now }
        ensures buffer { IfBuffer result (λ n. (n ≤ length out.old)
            × PacksNext (length out.old) self.old self.new rows.now last (take n out.new)) }
        ensures fills { FillsNext (length out.old) self.old self.new rows.now last result }
    {
        if self.done {
            return Filled::Done;
        }
        let (at, place, end) = pack_stream(rows, self.offset, last, out);
        match end {
            End::Short => Filled::More,
            End::Full => {
                self.advance(rows, place);
                Filled::Buffer(at)
            }
            End::Ended => {
                self.done = true;
                self.advance(rows, place);
                Filled::Buffer(at)
            }
        }
    }
}
