//! Making the rows of a file from payloads.
ghost use Rattle.std.specs.Prelude.{◌≡◌, ◌+◌, ◌<◌, ◌≤◌, ◌^◌, ◌++◌, ◌∷◌, [], ◌⊎◌, ℕ, List, length, Ok, Err, OnOk, OnErr, IfOk, IfErr, false, Some};
ghost use Rattle.oftp_vfile.specs.Subrecord.{Subrecord};
ghost use Rattle.oftp_vfile.specs.Carries.{is_open};
ghost use Rattle.oftp_vfile.specs.VirtualFile.{closed};
ghost use Rattle.oftp_vfile.specs.Reading.{taken};
ghost use Rattle.oftp_vfile.specs.Taking.{Taking, CarriesWithin, FirstFault, IsSameFile, Took, Walked, added, counts_of, fault_at, fault_in, is_ended, is_too_big, is_wrong_size, new_taking};

use crate::content::{Row, Rows};
use crate::fault::TakeFault;
use crate::format::{BLOCK, Format, MOST_ROWS};
use crate::growth::{add_to_record, add_to_stream, back_to};
use crate::header::{count_in, has_compression, has_end};
use crate::limits::Limits;
use std::alloc::{AllocError, Global};
use std::marker::Model;
use std::mem;

/// How far a record, or a stream, was received.
#[derive(Clone, Copy, Debug, PartialEq, Eq, Hash)]
pub enum Stage {
    /// No subrecord was received.
    Fresh,
    /// The last subrecord doesn't have the end flag.
    Open,
    /// The last subrecord has the end flag.
    Ended,
}

/// Takes payloads, and makes rows from their subrecords (RFC 5024, section 7.2).
///
/// It holds the rows that were finished since they were last removed, and the open tail after them. An octet is copied once, into the tail,
/// except while a record of V grows. A finished record or block is returned without a copy.
#[derive(Drop)]
pub struct Taker {
    alloc: Global,
    format: Format,
    longest: usize,
    // The limit of the file, in octets.
    limit: u64,
    // How many rows and octets of the file are kept from earlier transfers.
    kept_rows: u64,
    kept_units: u64,
    // How many rows were removed.
    away: u64,
    rows: Vec<Row>,
    tail: Vec<u8>,
    // How many octets were taken.
    units: u64,
    stage: Stage,
}

impl Model for Taker {
    ghost use Rattle.std.specs.Prelude.{◌≡◌, ◌+◌, ◌<◌, ◌≤◌, ◌^◌, true, length};
    ghost use Rattle.oftp_vfile.specs.declared.format.TheConstants.{BLOCK, MOST_ROWS};
    ghost use Rattle.oftp_vfile.specs.Taking.{Taking};
    ghost use Rattle.oftp_vfile.specs.VirtualFile.{is_stream};

    ghost Value = { Taking };

    ghost view = { λ t. record {
      format = t.format;
      longest = t.longest;
      limit = t.limit;
      kept_rows = t.kept_rows;
      kept_units = t.kept_units;
      away = t.away;
      rows = t.rows.items;
      tail = t.tail.items;
      units = t.units;
      stage = t.stage;
    } };

    ghost invariant = { λ t. (is_stream t.format ≡ true → length t.tail.items < BLOCK)
        × (t.kept_units + t.limit < 2 ^ 63) × (t.units ≤ t.limit)
        × (t.kept_rows + t.away + length t.rows.items ≤ MOST_ROWS) };
}

fn is_ended(stage: Stage) -> bool
    ensures { result ≡ is_ended stage }
{
    match stage {
        Stage::Fresh | Stage::Open => false,
        Stage::Ended => true,
    }
}

// Whether a record that has this many octets so far breaks the rule on its length.
fn is_wrong_size(format: Format, longest: usize, size: usize, ends: bool) -> bool
    ensures { result ≡ is_wrong_size format longest size ends }
{
    match format {
        Format::Fixed => size > longest || ends && size != longest,
        Format::Variable => size > longest,
        Format::Unstructured | Format::Text => false,
    }
}

impl Taker {
    /// A taker of a file, with its longest record in octets (0 in U and T). It has the numbers of rows and octets that are kept from
    /// earlier transfers, and the limits of the station, of which it uses `octets`. It allocates nothing.
    ///
    /// At most 1,000,000 rows are kept, and the sum of the kept octets and the limit is below 2^63, so that every count fits.
    pub fn new(
        alloc: Global,
        format: Format,
        longest: u32,
        kept_rows: u64,
        kept_units: u64,
        limits: Limits,
    ) -> Taker
        requires rows { kept_rows ≤ MOST_ROWS }
        requires fits { kept_units + limits.octets < 2 ^ 63 }
        ensures value { result ≡ new_taking format longest kept_rows kept_units limits.octets }
        ensures took { Took result [] [] }
    {
        Taker {
            alloc,
            format,
            longest: longest as usize,
            limit: limits.octets,
            kept_rows,
            kept_units,
            away: 0,
            rows: Vec::new(alloc),
            tail: Vec::new(alloc),
            units: 0,
            stage: Stage::Fresh,
        }
    }

    /// Takes the next payload: the octets after the `D` of a DATA command (RFC 5024, sections 5.3.6 and 7.2). It may be empty.
    ///
    /// # Errors
    ///
    /// - That of the first faulty subrecord. Where several apply, it is the first of [`TakeFault::AfterEnd`], [`TakeFault::Compressed`],
    ///   [`TakeFault::Cut`], [`TakeFault::TooBig`] and [`TakeFault::RecordSize`].
    /// - [`TakeFault::Memory`]: out of memory.
    ///
    /// The taker is unchanged.
    pub fn take(&mut self, payload: &[u8]) -> Result<(), TakeFault>
        // A payload that is taken carries rows within the limits, after the payloads before.
        ensures took { (gone payloads : List (List ℕ)) → Took self.old gone payloads
            → OnOk result (Took self.new gone (payloads ++ payload.now ∷ [])) }

        // A payload that carries rows within the limits is taken, unless memory runs out.
        ensures only { (gone payloads : List (List ℕ)) → Took self.old gone payloads
            → CarriesWithin self.old (payloads ++ payload.now ∷ [])
            → IfErr result (λ f. f ≡ TakeFault.Memory) }
        ensures fault { IfErr result (λ f.
            (f ≡ TakeFault.Memory) ⊎ FirstFault self.old payload.now f) }
        ensures same_file { IsSameFile self.old self.new }

        // The taker afterwards, and the result, follow from the taker before.
        ensures value { OnOk result (taken self.old payload.now ≡ Ok self.new) }
        ensures refused { IfErr result (λ f.
            (f ≡ TakeFault.Memory) ⊎ (taken self.old payload.now ≡ Err f)) }
        ensures walked { OnOk result (Walked self.old self.new payload.now []) }
        ensures err { OnErr result (self.new ≡ self.old) }
    {
        let row_count = self.rows.len();
        let tail_len = self.tail.len();
        let units = self.units;
        let stage = self.stage;
        match self.walk(payload) {
            Ok(()) => Ok(()),
            Err(fault) => {
                back_to(&mut self.rows, &mut self.tail, row_count, tail_len);
                self.units = units;
                self.stage = stage;
                Err(fault)
            }
        }
    }

    /// The rows that were finished since they were last removed: records, or full blocks of 1,024 octets.
    pub fn whole_rows(&self) -> &[Row]
        ensures { result.now ≡ self.now.rows }
    {
        self.rows.as_slice()
    }

    /// Removes and returns the finished rows, and changes nothing else. It allocates nothing.
    pub fn take_rows(&mut self) -> Vec<Row>
        ensures rows { result.items ≡ self.old.rows }
        ensures rest { self.new
            ≡ record self.old { rows = []; away = self.old.away + length self.old.rows } }
        ensures took { (gone payloads : List (List ℕ)) → Took self.old gone payloads
            → Took self.new (gone ++ self.old.rows) payloads }
    {
        self.away += self.rows.len() as u64;
        mem::replace(&mut self.rows, Vec::new(self.alloc))
    }

    /// The octets after the last finished row.
    pub fn open_tail(&self) -> &[u8]
        ensures { result.now ≡ self.now.tail }
    {
        self.tail.as_slice()
    }

    /// Whether the last subrecord doesn't have the end flag, so that its record, or the stream, goes on.
    pub fn is_open(&self) -> bool
        ensures { result ≡ is_open self.now.stage }
    {
        match self.stage {
            Stage::Open => true,
            Stage::Fresh | Stage::Ended => false,
        }
    }

    /// The numbers of records and of octets of the whole file so far, kept rows included, as EFID has them (RFC 5024, section 5.3.8).
    pub fn counts(&self) -> (u64, u64)
        ensures { result ≡ counts_of self.now }
    {
        let records = if self.format.is_stream() {
            0
        } else {
            self.kept_rows + self.away + self.rows.len() as u64
        };
        (records, self.kept_units + self.units)
    }

    /// The finished rows that weren't removed and, unless it is empty, the open tail as the last one. With these rows a file ends, whose
    /// last block may be shorter. It copies no octet.
    ///
    /// A caller checks `is_open` first: a record or a stream that goes on would be closed too early.
    ///
    /// # Errors
    ///
    /// Out of memory for one more row. The rows are lost.
    pub fn close(self) -> Result<Rows, AllocError>
        ensures rows { IfOk result (λ rows. rows ≡ closed self.rows self.tail) }
    {
        let Taker { mut rows, tail, .. } = self;
        if !tail.is_empty() {
            rows.push(Row::new(tail))?;
        }
        Ok(Rows::new(rows))
    }

    // Takes one subrecord after another, up to the first faulty one.
    fn walk(&mut self, payload: &[u8]) -> Result<(), TakeFault>
        ensures ok { OnOk result (Walked self.old self.new payload.now []) }
        ensures err { IfErr result (λ f. (rest : List ℕ) × Walked self.old self.new payload.now rest
            × ((f ≡ TakeFault.Memory) ⊎ (fault_in self.new rest ≡ Some f))) }
    {
        let mut rest = payload;
        while let [header, after @ ..] = rest {
            if let Some(fault) = self.fault_at(*header, after.len()) {
                return Err(fault);
            }
            let (part, behind) = after.split_at(count_in(*header));
            self.add(has_end(*header), part)?;
            rest = behind;
        }
        Ok(())
    }

    // The fault of a subrecord with this header, which is followed by `room` octets.
    fn fault_at(&self, header: u8, room: usize) -> Option<TakeFault>
        ensures { result ≡ fault_at self.now header room }
    {
        let ends = has_end(header);
        let count = count_in(header);
        if self.format.is_stream() && is_ended(self.stage) {
            return Some(TakeFault::AfterEnd);
        }
        if has_compression(header) {
            return Some(TakeFault::Compressed);
        }
        if room < count {
            return Some(TakeFault::Cut);
        }
        if self.is_too_big(ends, count) {
            return Some(TakeFault::TooBig);
        }
        if is_wrong_size(self.format, self.longest, self.tail.len() + count, ends) {
            return Some(TakeFault::RecordSize);
        }
        None
    }

    // Whether the file exceeds a limit with a further subrecord of `count` octets.
    fn is_too_big(&self, ends: bool, count: usize) -> bool
        requires { count < 64 }
        ensures { result ≡ is_too_big self.now ends count }
    {
        let new_rows = if self.format.is_stream() {
            (self.tail.len() + count) / BLOCK
        } else if ends {
            1
        } else {
            0
        };
        self.kept_units + self.units + count as u64 > self.limit
            || self.kept_rows + self.away + self.rows.len() as u64 + new_rows as u64
                > MOST_ROWS as u64
    }

    // Takes a subrecord that has no fault. An error changes nothing.
    fn add(&mut self, ends: bool, part: &[u8]) -> Result<(), TakeFault>
        requires short { length part.now < 64 }
        requires allowed { is_too_big self.old ends (length part.now) ≡ false }
        ensures ok { OnOk result
            (self.new ≡ added self.old (record { ends = ends; octets = part.now })) }
        ensures err { OnErr result (self.new ≡ self.old) }
        ensures memory { IfErr result (λ f. f ≡ TakeFault.Memory) }
    {
        if self.format.is_stream() {
            add_to_stream(self.alloc, &mut self.rows, &mut self.tail, part)?;
        } else {
            let size = self.record_size(ends);
            add_to_record(self.alloc, &mut self.rows, &mut self.tail, ends, part, size)?;
        }
        self.units += part.len() as u64;
        self.stage = if ends { Stage::Ended } else { Stage::Open };
        Ok(())
    }

    // How many octets of a record are allocated at once. It is all of it if its length is known. Else it is twice what was received, so
    // that a short record holds little more than it has.
    fn record_size(&self, ends: bool) -> usize {
        match self.format {
            Format::Fixed => self.longest,
            _ if ends => 0,
            _ => self.tail.len().saturating_mul(2).min(self.longest),
        }
    }
}
