//! The local form of files, in which an operator submits and fetches them.
ghost use Rattle.std.specs.Prelude.{◌≡◌, ◌<◌, ◌≤◌, ◌↔◌, ◌++◌, ℕ, List, length, IsTrue, IfSome, IfNone, IfOk, IfErr};
ghost use Rattle.oftp_vfile.specs.VirtualFile.{octets_in, AreBlocks, AreRows, IsLongest};
ghost use Rattle.oftp_vfile.specs.LocalForm.{IsFirstRecord, IsLocal, digit_of, digits_of, local_of};

use crate::content::{Row, Rows};
use crate::fault::LocalFault;
use crate::format::{BLOCK, Format};
use std::alloc::{AllocError, Global};

// The number of digits of the length of a record in V.
const DIGITS: usize = 5;

/// A virtual file, whole (RFC 5024, section 1.5).
#[derive(Drop)]
pub struct VFile {
    /// The format of its records.
    pub format: Format,
    /// The length of each record (F) or of the longest one that is allowed (V), in octets; 0 in U and T.
    pub longest: u32,
    /// Its records (F, V), or its blocks of 1,024 octets, the last of which may be shorter (U, T).
    pub rows: Rows,
}

impl VFile {
    /// Reads a file from its local form. The format has to allow the longest record (`Format::allows_longest`).
    ///
    /// F: the records one after another. V: each record after five decimal digits of its length. U and T: the octets.
    ///
    /// # Errors
    ///
    /// - [`LocalFault::NotLocal`] exactly where the content isn't the local form of a file of this format.
    /// - [`LocalFault::Memory`]: out of memory.
    pub fn from_local(
        alloc: Global,
        format: Format,
        longest: u32,
        content: &[u8],
    ) -> Result<VFile, LocalFault>
        requires { IsLongest format longest }
        ensures file { IfOk result (λ f.
            (f ≡ record { format = format; longest = longest; rows = f.rows })
            × IsLocal format longest content.now f.rows) }

        // Each local form is read as the file that it represents.
        ensures read { (rows : List (List ℕ)) → IsLocal format longest content.now rows
            → IfOk result (λ f. f.rows ≡ rows) × IfErr result (λ e. e ≡ LocalFault.Memory) }
        ensures not_local { ((rows : List (List ℕ)) → IsLocal format longest content.now rows → ⊥)
            → result ≡ Err LocalFault.NotLocal }
    {
        let size = longest as usize;
        if !is_local(format, size, content) {
            return Err(LocalFault::NotLocal);
        }
        let rows = match format {
            Format::Fixed => read_blocks(alloc, size, content)?,
            Format::Variable => read_records(alloc, size, content)?,
            Format::Unstructured | Format::Text => read_blocks(alloc, BLOCK, content)?,
        };
        Ok(VFile {
            format,
            longest,
            rows: Rows::new(rows),
        })
    }

    /// Writes a file in its local form, which `from_local` reads back as this file. The fields have to make a virtual file: a longest
    /// record that the format allows, and rows that fit it.
    ///
    /// # Errors
    ///
    /// [`LocalFault::Memory`]: out of memory.
    pub fn to_local(&self, alloc: Global) -> Result<Vec<u8>, LocalFault>
        requires longest { IsLongest self.now.format self.now.longest }
        requires rows { AreRows self.now.format self.now.longest self.now.rows }
        ensures content { IfOk result (λ v. v.items ≡ local_of self.now.format self.now.rows) }
        ensures memory { IfErr result (λ e. e ≡ LocalFault.Memory) }
    {
        let mut content = Vec::new(alloc);
        for row in self.rows.as_slice() {
            if self.format == Format::Variable {
                content.extend_from_slice(&digits(row.len()))?;
            }
            content.extend_from_slice(row.octets())?;
        }
        Ok(content)
    }
}

// Whether the content is the local form of a file. It allocates nothing.
fn is_local(format: Format, longest: usize, content: &[u8]) -> bool
    requires { IsLongest format longest }
    ensures yes { IsTrue result → (rows : List (List ℕ)) × IsLocal format longest content.now rows }
    ensures no { (rows : List (List ℕ)) → IsLocal format longest content.now rows → IsTrue result }
{
    match format {
        Format::Fixed => content.len() % longest == 0,
        Format::Variable => are_records(longest, content),
        Format::Unstructured | Format::Text => true,
    }
}

// Whether the content is records of V, one after another.
fn are_records(longest: usize, content: &[u8]) -> bool
    requires { longest < 100000 }
    ensures yes { IsTrue result
        → (rows : List (List ℕ)) × IsLocal Format.Variable longest content.now rows }
    ensures no { (rows : List (List ℕ))
        → IsLocal Format.Variable longest content.now rows → IsTrue result }
{
    let mut rest = content;
    while !rest.is_empty() {
        let Some((_, behind)) = first_record(longest, rest) else {
            return false;
        };
        rest = behind;
    }
    true
}

// Reads the records of V in the content.
fn read_records(alloc: Global, longest: usize, content: &[u8]) -> Result<Vec<Row>, LocalFault>
    requires { longest < 100000 }
    ensures ok { IfOk result (λ v. IsLocal Format.Variable longest content.now v.items) }
    ensures err { IfErr result (λ e. e ≡ LocalFault.NotLocal
        → (rows : List (List ℕ)) → IsLocal Format.Variable longest content.now rows → ⊥) }
{
    let mut rows = Vec::new(alloc);
    let mut rest = content;
    while !rest.is_empty() {
        let Some((record, behind)) = first_record(longest, rest) else {
            return Err(LocalFault::NotLocal);
        };
        rows.push(Row::new(Vec::from_slice(alloc, record)?))?;
        rest = behind;
    }
    Ok(rows)
}

// The content in blocks of `size` octets, the last of which may be shorter.
fn read_blocks(alloc: Global, size: usize, content: &[u8]) -> Result<Vec<Row>, AllocError>
    requires { 0 < size }
    ensures { IfOk result (λ v. AreBlocks size v.items × (octets_in v.items ≡ content.now)) }
{
    let mut rows = Vec::new(alloc);
    let mut rest = content;
    while !rest.is_empty() {
        let (row, behind) = rest.split_at(size.min(rest.len()));
        rows.push(Row::new(Vec::from_slice(alloc, row)?))?;
        rest = behind;
    }
    Ok(rows)
}

// The first record of V in the content, and the octets after it.
fn first_record(longest: usize, content: &[u8]) -> Option<(&[u8], &[u8])>
    requires { longest < 100000 }
    ensures found { IfSome result (λ p. IsFirstRecord longest content.now p.0.now p.1.now) }
    ensures none { IfNone result
        ((row rest : List ℕ) → IsFirstRecord longest content.now row rest → ⊥) }
{
    if content.len() < DIGITS {
        return None;
    }
    let (digits, behind) = content.split_at(DIGITS);
    let length = number(digits)?;
    if length > longest || length > behind.len() {
        return None;
    }
    Some(behind.split_at(length))
}

// The number that five decimal digits stand for, if they are digits.
fn number(digits: &[u8]) -> Option<usize>
    requires { length digits.now ≡ 5 }
    ensures found { IfSome result (λ n. (n < 100000) × (digits_of n ≡ digits.now)) }
    ensures none { IfNone result ((n : ℕ) → digits_of n ≡ digits.now → ⊥) }
{
    let mut number = 0;
    for digit in digits {
        if !digit.is_ascii_digit() {
            return None;
        }
        number = number * 10 + usize::from(digit - b'0');
    }
    Some(number)
}

// The decimal digit of a number at this power of ten.
fn digit(number: usize, place: usize) -> u8
    requires { 0 < place }
    ensures { result ≡ digit_of number place }
{
    b'0' + (number / place % 10) as u8
}

// The five decimal digits of a number below 100,000.
fn digits(number: usize) -> [u8; DIGITS]
    requires { number < 100000 }
    ensures { result ≡ digits_of number }
{
    [
        digit(number, 10_000),
        digit(number, 1_000),
        digit(number, 100),
        digit(number, 10),
        digit(number, 1),
    ]
}
