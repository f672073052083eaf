//! The partner book.

ghost use Rattle.std.specs.Prelude.{◌≡◌, length, option_map, IfOk, IfSome};
ghost use Rattle.toml.specs.View.{table_view};
ghost use Rattle.oftp_partners.specs.Keys.{Answers};
ghost use Rattle.oftp_partners.specs.Book.{book_in, book_of, partner_at, IsBook};

use crate::directory::Directory;
use crate::fault::BookFault;
use crate::key::table_at;
use crate::partner::{Partner, Station};
use crate::reading::{are_few, partner_items, partners_of, station_of};
use std::alloc::Global;
use std::marker::Model;
use toml::Table;

/// The station and its partners, at most 1,000, each with a different Identification Code.
#[derive(Drop)]
pub struct Book {
    station: Station,
    directory: Directory,
}

impl Model for Book {
    ghost use Rattle.oftp_partners.specs.Book.{BookData, IsBook};

    ghost Value = { BookData };

    ghost view = { λ b. record { station = b.station; partners = b.directory } };

    ghost invariant = { λ b. IsBook (record { station = b.station; partners = b.directory }) };
}

#[tactic(auto, using(crate::proofs::PartnersLemmas::is_book), unfolding(crate::specs::Book::book_in))]
fn book_in(alloc: Global, table: &Table) -> Result<Book, BookFault>
    ensures value { Answers result (book_in (table_view table.now)) }
    ensures book { IfOk result IsBook }
{
    let station = station_of(alloc, table_at(table, "station")?)?;
    let values = partner_items(table)?;
    if !are_few(values) {
        return Err(BookFault::TooMany);
    }
    let directory = partners_of(alloc, &station, values)?;
    Ok(Book { station, directory })
}

/// Reads the book in a TOML text. Each partner takes a logarithmic number of comparisons of codes; no clause says this.
///
/// # Errors
///
/// The first fault, in this order:
///
/// - [`BookFault::NotToml`]: the text isn't TOML.
/// - [`BookFault::MissingKey`], [`BookFault::WrongKind`], [`BookFault::BadCode`] or [`BookFault::BadNumber`], of `station` or of one of its
///   keys.
/// - [`BookFault::WrongKind`]: the partners aren't an array. Or [`BookFault::TooMany`]: they are more than 1,000.
/// - The first fault of a partner or of one of its keys: [`BookFault::MissingKey`], [`BookFault::WrongKind`] or [`BookFault::BadCode`], or,
///   once its code is read, [`BookFault::DuplicateCode`].
///
/// [`BookFault::Memory`] may come at any point.
#[tactic(auto, unfolding(crate::specs::Book::book_of))]
pub fn read(alloc: Global, text: &str) -> Result<Book, BookFault>
    ensures value { Answers result (book_of text.now) }
    ensures book { IfOk result IsBook }
{
    match toml::table_from_str(alloc, text) {
        Ok(table) => book_in(alloc, &table),
        Err(e) if e.is_memory() => Err(BookFault::Memory),
        Err(_) => Err(BookFault::NotToml),
    }
}

impl Book {
    /// The station itself. It allocates nothing.
    pub fn station(&self) -> &Station
        ensures value { result.now ≡ self.now.station }
        ensures book { IsBook self.now }
    {
        &self.station
    }

    /// How many partners there are, 0 to 1,000. It allocates nothing.
    pub fn count(&self) -> usize
        ensures value { result ≡ length self.now.partners }
        ensures book { IsBook self.now }
    {
        self.directory.len()
    }

    /// The partner with a code, or `None` where no partner has it. It allocates nothing. It takes a logarithmic number of comparisons; no
    /// clause says this.
    pub fn partner(&self, code: &[u8]) -> Option<&Partner>
        ensures value { option_map (λ p. p.now) result ≡ partner_at code.now self.now.partners }
        ensures book { IsBook self.now }
    {
        self.directory.find(code)
    }
}
