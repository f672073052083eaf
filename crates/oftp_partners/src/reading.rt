//! Reading the station and the partners, key by key.

ghost use Rattle.std.specs.Prelude.{◌≡◌, ℕ, Ok, Err, MatchResult, length, [], nat_le, ◌≤◌, true, false, IfOk};
ghost use Rattle.toml.specs.View.{view, table_view, items_view};
ghost use Rattle.oftp_partners.specs.Keys.{Answers};
ghost use Rattle.oftp_partners.specs.Book.{station_of, is_taken, partner_in, partner_of, partners_of, partner_items, count_of, IsStation, IsPartner, ArePartners};

use crate::directory::Directory;
use crate::fault::BookFault;
use crate::field::Code;
use crate::key::{address_at, buffer_at, code_at, credit_at, flag_at, found, mode_at, password_at};
use crate::partner::{Partner, Station};
use std::alloc::Global;
use toml::{Table, Value};

/// The most partners of a book.
const MOST_PARTNERS: usize = 1000;

/// The station of the table `station`.
#[tactic(auto, unfolding(crate::specs::Book::station_of))]
pub(crate) fn station_of(alloc: Global, table: &Table) -> Result<Station, BookFault>
    ensures value { Answers result (station_of (table_view table.now)) }
    ensures station { IfOk result IsStation }
{
    let code = code_at(alloc, table, "code")?;
    let buffer = buffer_at(table, "buffer")?;
    let credit = credit_at(table, "credit")?;
    let restart = flag_at(table, "restart")?;
    Ok(Station {
        code,
        buffer,
        credit,
        restart,
    })
}

/// Whether the station or a partner in the directory has this code.
#[tactic(auto, unfolding(crate::specs::Book::is_taken))]
fn is_taken(station: &Station, directory: &Directory, code: &Code) -> bool
    ensures { result ≡ is_taken station.now directory.now code.now }
{
    station.code.as_str() == code.as_str() || directory.find(code.as_str().as_bytes()).is_some()
}

#[tactic(auto, unfolding(crate::specs::Book::partner_in))]
fn partner_in(
    alloc: Global,
    station: &Station,
    before: &Directory,
    table: &Table,
) -> Result<Partner, BookFault>
    ensures value { Answers result (partner_in station.now before.now (table_view table.now)) }
    ensures new { IfOk result (λ p. is_taken station.now before.now p.code ≡ false) }
    ensures partner { IfOk result IsPartner }
{
    let code = code_at(alloc, table, "code")?;
    if is_taken(station, before, &code) {
        return Err(BookFault::DuplicateCode);
    }
    let expects = password_at(alloc, table, "expects")?;
    let sends = password_at(alloc, table, "sends")?;
    let mode = mode_at(table, "mode")?;
    let address = address_at(alloc, table, "address")?;
    Ok(Partner {
        code,
        expects,
        sends,
        mode,
        address,
    })
}

#[tactic(auto, unfolding(crate::specs::Book::partner_of))]
fn partner_of(
    alloc: Global,
    station: &Station,
    before: &Directory,
    value: &Value,
) -> Result<Partner, BookFault>
    ensures value { Answers result (partner_of station.now before.now (view value.now)) }
    ensures new { IfOk result (λ p. is_taken station.now before.now p.code ≡ false) }
    ensures partner { IfOk result IsPartner }
{
    match value.as_table() {
        Some(table) => partner_in(alloc, station, before, table),
        None => Err(BookFault::WrongKind),
    }
}

/// The elements of the array `partner`, or none where it is missing.
#[tactic(auto, unfolding(crate::specs::Book::partner_items))]
pub(crate) fn partner_items(table: &Table) -> Result<&[Value], BookFault>
    ensures { MatchResult result
        (λ vs. partner_items (table_view table.now) ≡ Ok (items_view vs.now))
        (λ e. partner_items (table_view table.now) ≡ Err e) }
{
    match found(table, "partner") {
        Some(value) => match value.as_array() {
            Some(values) => Ok(values.as_slice()),
            None => Err(BookFault::WrongKind),
        },
        None => Ok(&[]),
    }
}

/// Whether a book may have this many partners.
#[tactic(auto, using(crate::proofs::Items::count_of_view))]
pub(crate) fn are_few(values: &[Value]) -> bool
    ensures value { result ≡ nat_le (count_of (items_view values.now)) 1000 }
    ensures few { result ≡ true → length values.now ≤ 1000 }
{
    values.len() <= MOST_PARTNERS
}

/// The partners of the elements, in order.
#[tactic(auto, using(crate::proofs::Items::partners_of_step, crate::proofs::PartnersLemmas::are_partners_push, crate::proofs::PartnersLemmas::are_partners_none))]
pub(crate) fn partners_of(
    alloc: Global,
    station: &Station,
    values: &[Value],
) -> Result<Directory, BookFault>
    ensures value { Answers result (partners_of station.now [] (items_view values.now)) }
    ensures partners { IfOk result (ArePartners station.now) }
    ensures count { IfOk result (λ ps. length ps ≡ length values.now) }
{
    let mut directory = Directory::new(alloc);
    for value in values {
        let partner = partner_of(alloc, station, &directory, value)?;
        directory.add(alloc, partner)?;
    }
    Ok(directory)
}
