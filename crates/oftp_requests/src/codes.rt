//! The partners that the clock may call.

use oftp_outcomes::Fault;
use std::alloc::Global;

/// How long something of a partner may wait until it is overdue, as its book says.
#[derive(Drop)]
pub struct PartnerLimit {
    /// The partner's code.
    pub code: String,
    /// The time in seconds.
    pub seconds: u64,
}

/// The seconds of an hour.
const HOUR: u64 = 3_600;

/// The greatest number of hours that a partner has for itself: ten years.
const MOST_HOURS: u64 = 87_600;

/// The codes of the partners of a book, in the order of its text. A text without partners, or one that isn't UTF-8, has none. A partner
/// without a code is left out.
///
/// # Errors
/// [`Fault::MEMORY`], also if the text isn't TOML.
pub fn codes_of(alloc: Global, octets: &[u8]) -> Result<Vec<String>, Fault> {
    let mut codes = Vec::new(alloc);
    let Some(table) = table_of(alloc, octets)? else {
        return Ok(codes);
    };
    for partner in partners_in(&table) {
        if let Some(code) = code_in(partner) {
            let code = String::from_str(alloc, code)?;
            codes.push(code)?;
        }
    }
    Ok(codes)
}

/// The limits of those partners of a book that have their own: the key `overdue`, hours with an `h` behind them.
///
/// # Errors
/// Those of [`codes_of`].
pub fn overdues_of(alloc: Global, octets: &[u8]) -> Result<Vec<PartnerLimit>, Fault> {
    let mut limits = Vec::new(alloc);
    let Some(table) = table_of(alloc, octets)? else {
        return Ok(limits);
    };
    for partner in partners_in(&table) {
        if let (Some(code), Some(seconds)) = (code_in(partner), limit_in(partner)) {
            let code = String::from_str(alloc, code)?;
            limits.push(PartnerLimit { code, seconds })?;
        }
    }
    Ok(limits)
}

/// The table of a book. `None` if the text isn't UTF-8.
fn table_of(alloc: Global, octets: &[u8]) -> Result<Option<toml::Table>, Fault> {
    let Ok(text) = str::from_utf8(octets) else {
        return Ok(None);
    };
    match toml::table_from_str(alloc, text) {
        Ok(table) => Ok(Some(table)),
        Err(_) => Err(Fault::MEMORY),
    }
}

/// The partners of a book.
fn partners_in(table: &toml::Table) -> &[toml::Value] {
    match table.get("partner") {
        Some(partners) => match partners.as_array() {
            Some(partners) => partners.as_slice(),
            None => &[],
        },
        None => &[],
    }
}

/// The code in the table of a partner.
fn code_in(partner: &toml::Value) -> Option<&str> {
    partner.as_table()?.get("code")?.as_str()
}

/// The limit in the table of a partner, in seconds.
fn limit_in(partner: &toml::Value) -> Option<u64> {
    let text = partner.as_table()?.get("overdue")?.as_str()?;
    let (digits, rest) = text.split_once('h')?;
    let hours = digits.parse::<u64>().ok()?;
    if rest.is_empty() && hours <= MOST_HOURS {
        Some(hours * HOUR)
    } else {
        None
    }
}
