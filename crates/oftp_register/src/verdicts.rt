//! Whether a listener accepts a file.

ghost use Rattle.std.specs.Prelude.{◌≡◌, ◌<◌, ◌^◌, false};
ghost use Rattle.std.specs.Option.{option_copied};
ghost use Rattle.oftp_register.specs.Verdicts.{end_verdict, format_of, has_length, is_plain, is_received, longest_of, offered_identity, restart_position, start_verdict};

use crate::entries::IncomingEntry;
use crate::entry::{Identity, IncomingState};
use crate::name::{DigitString, Name};
use oftp_vfile::{Format, LONGEST_RECORD, Limits};
use oftp_wire::{Count, Efid, EndReason, Layout, Sfid, StartReason};

/// The unit of SFIDOSIZ in octets (RFC 5024, section 5.3.3).
pub const SIZE_UNIT: u64 = 1024;

/// The conditions of a session that decide whether a file is accepted.
#[derive(Drop)]
pub struct Terms {
    /// This station's Identification Code.
    pub station: Name<25>,
    /// The partner's Identification Code.
    pub partner: Name<25>,
    /// Whether the agreed direction lets the station receive files.
    pub receives: bool,
    /// Whether restart was agreed.
    pub restart: bool,
    /// The limits of the office.
    pub limits: Limits,
}

/// Whether an offered file is accepted (RFC 5024, sections 5.3.4 and 5.3.5).
#[derive(Clone, Copy, Debug, Drop, PartialEq, Eq)]
pub enum StartVerdict {
    /// It is accepted, with this Restart position for SFPA.
    Accept(Count<17>),
    /// It is refused.
    Refuse {
        /// The reason of SFNA.
        reason: StartReason,
        /// Whether it may be offered again.
        retry: bool,
    },
}

/// Whether the EFID of a file has its counts (RFC 5024, sections 5.3.9 and 5.3.10).
#[derive(Clone, Copy, Debug, Drop, PartialEq, Eq)]
pub enum EndVerdict {
    /// It has, and the file is complete.
    Accept,
    /// It hasn't. The reason is that of EFNA.
    Refuse(EndReason),
}

/// The identity of an offered file.
pub fn identity_of(sfid: &Sfid<'_>) -> Identity
    ensures { result ≡ offered_identity sfid.now }
{
    Identity {
        dataset: Name::of(&sfid.dataset),
        date: DigitString::of(&sfid.date),
        time: DigitString::of(&sfid.time),
        originator: Name::of(&sfid.originator),
        destination: Name::of(&sfid.destination),
    }
}

/// Its format.
pub fn format_of(layout: Layout) -> Format
    ensures { result ≡ format_of layout }
{
    match layout {
        Layout::Fixed(_) => Format::Fixed,
        Layout::Variable(_) => Format::Variable,
        Layout::Unstructured => Format::Unstructured,
        Layout::Text => Format::Text,
    }
}

/// The longest record of an offered file in octets, 0 in U and T.
pub fn longest_of(layout: Layout) -> u32
    ensures value { result ≡ longest_of layout }
    ensures within { result < 10 ^ 5 }
{
    match layout {
        Layout::Fixed(longest) | Layout::Variable(longest) => longest.get() as u32,
        Layout::Unstructured | Layout::Text => 0,
    }
}

// Whether the longest record is 1 to 16,384 octets in F and V.
fn has_length(layout: Layout) -> bool
    ensures { result ≡ has_length layout }
{
    match layout {
        Layout::Fixed(longest) | Layout::Variable(longest) => {
            let longest = longest.get();
            0 < longest && longest <= u64::from(LONGEST_RECORD)
        }
        Layout::Unstructured | Layout::Text => true,
    }
}

// Whether the file isn't encrypted, compressed or enveloped, and no signed response is requested.
fn is_plain(sfid: &Sfid<'_>) -> bool
    ensures { result ≡ is_plain sfid.now }
{
    sfid.security.get() == 0
        && sfid.cipher.get() == 0
        && sfid.compression.get() == 0
        && sfid.enveloping.get() == 0
        && !sfid.signed_response
}

// The row from which a file goes on.
fn restart_position(sfid: &Sfid<'_>, found: Option<&IncomingEntry>, restart: bool) -> Count<17>
    ensures { result ≡ restart_position sfid.now (option_copied found.entry) restart }
{
    match found {
        Some(entry)
            if restart
                && entry.format == format_of(sfid.layout)
                && entry.longest == longest_of(sfid.layout) => {
            Count::new(sfid.restart.get().min(entry.rows))
        }
        _ => Count::new(0),
    }
}

// Whether the file was received before.
fn is_received(found: Option<&IncomingEntry>) -> bool
    ensures { result ≡ is_received (option_copied found.entry) }
{
    match found {
        Some(entry) => entry.state == IncomingState::Whole,
        None => false,
    }
}

fn refused(reason: StartReason) -> StartVerdict
    ensures { result ≡ StartVerdict.Refuse reason false }
{
    StartVerdict::Refuse {
        reason,
        retry: false,
    }
}

/// Whether an offered file is accepted, and from which row on (RFC 5024, sections 5.3.3 to 5.3.5). `found` is the incoming file with its
/// identity, and `is_full` says whether the table of incoming files is full. It allocates nothing.
pub fn start_verdict(
    sfid: &Sfid<'_>,
    found: Option<&IncomingEntry>,
    is_full: bool,
    terms: &Terms,
) -> StartVerdict
    ensures { result ≡ start_verdict sfid.now (option_copied found.entry) is_full terms.now }
{
    if !terms.receives {
        return refused(StartReason::FileDirectionRefused);
    }
    if !is_plain(sfid) {
        return refused(StartReason::Unspecified);
    }
    if sfid.dataset.octets().is_empty() {
        return refused(StartReason::InvalidFilename);
    }
    if sfid.destination.octets() != terms.station.octets() {
        return refused(StartReason::InvalidDestination);
    }
    if sfid.originator.octets() != terms.partner.octets() {
        return refused(StartReason::InvalidOrigin);
    }
    if !has_length(sfid.layout) {
        return refused(StartReason::MaximumRecordLengthNotSupported);
    }
    if sfid.size.get() > terms.limits.octets / SIZE_UNIT {
        return refused(StartReason::FileSizeTooBig);
    }
    if is_received(found) {
        return refused(StartReason::DuplicateFile);
    }
    if found.is_none() && is_full {
        return StartVerdict::Refuse {
            reason: StartReason::Unspecified,
            retry: true,
        };
    }
    StartVerdict::Accept(restart_position(sfid, found, terms.restart))
}

/// Whether EFID has the counts of the whole file, with the rows of earlier sessions (RFC 5024, sections 5.3.8 to 5.3.10). These are
/// `records`, which is 0 in U and T, and `units` in octets. It allocates nothing.
pub fn end_verdict(efid: &Efid, records: u64, units: u64) -> EndVerdict
    ensures { result ≡ end_verdict efid.now records units }
{
    if efid.records.get() != records {
        return EndVerdict::Refuse(EndReason::InvalidRecordCount);
    }
    if efid.units.get() != units {
        return EndVerdict::Refuse(EndReason::InvalidByteCount);
    }
    EndVerdict::Accept
}
