//! The digest of a register.

ghost use Rattle.std.specs.Prelude.{◌≡◌, OnOk, slice_get};
ghost use Rattle.oftp_listing.specs.Texts.{Asks};
ghost use Rattle.oftp_recording.specs.Digests.{content_of, kept_of, known_of};

use oftp_digest::{LANES, add_digests};
use oftp_engine::{Port, RunFault};
use oftp_listing::{ReportKind, report};
use oftp_outcomes::Fault;
use oftp_register::{Identity, IncomingState, Note, Office, Side};
use oftp_vfile::Row;
use sha2::{Digest as Hashing, Sha256};
use std::alloc::Global;
use std::cell::RefCell;
use std::mem;

/// A SHA-256.
pub type Digest = [u8; 32];

/// How many rows are looked up at once.
const ROWS: u64 = 64;

/// The error of an office that failed.
const FAILED: Fault = Fault::Run(RunFault::Office);

/// The reports, in the order in which they are digested.
const REPORTS: [ReportKind; 4] = [
    ReportKind::Incoming,
    ReportKind::Outgoing,
    ReportKind::Issued,
    ReportKind::Received,
];

/// Whether the rows of a file stay as they are.
#[derive(Clone, Copy, Debug, PartialEq, Eq, Drop)]
enum Content {
    /// They do, whatever changes the register accepts.
    Stays,
    /// More may come, or take the place of some.
    MayChange,
}

impl Content {
    /// That of an incoming file in a state. An outgoing file has all rows from its beginning, and they stay.
    fn of(state: IncomingState) -> Content
        ensures { result ≡ content_of state }
    {
        match state {
            IncomingState::Open => Content::MayChange,
            IncomingState::Whole => Content::Stays,
        }
    }

    /// What is kept of the digest of the rows.
    fn kept(self, digest: Digest) -> Option<Digest>
        ensures { result ≡ kept_of self digest }
    {
        match self {
            Content::Stays => Some(digest),
            Content::MayChange => None,
        }
    }
}

/// A file whose rows are digested.
#[derive(Clone, Copy)]
struct Filed {
    side: Side,
    no: u64,
    rows: u64,
}

/// The digests of the rows that stay as they are, each at the place of its file.
#[derive(Drop)]
struct Kept {
    incoming: Vec<Option<Digest>>,
    outgoing: Vec<Option<Digest>>,
}

impl Kept {
    /// None.
    fn new(alloc: Global) -> Kept {
        Kept {
            incoming: Vec::new(alloc),
            outgoing: Vec::new(alloc),
        }
    }
}

/// The digests of the registers of an office, one after another. The rows of a file that is whole are read once.
#[derive(Drop)]
pub struct RegisterDigests {
    alloc: Global,
    kept: RefCell<Kept>,
}

impl RegisterDigests {
    /// Those of an office whose register wasn't digested yet.
    pub fn new(alloc: Global) -> RegisterDigests {
        RegisterDigests {
            alloc,
            kept: RefCell::new(Kept::new(alloc)),
        }
    }

    /// Forgets what was read, since the next register may be that of another office.
    pub fn forget(&self) {
        let _ = self.kept.try_replace(Kept::new(self.alloc));
    }

    /// The digest of the register of an office: the SHA-256 of its four reports, and then of what they don't tell of the received responses and of each
    /// file, with a digest of its rows. Each text follows its length. The digest of the rows is the SHA-256 of the SHA-256 of each. The office is only
    /// asked. It has to be that of the digests before, unless these were forgotten.
    ///
    /// # Errors
    /// [`Fault::Run`] if the office failed; [`Fault::MEMORY`]. All rows are read again then.
    pub fn digest<O: Office>(&self, office: &mut O) -> Result<Digest, Fault>
        ensures asks { Asks (O.view office.old) (O.view office.new) }
        ensures untold { OnOk result ((O.view office.new).told ≡ (O.view office.old).told) }
    {
        let mut kept = match self.kept.try_replace(Kept::new(self.alloc)) {
            Ok(kept) => kept,
            Err(_) => Kept::new(self.alloc),
        };
        let digest = register_digest(self.alloc, &mut kept, office)?;
        let _ = self.kept.try_replace(kept);
        Ok(digest)
    }
}

/// The digest of a register, once rows of which these digests are kept were read. Afterwards those that are kept are there.
fn register_digest<O: Office>(
    alloc: Global,
    kept: &mut Kept,
    office: &mut O,
) -> Result<Digest, Fault>
    ensures asks { Asks (O.view office.old) (O.view office.new) }
    ensures untold { OnOk result ((O.view office.new).told ≡ (O.view office.old).told) }
{
    let mut hasher = Sha256::new();
    for kind in REPORTS {
        add_report(alloc, &mut hasher, office, kind)?;
    }
    add_received(&mut hasher, office)?;
    add_incoming(alloc, &mut hasher, office, &mut kept.incoming)?;
    add_outgoing(alloc, &mut hasher, office, &mut kept.outgoing)?;
    Ok(hasher.finalize())
}

/// Adds a report.
fn add_report<O: Office>(
    alloc: Global,
    hasher: &mut Sha256,
    office: &mut O,
    kind: ReportKind,
) -> Result<(), Fault>
    ensures asks { Asks (O.view office.old) (O.view office.new) }
    ensures untold { OnOk result ((O.view office.new).told ≡ (O.view office.old).told) }
{
    let mut text = Port::new(Vec::new(alloc), 0);
    report(alloc, kind, office, &mut text)?;
    add_text(hasher, text.into_inner().as_slice());
    Ok(())
}

/// Adds the length of a text, and then the text: so no other texts add the same.
fn add_text(hasher: &mut Sha256, text: &[u8]) {
    hasher.update((text.len() as u64).to_be_bytes().as_slice());
    hasher.update(text);
}

/// Adds the two codes of an identity, of which a report tells one.
fn add_codes(hasher: &mut Sha256, identity: &Identity) {
    add_text(hasher, identity.originator.octets());
    add_text(hasher, identity.destination.octets());
}

/// Adds what a report doesn't tell of a file's header.
fn add_header(hasher: &mut Sha256, identity: &Identity, longest: u32, description: &Note) {
    add_codes(hasher, identity);
    hasher.update(longest.to_be_bytes().as_slice());
    add_text(hasher, description.as_str().as_bytes());
}

/// Adds what a report doesn't tell of the received responses.
fn add_received<O: Office>(hasher: &mut Sha256, office: &mut O) -> Result<(), Fault>
    ensures asks { Asks (O.view office.old) (O.view office.new) }
    ensures untold { OnOk result ((O.view office.new).told ≡ (O.view office.old).told) }
{
    let Ok(entries) = office.list_received() else {
        return Err(FAILED);
    };
    for entry in entries.iter() {
        add_codes(hasher, &entry.response.identity);
        add_text(hasher, entry.response.text.as_str().as_bytes());
    }
    Ok(())
}

/// Adds what a report doesn't tell of the incoming files.
fn add_incoming<O: Office>(
    alloc: Global,
    hasher: &mut Sha256,
    office: &mut O,
    kept: &mut Vec<Option<Digest>>,
) -> Result<(), Fault>
    ensures asks { Asks (O.view office.old) (O.view office.new) }
    ensures untold { OnOk result ((O.view office.new).told ≡ (O.view office.old).told) }
{
    let Ok(entries) = office.list_in() else {
        return Err(FAILED);
    };
    let before = mem::replace(kept, Vec::new(alloc));
    for (place, entry) in entries.iter().enumerate() {
        add_header(hasher, &entry.identity, entry.longest, &entry.description);
        if let Some(response) = &entry.response {
            add_text(hasher, response.text.as_str().as_bytes());
        }
        let file = Filed {
            side: Side::Incoming,
            no: entry.no,
            rows: entry.rows,
        };
        let digest = digest_of(alloc, office, file, known_at(&before, place))?;
        hasher.update(digest.as_slice());
        kept.push(Content::of(entry.state).kept(digest))?;
    }
    Ok(())
}

/// Adds what a report doesn't tell of the outgoing files.
fn add_outgoing<O: Office>(
    alloc: Global,
    hasher: &mut Sha256,
    office: &mut O,
    kept: &mut Vec<Option<Digest>>,
) -> Result<(), Fault>
    ensures asks { Asks (O.view office.old) (O.view office.new) }
    ensures untold { OnOk result ((O.view office.new).told ≡ (O.view office.old).told) }
{
    let Ok(entries) = office.list_out() else {
        return Err(FAILED);
    };
    let before = mem::replace(kept, Vec::new(alloc));
    for (place, entry) in entries.iter().enumerate() {
        add_header(hasher, &entry.identity, entry.longest, &entry.description);
        let file = Filed {
            side: Side::Outgoing,
            no: entry.no,
            rows: entry.rows,
        };
        let digest = digest_of(alloc, office, file, known_at(&before, place))?;
        hasher.update(digest.as_slice());
        kept.push(Content::Stays.kept(digest))?;
    }
    Ok(())
}

/// What is known of the rows of the file at a place.
fn known_at(kept: &Vec<Option<Digest>>, place: usize) -> Option<Digest>
    ensures { result ≡ known_of (slice_get kept.now.items place) }
{
    match kept.get(place) {
        Some(known) => *known,
        None => None,
    }
}

/// The digest of the rows of a file, which are read unless it is known.
fn digest_of<O: Office>(
    alloc: Global,
    office: &mut O,
    file: Filed,
    known: Option<Digest>,
) -> Result<Digest, Fault>
    ensures asks { Asks (O.view office.old) (O.view office.new) }
    ensures untold { OnOk result ((O.view office.new).told ≡ (O.view office.old).told) }
{
    match known {
        Some(digest) => Ok(digest),
        None => digest_of_rows(alloc, office, file),
    }
}

/// The SHA-256 of the digests of the rows of a file.
fn digest_of_rows<O: Office>(alloc: Global, office: &mut O, file: Filed) -> Result<Digest, Fault>
    ensures asks { Asks (O.view office.old) (O.view office.new) }
    ensures untold { OnOk result ((O.view office.new).told ≡ (O.view office.old).told) }
{
    let mut hasher = Sha256::new();
    let mut from = 0;
    let mut room = Vec::new(alloc);
    for _ in 0..file.rows {
        if from >= file.rows {
            break;
        }
        let Ok(rows) = office.rows_of(file.side, file.no, from, ROWS) else {
            return Err(FAILED);
        };
        if rows.is_empty() {
            return Err(FAILED);
        }
        add_digests_of(&mut hasher, &mut room, rows.as_slice());
        from = from.saturating_add(rows.len() as u64);
    }
    Ok(hasher.finalize())
}

/// Adds the digest of each of these rows.
fn add_digests_of(hasher: &mut Sha256, room: &mut Vec<u8>, rows: &[Row]) {
    for group in rows.chunks(LANES) {
        add_group(hasher, room, group);
    }
}

/// Adds the digest of each row of a group. Those of eight are added at once.
fn add_group(hasher: &mut Sha256, room: &mut Vec<u8>, rows: &[Row]) {
    if let [a, b, c, d, e, f, g, h] = rows {
        let eight = [
            a.octets(),
            b.octets(),
            c.octets(),
            d.octets(),
            e.octets(),
            f.octets(),
            g.octets(),
            h.octets(),
        ];
        add_digests(hasher, room, &eight);
    } else {
        for row in rows {
            add_digests(hasher, room, &[row.octets()]);
        }
    }
}
