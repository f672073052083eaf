//! Submitting a file, which registers it to be sent to a partner.

ghost use Rattle.std.specs.Prelude.{◌≡◌, ◌≤◌, ◌↔◌, true, length, codes, if◌then◌else◌, IsTrue, IfOk, IfErr, IfSome, IfNone};
ghost use Rattle.oftp_vfile.specs.LocalForm.{IsLocal};
ghost use Rattle.oftp_vfile.specs.VirtualFile.{IsLongest, units_in};
ghost use Rattle.oftp_register.specs.Changes.{is_outgoing};
ghost use Rattle.oftp_engine.specs.declared.operating.Operator.TheVariants.{Submit};
ghost use Rattle.oftp_engine.specs.Serving.{FailsOnlyBy, WasClean};
ghost use Rattle.oftp_engine.specs.Operating.{AreInRange, IsNoFile, Submits, is_too_big, refuses};
ghost use Rattle.oftp_engine.specs.InsideOperating.{MayFail, Tries, TriesDeed};
ghost use Rattle.oftp_engine.specs.InsideSubmitting.{AreFieldsOf, IsNotLocal, IsOffer, RegistersFile, big_file_result, new_file_result, named_by};

use crate::operating::{Refusal, Told, call_result};
use crate::serving::RunFault;
use oftp_partners::{Book, Partner};
use oftp_register::{Change, DigitString, Identity, Name, Office, OfficeFault, OutgoingEntry};
use oftp_vfile::{Format, Limits, LocalFault, MOST_ROWS, Rows, VFile};
use oftp_wire::{Digits, Text, X};
use std::alloc::Global;

/// The number of digits of a record's length in the local form of format V.
const LENGTH_DIGITS: u64 = 5;

/// A file that is to be sent to a partner.
#[derive(Clone, Copy, Drop)]
pub struct Submission<'a> {
    /// The virtual file's dataset name, 1 to 26 allowed characters (RFC 5024, section 5.3.3).
    pub dataset: &'a str,
    /// Its date stamp, CCYYMMDD.
    pub date: &'a str,
    /// Its time stamp, HHMMSScccc.
    pub time: &'a str,
    /// The Identification Code of the partner that gets the file.
    pub to: &'a str,
    /// The format of its records.
    pub format: Format,
    /// The longest record in octets: 1 to 16,384 in formats F and V, 0 in U and T.
    pub longest: u32,
    /// The description, UTF-8 of at most 999 octets.
    pub description: &'a str,
    /// The content in its local form.
    pub content: &'a [u8],
}

// The fields of a submission, each in its range.
#[derive(Drop)]
struct Fields<'a> {
    dataset: X<'a, 26>,
    date: Digits<'a, 8>,
    time: Digits<'a, 10>,
    description: Text<'a>,
}

// A submission that is a valid file: its fields, and the rows of its content.
#[derive(Drop)]
struct Offer<'a> {
    fields: Fields<'a>,
    rows: Rows,
}

// The fields of a submission, or `None` where one is out of its range.
fn fields_of<'a>(submission: &Submission<'a>) -> Option<Fields<'a>>
    ensures some { IfSome result (AreFieldsOf submission.now) }
    ensures none { IfNone result (AreInRange submission.now → ⊥) }
{
    if submission.dataset.is_empty() || !submission.format.allows_longest(submission.longest) {
        return None;
    }
    Some(Fields {
        dataset: X::new(submission.dataset.as_bytes())?,
        date: Digits::new(submission.date.as_bytes())?,
        time: Digits::new(submission.time.as_bytes())?,
        description: Text::new(submission.description)?,
    })
}

// The rows of a content, or `None` where it isn't the local form of the format.
fn rows_of(
    alloc: Global,
    format: Format,
    longest: u32,
    content: &[u8],
) -> Result<Option<Rows>, RunFault>
    requires { IsLongest format longest }
    ensures some { IfOk result (λ found. IfSome found (IsLocal format longest content.now)) }
    ensures none { IfOk result (λ found. IfNone found (IsNotLocal format longest content.now)) }
    ensures err { IfErr result (λ f. (f ≡ RunFault.Memory) × (IsNotLocal format longest content.now → ⊥)) }
{
    match VFile::from_local(alloc, format, longest, content) {
        Ok(file) => Ok(Some(file.rows)),
        Err(LocalFault::NotLocal) => Ok(None),
        Err(LocalFault::Memory) => Err(RunFault::Memory),
    }
}

// The file that is submitted, or `None` where it isn't a valid one.
fn offer_of<'a>(alloc: Global, submission: &Submission<'a>) -> Result<Option<Offer<'a>>, RunFault>
    ensures some { IfOk result (λ found. IfSome found (IsOffer submission.now)) }
    ensures none { IfOk result (λ found. IfNone found (IsNoFile submission.now)) }
    ensures err { IfErr result (λ f. (f ≡ RunFault.Memory) × (IsNoFile submission.now → ⊥)) }
{
    let Some(fields) = fields_of(submission) else {
        return Ok(None);
    };
    let found = rows_of(
        alloc,
        submission.format,
        submission.longest,
        submission.content,
    )?;
    match found {
        Some(rows) => Ok(Some(Offer { fields, rows })),
        None => Ok(None),
    }
}

// The identity that a file with these fields has at a partner.
fn name_of(book: &Book, partner: &Partner, fields: &Fields<'_>) -> Identity
    ensures { result ≡ named_by book.now partner.now fields.now }
{
    Identity {
        dataset: Name::of(&fields.dataset),
        date: DigitString::of(&fields.date),
        time: DigitString::of(&fields.time),
        originator: Name::of(&book.station().code.field()),
        destination: Name::of(&partner.code.field()),
    }
}

// The number of octets of a file. The length digits of format V don't count.
fn units_of(format: Format, longest: u32, content: &[u8], rows: &Rows) -> u64
    requires { IsLocal format longest content.now rows.now }
    ensures { result ≡ units_in rows.now }
{
    let octets = content.len() as u64;
    match format {
        Format::Variable => octets - LENGTH_DIGITS * rows.len() as u64,
        Format::Fixed | Format::Unstructured | Format::Text => octets,
    }
}

// Whether a file exceeds the limits of the station.
fn is_too_big(limits: Limits, units: u64, rows: &Rows) -> bool
    requires { units ≡ units_in rows.now }
    ensures { result ≡ is_too_big limits rows.now }
{
    units > limits.octets || rows.len() > MOST_ROWS
}

// The result for a file that exceeds the limits, once its identity was looked up.
fn big_file_result(found: Result<Option<OutgoingEntry>, OfficeFault>) -> Result<Told, RunFault>
    ensures { result ≡ big_file_result found }
{
    match found {
        Ok(Some(_)) => Ok(Told::Refused(Refusal::Duplicate)),
        Ok(None) => Ok(Told::Refused(Refusal::Limit)),
        Err(_) => Err(RunFault::Office),
    }
}

// Refuses a file that exceeds the limits. It is a duplicate where its identity exists.
fn refuse_big<O: Office>(office: &mut O, identity: &Identity) -> Result<Told, RunFault>
    ensures clean { WasClean (O.view office.old) (O.view office.new) }
    ensures does { TriesDeed (codes "done: submit ")
        (λ r. if is_outgoing r identity.now then refuses Refusal.Duplicate else refuses Refusal.Limit)
        (O.view office.old) (O.view office.new) result }
    ensures err { FailsOnlyBy RunFault.Office result }
{
    let found = office.look_out(identity);
    big_file_result(found)
}

// The result for a registered file, once its number was looked up.
fn new_file_result(found: Result<Option<OutgoingEntry>, OfficeFault>) -> Result<Told, RunFault>
    ensures { result ≡ new_file_result found }
{
    match found {
        Ok(Some(file)) => Ok(Told::Done(file.no)),
        // A registered file is found, if the store reads what was written.
        Ok(None) | Err(_) => Err(RunFault::Office),
    }
}

// Registers a file and looks up its number.
fn register<O: Office>(
    office: &mut O,
    identity: &Identity,
    submission: &Submission<'_>,
    description: Text<'_>,
    rows: Rows,
) -> Result<Told, RunFault>
    ensures clean { WasClean (O.view office.old) (O.view office.new) }
    ensures does { RegistersFile identity.now submission.now description.entry rows (O.view office.old) (O.view office.new) result }
    ensures err { FailsOnlyBy RunFault.Office result }
{
    let change = Change::Submit {
        identity: identity.again(),
        format: submission.format,
        longest: submission.longest,
        description,
        rows,
    };
    match office.commit(change) {
        Ok(()) => {
            let found = office.look_out(identity);
            new_file_result(found)
        }
        Err(fault) => call_result(Err(fault), 0),
    }
}

// Submits a file.
pub(crate) fn submit<O: Office>(
    alloc: Global,
    office: &mut O,
    book: &Book,
    submission: &Submission<'_>,
) -> Result<Told, RunFault>
    ensures clean { WasClean (O.view office.old) (O.view office.new) }
    ensures does { Tries (codes "done: submit ") (λ r. Submits book.now r submission.now) (O.view office.old) (O.view office.new) result }
    ensures err { IfErr result (MayFail (Submit submission.now)) }
{
    let Some(offer) = offer_of(alloc, submission)? else {
        return Ok(Told::Refused(Refusal::Field));
    };
    let Some(partner) = book.partner(submission.to.as_bytes()) else {
        return Ok(Told::Refused(Refusal::Unknown));
    };
    let identity = name_of(book, partner, &offer.fields);
    let units = units_of(
        submission.format,
        submission.longest,
        submission.content,
        &offer.rows,
    );
    if is_too_big(office.limits(), units, &offer.rows) {
        return refuse_big(office, &identity);
    }
    register(
        office,
        &identity,
        submission,
        offer.fields.description,
        offer.rows,
    )
}
