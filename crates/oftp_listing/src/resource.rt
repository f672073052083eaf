//! What the listing and the reports need of each kind of entry.

ghost use Rattle.std.specs.Prelude.{◌≡◌, false, IfErr, IfOk, map};
ghost use Rattle.serde_json.specs.View.{view};
ghost use Rattle.serde_json.specs.Written.{has_float};
ghost use Rattle.oftp_register.specs.Offices.{LooksUp};
ghost use Rattle.oftp_listing.specs.declared.fault.ListFault.TheVariants.{Memory};
ghost use Rattle.oftp_listing.specs.Finding.{Finds};
ghost use Rattle.oftp_listing.specs.InsideResource.{AreListed, AreRelated, EntryKind, file_answered, incoming_files, issued_responses, outgoing_files, received_responses};
ghost use Rattle.oftp_listing.specs.Reports.{line};
ghost use Rattle.oftp_listing.specs.Texts.{no_of};

use crate::fault::ListFault;
use crate::json::{
    incoming_members, issued_members, object_of, outgoing_members, received_members,
};
use crate::names::{reason_name, refusal_name};
use crate::reports::{incoming_details, issued_details, line, outgoing_details, received_details};
use crate::units::units_of_each;
use oftp_register::{
    AnsweredEntry, IncomingEntry, IssuedEntry, Office, OfficeFault, OutgoingEntry, ReceivedEntry,
    Side,
};
use serde_json::Value;
use std::alloc::{AllocError, Global};

/// A kind of entry. Each entry is shown with a number that the entry itself doesn't have: the octets of a file, or the file that a response
/// answers.
pub(crate) trait Resource: Sized {
    // its entries in a register, and what is shown of one
    ghost kind: { EntryKind Self };

    /// All entries, in order of their numbers.
    fn list<O: Office>(office: &mut O) -> Result<Vec<Self>, OfficeFault>
        ensures looks { LooksUp (λ r told. told.items ≡ kind.entries r) (O.view office.old) (O.view office.new) result };

    /// The number that is shown with an entry.
    fn related_number<O: Office>(&self, office: &mut O) -> Result<u64, OfficeFault>
        ensures looks { LooksUp (λ r number. number ≡ kind.related r self.now) (O.view office.old) (O.view office.new) result };

    /// The numbers that are shown with all entries, in their order. `entries` is the list that the office returned.
    ///
    /// # Errors
    ///
    /// [`ListFault::Office`]: the office returned an error. [`ListFault::Memory`]: out of memory.
    fn related_numbers<O: Office>(
        alloc: Global,
        entries: &[Self],
        office: &mut O,
    ) -> Result<Vec<u64>, ListFault>
        ensures finds { Finds (λ r numbers. entries.now ≡ kind.entries r → AreRelated kind r numbers.items) (O.view office.old) (O.view office.new) result };

    /// Its object in the listing.
    ///
    /// # Errors
    ///
    /// Out of memory.
    fn to_object(&self, alloc: Global, number: u64) -> Result<Value, AllocError>
        ensures object { IfOk result (λ value. view value ≡ kind.object self.now number) }
        ensures integers { IfOk result (λ value. has_float (view value) ≡ false) };

    /// Its line in a report.
    ///
    /// # Errors
    ///
    /// [`ListFault::Memory`]: out of memory.
    fn to_line(&self, alloc: Global, number: u64) -> Result<Vec<u8>, ListFault>
        ensures text { IfOk result (λ text. text.items ≡ line (kind.fields self.now number)) }
        ensures fault { IfErr result (λ fault. fault ≡ Memory) };
}

impl Resource for IncomingEntry {
    ghost kind = { incoming_files };

    fn list<O: Office>(office: &mut O) -> Result<Vec<IncomingEntry>, OfficeFault> {
        office.list_in()
    }

    fn related_number<O: Office>(&self, office: &mut O) -> Result<u64, OfficeFault> {
        office.units_of(Side::Incoming, self.no)
    }

    fn related_numbers<O: Office>(
        alloc: Global,
        entries: &[IncomingEntry],
        office: &mut O,
    ) -> Result<Vec<u64>, ListFault> {
        units_of_each(alloc, entries, office)
    }

    fn to_object(&self, alloc: Global, number: u64) -> Result<Value, AllocError> {
        object_of(alloc, &incoming_members(self, number))
    }

    fn to_line(&self, alloc: Global, number: u64) -> Result<Vec<u8>, ListFault> {
        line(alloc, &incoming_details(self, number))
    }
}

impl Resource for OutgoingEntry {
    ghost kind = { outgoing_files };

    fn list<O: Office>(office: &mut O) -> Result<Vec<OutgoingEntry>, OfficeFault> {
        office.list_out()
    }

    fn related_number<O: Office>(&self, office: &mut O) -> Result<u64, OfficeFault> {
        office.units_of(Side::Outgoing, self.no)
    }

    fn related_numbers<O: Office>(
        alloc: Global,
        entries: &[OutgoingEntry],
        office: &mut O,
    ) -> Result<Vec<u64>, ListFault> {
        units_of_each(alloc, entries, office)
    }

    fn to_object(&self, alloc: Global, number: u64) -> Result<Value, AllocError> {
        let reason = refusal_name(alloc, self.state)?;
        object_of(alloc, &outgoing_members(self, reason.as_str(), number))
    }

    fn to_line(&self, alloc: Global, number: u64) -> Result<Vec<u8>, ListFault> {
        let reason = refusal_name(alloc, self.state)?;
        line(alloc, &outgoing_details(self, reason.as_str(), number))
    }
}

// 0 for each entry.
fn zeros(alloc: Global, entries: &[IssuedEntry]) -> Result<Vec<u64>, AllocError>
    ensures { IfOk result (λ numbers. numbers.items ≡ map (λ _. 0) entries.now) }
{
    entries.iter().map(|_| 0).collect(alloc)
}

// An issued response is shown without such a number.
impl Resource for IssuedEntry {
    ghost kind = { issued_responses };

    fn list<O: Office>(office: &mut O) -> Result<Vec<IssuedEntry>, OfficeFault> {
        office.list_issued()
    }

    fn related_number<O: Office>(&self, _office: &mut O) -> Result<u64, OfficeFault> {
        Ok(0)
    }

    fn related_numbers<O: Office>(
        alloc: Global,
        entries: &[IssuedEntry],
        _office: &mut O,
    ) -> Result<Vec<u64>, ListFault> {
        Ok(zeros(alloc, entries)?)
    }

    fn to_object(&self, alloc: Global, _number: u64) -> Result<Value, AllocError> {
        let reason = reason_name(alloc, self.response.kind, self.response.reason)?;
        object_of(alloc, &issued_members(self, reason.as_str()))
    }

    fn to_line(&self, alloc: Global, _number: u64) -> Result<Vec<u8>, ListFault> {
        let reason = reason_name(alloc, self.response.kind, self.response.reason)?;
        line(alloc, &issued_details(self, reason.as_str()))
    }
}

// The number of a file, or 0 where there is none.
fn no_of(file: &Option<OutgoingEntry>) -> u64
    ensures { result ≡ no_of file.now }
{
    match file {
        None => 0,
        Some(file) => file.no,
    }
}

// The numbers of the files that responses answer, 0 where there is none.
fn file_numbers(alloc: Global, answered: &[AnsweredEntry]) -> Result<Vec<u64>, AllocError>
    ensures { IfOk result (λ numbers. numbers.items ≡ map file_answered answered.now) }
{
    answered
        .iter()
        .map(|response| response.file.unwrap_or(0))
        .collect(alloc)
}

impl Resource for ReceivedEntry {
    ghost kind = { received_responses };

    fn list<O: Office>(office: &mut O) -> Result<Vec<ReceivedEntry>, OfficeFault> {
        office.list_received()
    }

    fn related_number<O: Office>(&self, office: &mut O) -> Result<u64, OfficeFault> {
        let file = office.look_out(&self.response.identity)?;
        Ok(no_of(&file))
    }

    // One look-up for all, however many there are.
    fn related_numbers<O: Office>(
        alloc: Global,
        _entries: &[ReceivedEntry],
        office: &mut O,
    ) -> Result<Vec<u64>, ListFault> {
        let answered = office.list_answered()?;
        Ok(file_numbers(alloc, answered.as_slice())?)
    }

    fn to_object(&self, alloc: Global, number: u64) -> Result<Value, AllocError> {
        let reason = reason_name(alloc, self.response.kind, self.response.reason)?;
        object_of(alloc, &received_members(self, reason.as_str(), number))
    }

    fn to_line(&self, alloc: Global, number: u64) -> Result<Vec<u8>, ListFault> {
        let reason = reason_name(alloc, self.response.kind, self.response.reason)?;
        line(alloc, &received_details(self, reason.as_str(), number))
    }
}

/// All entries of a kind, and the numbers that are shown with them, in the same order.
///
/// # Errors
///
/// [`ListFault::Office`]: the office returned an error. [`ListFault::Memory`]: out of memory.
pub(crate) fn list_with_numbers<E: Resource + Drop, O: Office>(
    alloc: Global,
    office: &mut O,
) -> Result<(Vec<E>, Vec<u64>), ListFault>
    ensures { Finds (λ r listed. AreListed E.kind r listed.0.items listed.1.items) (O.view office.old) (O.view office.new) result }
{
    let entries = E::list(office)?;
    let numbers = E::related_numbers(alloc, entries.as_slice(), office)?;
    Ok((entries, numbers))
}
