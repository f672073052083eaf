//! The lists of an office in memory.

ghost use Rattle.std.specs.Prelude.{◌≡◌, ◌↔◌, ◌≤◌, ◌<◌, ◌^◌, ℕ, Ok, IfOk, IfErr, IfSome, IsTrue, All, true, map, position, slice_get, take, drop, vec_len};
ghost use Rattle.std.specs.List.{list_any};
ghost use Rattle.oftp_register.specs.Register.{Register, is_response_to, empty, has_received, same_identity};
ghost use Rattle.oftp_register.specs.Changes.{apply, closed, closing, filed, given_up, handed, issued, kept, marked, on_incoming, on_outgoing, refused, reopened, sent, settled, started, submitted};
ghost use Rattle.oftp_register.specs.declared.change.Change.TheVariants as change;
ghost use Rattle.oftp_register.specs.Soundness.{AtNumber, Ends, GoesOn, IfOpen, IsFit, IsSound, MayStart};
ghost use Rattle.oftp_register.specs.LookUps.{AreRowsWithin, IsIncomingWithin, IsItemWithin, IsOutgoingWithin, file_rows, files_full, in_by_no, list_answered, list_in, list_issued, list_out, list_received, look_in, look_out, next_file, next_item, next_response, out_by_no, out_no, rows_of, units_of};
ghost use Rattle.oftp_register.specs.Units.{file_format};
ghost use Rattle.oftp_register.specs.Lists.{IsPlace, CarriesOut, beginning_of, incoming_of, issued_of, newly_started, outgoing_of, received_of, register_in, to_send};
ghost use Rattle.oftp_register.specs.declared.fit.TheConstants.{MOST_UNITS};

use super::incoming::{Header, IncomingFile};
use super::outgoing::OutgoingFile;
use super::units::units_told;
use crate::change::{Cause, Change};
use crate::entries::{
    AnsweredEntry, Cursor, IncomingEntry, IssuedEntry, IssuedResponse, Item, OutgoingEntry,
    ReceivedEntry, ReceivedResponse, Side,
};
use crate::entry::{Identity, ResponseKind};
use crate::fit::{is_file, is_response};
use crate::name::Name;
use crate::office::OfficeFault;
use oftp_vfile::{Format, Limits, Row, Rows};
use oftp_wire::{Count, Text};
use std::alloc::{AllocError, Global};

/// The lists of a register.
#[derive(Drop)]
pub struct Lists {
    pub alloc: Global,
    pub limits: Limits,
    pub incoming: Vec<IncomingFile>,
    pub outgoing: Vec<OutgoingFile>,
    pub received: Vec<ReceivedResponse>,
}

// The index of the entry with this number in a list of `len` entries, if there is one.
fn place_of(no: u64, len: usize) -> Option<usize>
    ensures { IsPlace no len result }
{
    if no > 0 && no <= len as u64 {
        Some((no - 1) as usize)
    } else {
        None
    }
}

fn place_in(files: &[IncomingFile], identity: &Identity) -> Option<usize>
    ensures { result ≡ position (λ file. same_identity file.identity identity.now) files.now }
{
    files.iter().position(|file| file.identity.is(identity))
}

fn place_out(files: &[OutgoingFile], identity: &Identity) -> Option<usize>
    ensures { result ≡ position (λ file. same_identity file.identity identity.now) files.now }
{
    files.iter().position(|file| file.identity.is(identity))
}

// At most `most` rows, from row `from` on.
fn part_of(rows: &[Row], from: u64, most: u64) -> &[Row]
    ensures { result.now ≡ take most (drop from rows.now) }
{
    let rest = &rows[rows.len().min(from as usize)..];
    &rest[..rest.len().min(most as usize)]
}

// A copy of the rows.
fn copy_of(alloc: Global, rows: &[Row]) -> Result<Rows, AllocError>
    ensures { IfOk result (λ copy. copy ≡ rows.now) }
{
    let mut copies = Vec::with_capacity(alloc, rows.len())?;
    for row in rows {
        copies.push(Row::new(Vec::from_slice(alloc, row.octets())?))?;
    }
    Ok(Rows::new(copies))
}

fn is_among(files: &[OutgoingFile], identity: &Identity) -> bool
    ensures { result ≡ list_any (λ file. same_identity file.identity identity.now) files.now }
{
    files.iter().any(|file| file.identity.is(identity))
}

fn settle_all(files: &mut [OutgoingFile], kind: ResponseKind, identity: &Identity)
    ensures { map outgoing_of files.new ≡ map (settled kind identity.now) (map outgoing_of files.old) }
{
    for file in files.iter_mut() {
        file.settle(kind, identity);
    }
}

fn is_answered(responses: &[ReceivedResponse], kind: ResponseKind, identity: &Identity) -> bool
    ensures { result ≡ list_any (λ response. is_response_to kind identity.now (received_of response)) responses.now }
{
    responses.iter().any(|response| response.kind == kind && response.identity.is(identity))
}

// Whether the file with this identity, if there is one, may go on in this format after its first `count` rows.
fn can_start(
    files: &[IncomingFile],
    identity: &Identity,
    format: Format,
    longest: u32,
    count: u64,
) -> bool
    ensures { IsTrue result ↔ All (λ file. MayStart identity.now format longest count (incoming_of file)) files.now }
{
    files
        .iter()
        .all(|file| file.may_start(identity, format, longest, count))
}

impl Lists {
    // The lists of an empty register.
    pub(crate) fn new(alloc: Global, limits: Limits) -> Lists
        ensures { register_in result ≡ empty limits }
    {
        Lists {
            alloc,
            limits,
            incoming: Vec::new(alloc),
            outgoing: Vec::new(alloc),
            received: Vec::new(alloc),
        }
    }

    // Whether a response of this kind was received for this file.
    pub(crate) fn is_received(&self, kind: ResponseKind, identity: &Identity) -> bool
        ensures { result ≡ has_received (register_in self.now) kind identity.now }
    {
        is_answered(&self.received, kind, identity)
    }

    // Adds a file with this header, which is to be sent.
    fn add_outgoing(&mut self, header: Header, rows: Rows) -> Result<(), OfficeFault>
        ensures { CarriesOut register_in (submitted (register_in self.old) (to_send header rows)) self.old self.new result }
    {
        if is_among(&self.outgoing, &header.identity) {
            return Err(OfficeFault::Refused(Cause::Duplicate));
        }
        if self.outgoing.len() as u64 >= self.limits.files {
            return Err(OfficeFault::Refused(Cause::Full));
        }
        self.outgoing.push(OutgoingFile::new(header, rows))?;
        Ok(())
    }

    // Starts an incoming file with this header, or goes on with it.
    fn take_up(&mut self, header: Header, count: u64) -> Result<(), OfficeFault>
        ensures { CarriesOut register_in (started (register_in self.old) (beginning_of header) count) self.old self.new result }
    {
        match place_in(&self.incoming, &header.identity) {
            Some(place) => self.incoming[place].restart(header, count),
            None => self.begin(header, count),
        }
    }

    fn begin(&mut self, header: Header, count: u64) -> Result<(), OfficeFault>
        ensures { CarriesOut register_in (newly_started (register_in self.old) (beginning_of header) count) self.old self.new result }
    {
        if count > 0 {
            return Err(OfficeFault::Refused(Cause::State));
        }
        if self.incoming.len() as u64 >= self.limits.files {
            return Err(OfficeFault::Refused(Cause::Full));
        }
        self.incoming.push(IncomingFile::new(self.alloc, header))?;
        Ok(())
    }

    // Appends rows to a file.
    fn keep(&mut self, no: u64, rows: Rows) -> Result<(), OfficeFault>
        ensures { CarriesOut register_in (on_incoming (kept rows) no (register_in self.old)) self.old self.new result }
    {
        match place_of(no, self.incoming.len()) {
            Some(place) => self.incoming[place].keep(rows),
            None => Err(OfficeFault::Refused(Cause::Unknown)),
        }
    }

    // Appends the last rows to a file.
    fn close(&mut self, no: u64, rows: Rows) -> Result<(), OfficeFault>
        ensures { CarriesOut register_in (on_incoming (closed rows) no (register_in self.old)) self.old self.new result }
    {
        match place_of(no, self.incoming.len()) {
            Some(place) => self.incoming[place].close(rows),
            None => Err(OfficeFault::Refused(Cause::Unknown)),
        }
    }

    // Deletes the rows of a file.
    fn give_up(&mut self, no: u64) -> Result<(), OfficeFault>
        ensures { CarriesOut register_in (on_incoming given_up no (register_in self.old)) self.old self.new result }
    {
        match place_of(no, self.incoming.len()) {
            Some(place) => self.incoming[place].give_up(),
            None => Err(OfficeFault::Refused(Cause::Unknown)),
        }
    }

    // Adds a received response.
    fn add_received(&mut self, response: ReceivedResponse) -> Result<(), OfficeFault>
        ensures { CarriesOut register_in (filed (register_in self.old) (received_of response)) self.old self.new result }
    {
        if self.is_received(response.kind, &response.identity) {
            return Err(OfficeFault::Refused(Cause::Duplicate));
        }
        self.received.reserve(1)?;
        settle_all(&mut self.outgoing, response.kind, &response.identity);
        self.received.push(response)?;
        Ok(())
    }

    // Issues a response.
    fn answer(&mut self, no: u64, response: IssuedResponse) -> Result<(), OfficeFault>
        ensures { CarriesOut register_in (on_incoming (issued (issued_of response)) no (register_in self.old)) self.old self.new result }
    {
        match place_of(no, self.incoming.len()) {
            Some(place) => self.incoming[place].issue(response),
            None => Err(OfficeFault::Refused(Cause::Unknown)),
        }
    }

    // Sets the mark of a file.
    fn mark(&mut self, no: u64, rows: u64) -> Result<(), OfficeFault>
        ensures { CarriesOut register_in (on_outgoing (marked rows) no (register_in self.old)) self.old self.new result }
    {
        match place_of(no, self.outgoing.len()) {
            Some(place) => self.outgoing[place].mark(rows),
            None => Err(OfficeFault::Refused(Cause::Unknown)),
        }
    }

    // Records that the end of a file is sent next.
    fn begin_closing(&mut self, no: u64) -> Result<(), OfficeFault>
        ensures { CarriesOut register_in (on_outgoing closing no (register_in self.old)) self.old self.new result }
    {
        match place_of(no, self.outgoing.len()) {
            Some(place) => self.outgoing[place].close(),
            None => Err(OfficeFault::Refused(Cause::Unknown)),
        }
    }

    // Records that the partner has a file.
    fn hand_over(&mut self, no: u64) -> Result<(), OfficeFault>
        ensures { CarriesOut register_in (on_outgoing handed no (register_in self.old)) self.old self.new result }
    {
        match place_of(no, self.outgoing.len()) {
            Some(place) => self.outgoing[place].hand_over(),
            None => Err(OfficeFault::Refused(Cause::Unknown)),
        }
    }

    // Records that the partner refuses a file.
    fn refuse(&mut self, no: u64, reason: Count<2>) -> Result<(), OfficeFault>
        ensures { CarriesOut register_in (on_outgoing (refused reason) no (register_in self.old)) self.old self.new result }
    {
        match place_of(no, self.outgoing.len()) {
            Some(place) => self.outgoing[place].refuse(reason),
            None => Err(OfficeFault::Refused(Cause::Unknown)),
        }
    }

    // Records that a file is sent again.
    fn reopen(&mut self, no: u64) -> Result<(), OfficeFault>
        ensures { CarriesOut register_in (on_outgoing reopened no (register_in self.old)) self.old self.new result }
    {
        match place_of(no, self.outgoing.len()) {
            Some(place) => self.outgoing[place].reopen(),
            None => Err(OfficeFault::Refused(Cause::Unknown)),
        }
    }

    // Records that the response to a file was sent.
    fn send(&mut self, no: u64) -> Result<(), OfficeFault>
        ensures { CarriesOut register_in (on_incoming sent no (register_in self.old)) self.old self.new result }
    {
        match place_of(no, self.incoming.len()) {
            Some(place) => self.incoming[place].send(),
            None => Err(OfficeFault::Refused(Cause::Unknown)),
        }
    }

    // Whether these rows may be appended to the file with this number, if there is one and it is open.
    fn may_keep(&self, no: u64, rows: &Rows) -> bool
        ensures { IsTrue result ↔ AtNumber (λ file. IfOpen file.state (GoesOn rows.now file)) no (register_in self.now).incoming }
    {
        match place_of(no, self.incoming.len()) {
            Some(place) => self.incoming[place].takes(rows),
            None => true,
        }
    }

    // Whether these may be the last rows of the file with this number, if there is one and it is open.
    fn may_close(&self, no: u64, rows: &Rows) -> bool
        ensures { IsTrue result ↔ AtNumber (λ file. IfOpen file.state (Ends rows.now file)) no (register_in self.now).incoming }
    {
        match place_of(no, self.incoming.len()) {
            Some(place) => self.incoming[place].ends_by(rows),
            None => true,
        }
    }

    // Whether a change is fit.
    #[tactic(auto, unfolding(crate::specs::Soundness::IsFit))]
    pub(crate) fn allows(&self, change: &Change<'_>) -> bool
        ensures { IsTrue result ↔ IsFit (register_in self.now) change.now }
    {
        match change {
            Change::Submit {
                format,
                longest,
                rows,
                ..
            } => is_file(*format, *longest, rows.as_slice()),
            Change::Start {
                identity,
                format,
                longest,
                count,
                ..
            } => {
                format.allows_longest(*longest)
                    && can_start(&self.incoming, identity, *format, *longest, *count)
            }
            Change::Keep { no, rows } => self.may_keep(*no, rows),
            Change::Close { no, rows } => self.may_close(*no, rows),
            Change::File {
                kind,
                reason,
                creator,
                text,
                ..
            } => is_response(*kind, *reason, creator.octets(), text),
            Change::Issue {
                kind,
                reason,
                text,
                ..
            } => is_response(*kind, *reason, &[], text),
            _ => true,
        }
    }

    // Submits a file.
    #[tactic(auto, unfolding(crate::specs::Changes::apply))]
    fn submit(
        &mut self,
        identity: Identity,
        format: Format,
        longest: u32,
        description: &Text<'_>,
        rows: Rows,
    ) -> Result<(), OfficeFault>
        ensures { CarriesOut register_in (apply (register_in self.old) (change.Submit identity format longest description.now rows)) self.old self.new result }
    {
        let header = Header::new(self.alloc, identity, format, longest, description)?;
        self.add_outgoing(header, rows)
    }

    // Starts an incoming file, or goes on with it.
    #[tactic(auto, unfolding(crate::specs::Changes::apply))]
    fn start(
        &mut self,
        identity: Identity,
        format: Format,
        longest: u32,
        description: &Text<'_>,
        count: u64,
    ) -> Result<(), OfficeFault>
        ensures { CarriesOut register_in (apply (register_in self.old) (change.Start identity format longest description.now count)) self.old self.new result }
    {
        let header = Header::new(self.alloc, identity, format, longest, description)?;
        self.take_up(header, count)
    }

    // Adds a received response.
    #[tactic(auto, unfolding(crate::specs::Changes::apply))]
    fn file(
        &mut self,
        kind: ResponseKind,
        identity: Identity,
        reason: Count<2>,
        creator: Name<25>,
        text: &Text<'_>,
    ) -> Result<(), OfficeFault>
        ensures { CarriesOut register_in (apply (register_in self.old) (change.File kind identity reason creator text.now)) self.old self.new result }
    {
        let response = ReceivedResponse::new(self.alloc, kind, identity, reason, creator, text)?;
        self.add_received(response)
    }

    // Issues a response.
    #[tactic(auto, unfolding(crate::specs::Changes::apply))]
    fn issue(
        &mut self,
        no: u64,
        kind: ResponseKind,
        reason: Count<2>,
        text: &Text<'_>,
    ) -> Result<(), OfficeFault>
        ensures { CarriesOut register_in (apply (register_in self.old) (change.Issue no kind reason text.now)) self.old self.new result }
    {
        let response = IssuedResponse::new(self.alloc, kind, reason, text)?;
        self.answer(no, response)
    }

    // Makes a change.
    #[tactic(auto, unfolding(crate::specs::Changes::apply))]
    fn make(&mut self, change: Change<'_>) -> Result<(), OfficeFault>
        ensures { CarriesOut register_in (apply (register_in self.old) change.entry) self.old self.new result }
    {
        match change {
            Change::Submit {
                identity,
                format,
                longest,
                description,
                rows,
            } => self.submit(identity, format, longest, &description, rows),
            Change::Start {
                identity,
                format,
                longest,
                description,
                count,
            } => self.start(identity, format, longest, &description, count),
            Change::Keep { no, rows } => self.keep(no, rows),
            Change::Close { no, rows } => self.close(no, rows),
            Change::GiveUp { no } => self.give_up(no),
            Change::File {
                kind,
                identity,
                reason,
                creator,
                text,
            } => self.file(kind, identity, reason, creator, &text),
            Change::Issue {
                no,
                kind,
                reason,
                text,
            } => self.issue(no, kind, reason, &text),
            Change::Mark { no, rows } => self.mark(no, rows),
            Change::BeginClosing { no } => self.begin_closing(no),
            Change::HandOver { no } => self.hand_over(no),
            Change::Refuse { no, reason } => self.refuse(no, reason),
            Change::Reopen { no } => self.reopen(no),
            Change::Send { no } => self.send(no),
        }
    }

    // Makes a change that is fit.
    pub(crate) fn commit(&mut self, change: Change<'_>) -> Result<(), OfficeFault>
        requires sound { IsSound (register_in self.old) }
        requires fit { IsFit (register_in self.old) change }
        ensures made { CarriesOut register_in (apply (register_in self.old) change.entry) self.old self.new result }
        ensures sound { IsSound (register_in self.new) }
    {
        self.make(change)
    }

    // The incoming file at an index.
    fn incoming_at(&self, place: usize) -> Result<Option<IncomingEntry>, AllocError>
        requires sound { IsSound (register_in self.now) }
        requires within { place < vec_len self.now.incoming }
        ensures value { IfOk result (λ found. found ≡ slice_get (list_in (register_in self.now)) place) }
        ensures within { IfOk result (λ found. IfSome found IsIncomingWithin) }
    {
        let entry = self.incoming[place].entry(self.alloc, place as u64 + 1)?;
        Ok(Some(entry))
    }

    // The outgoing file at an index.
    fn outgoing_at(&self, place: usize) -> Result<Option<OutgoingEntry>, AllocError>
        requires sound { IsSound (register_in self.now) }
        requires within { place < vec_len self.now.outgoing }
        ensures value { IfOk result (λ found. found ≡ slice_get (list_out (register_in self.now)) place) }
        ensures within { IfOk result (λ found. IfSome found IsOutgoingWithin) }
    {
        let entry = self.outgoing[place].entry(self.alloc, place as u64 + 1)?;
        Ok(Some(entry))
    }

    // The incoming file with this identity.
    pub(crate) fn look_in(&self, identity: &Identity) -> Result<Option<IncomingEntry>, AllocError>
        requires { IsSound (register_in self.now) }
        ensures value { IfOk result (λ found. found ≡ look_in (register_in self.now) identity.now) }
        ensures within { IfOk result (λ found. IfSome found IsIncomingWithin) }
    {
        match place_in(&self.incoming, identity) {
            Some(place) => self.incoming_at(place),
            None => Ok(None),
        }
    }

    // The outgoing file with this identity.
    pub(crate) fn look_out(&self, identity: &Identity) -> Result<Option<OutgoingEntry>, AllocError>
        requires { IsSound (register_in self.now) }
        ensures value { IfOk result (λ found. found ≡ look_out (register_in self.now) identity.now) }
        ensures within { IfOk result (λ found. IfSome found IsOutgoingWithin) }
    {
        match place_out(&self.outgoing, identity) {
            Some(place) => self.outgoing_at(place),
            None => Ok(None),
        }
    }

    // The incoming file with a number.
    pub(crate) fn in_by_no(&self, no: u64) -> Result<Option<IncomingEntry>, AllocError>
        requires { IsSound (register_in self.now) }
        ensures value { IfOk result (λ found. found ≡ in_by_no (register_in self.now) no) }
        ensures within { IfOk result (λ found. IfSome found IsIncomingWithin) }
    {
        match place_of(no, self.incoming.len()) {
            Some(place) => self.incoming_at(place),
            None => Ok(None),
        }
    }

    // The outgoing file with a number.
    pub(crate) fn out_by_no(&self, no: u64) -> Result<Option<OutgoingEntry>, AllocError>
        requires { IsSound (register_in self.now) }
        ensures value { IfOk result (λ found. found ≡ out_by_no (register_in self.now) no) }
        ensures within { IfOk result (λ found. IfSome found IsOutgoingWithin) }
    {
        match place_of(no, self.outgoing.len()) {
            Some(place) => self.outgoing_at(place),
            None => Ok(None),
        }
    }

    // Whether a table has as many files as the limits allow, or more.
    pub(crate) fn files_full(&self, side: Side) -> bool
        ensures { result ≡ files_full (register_in self.now) side }
    {
        let files = match side {
            Side::Incoming => self.incoming.len(),
            Side::Outgoing => self.outgoing.len(),
        };
        self.limits.files <= files as u64
    }

    // The first response that is due to a partner and wasn't tried.
    fn next_response(
        &self,
        partner: &Name<25>,
        tried: u64,
    ) -> Result<Option<IssuedEntry>, AllocError>
        ensures { IfOk result (λ found. found ≡ next_response (register_in self.now) partner.now tried) }
    {
        for (place, file) in self.incoming.iter().enumerate() {
            let no = place as u64 + 1;
            if no > tried && file.is_due_to(partner) {
                return file.issued(self.alloc, no);
            }
        }
        Ok(None)
    }

    // The first file to a partner that is on its way and wasn't tried.
    fn next_file(&self, partner: &Name<25>, tried: u64) -> Result<Option<OutgoingEntry>, AllocError>
        requires { IsSound (register_in self.now) }
        ensures value { IfOk result (λ found. found ≡ next_file (register_in self.now) partner.now tried) }
        ensures within { IfOk result (λ found. IfSome found IsOutgoingWithin) }
    {
        for (place, file) in self.outgoing.iter().enumerate() {
            if place as u64 + 1 > tried && file.is_on_its_way_to(partner) {
                return self.outgoing_at(place);
            }
        }
        Ok(None)
    }

    // What is sent next to a partner.
    pub(crate) fn next_item(
        &self,
        partner: &Name<25>,
        cursor: Cursor,
        files: bool,
    ) -> Result<Option<Item>, AllocError>
        requires { IsSound (register_in self.now) }
        ensures value { IfOk result (λ item. item ≡ next_item (register_in self.now) partner.now cursor files) }
        ensures within { IfOk result (λ item. IfSome item IsItemWithin) }
    {
        if let Some(response) = self.next_response(partner, cursor.response)? {
            return Ok(Some(Item::Response(response)));
        }
        if !files {
            return Ok(None);
        }
        match self.next_file(partner, cursor.file)? {
            Some(file) => Ok(Some(Item::File(file))),
            None => Ok(None),
        }
    }

    // The rows of a file, borrowed.
    fn file_rows(&self, side: Side, no: u64) -> &[Row]
        ensures { result.now ≡ file_rows (register_in self.now) side no }
    {
        match side {
            Side::Incoming => match place_of(no, self.incoming.len()) {
                Some(place) => self.incoming[place].rows.as_slice(),
                None => &[],
            },
            Side::Outgoing => match place_of(no, self.outgoing.len()) {
                Some(place) => self.outgoing[place].rows.as_slice(),
                None => &[],
            },
        }
    }

    // At most `most` rows of a file, from row `from` on.
    pub(crate) fn rows_of(
        &self,
        side: Side,
        no: u64,
        from: u64,
        most: u64,
    ) -> Result<Rows, AllocError>
        requires { IsSound (register_in self.now) }
        ensures value { IfOk result (λ rows. rows ≡ rows_of (register_in self.now) side no from most) }
        ensures within { IfOk result (AreRowsWithin from most) }
    {
        copy_of(self.alloc, part_of(self.file_rows(side, no), from, most))
    }

    // The format and the longest record of a file.
    fn file_format(&self, side: Side, no: u64) -> Option<(Format, u32)>
        ensures { result ≡ file_format (register_in self.now) side no }
    {
        match side {
            Side::Incoming => {
                let file = &self.incoming[place_of(no, self.incoming.len())?];
                Some((file.format, file.longest))
            }
            Side::Outgoing => {
                let file = &self.outgoing[place_of(no, self.outgoing.len())?];
                Some((file.format, file.longest))
            }
        }
    }

    // The number of octets of a file.
    pub(crate) fn units_of(&self, side: Side, no: u64) -> u64
        requires { IsSound (register_in self.now) }
        ensures value { result ≡ units_of (register_in self.now) side no }
        ensures within { result ≤ MOST_UNITS }
    {
        match self.file_format(side, no) {
            Some((format, longest)) => units_told(format, longest, self.file_rows(side, no)),
            None => 0,
        }
    }

    // All incoming files.
    pub(crate) fn list_in(&self) -> Result<Vec<IncomingEntry>, AllocError>
        requires { IsSound (register_in self.now) }
        ensures { IfOk result (λ entries. entries.items ≡ list_in (register_in self.now)) }
    {
        let mut entries = Vec::with_capacity(self.alloc, self.incoming.len())?;
        for (place, file) in self.incoming.iter().enumerate() {
            entries.push(file.entry(self.alloc, place as u64 + 1)?)?;
        }
        Ok(entries)
    }

    // All outgoing files.
    pub(crate) fn list_out(&self) -> Result<Vec<OutgoingEntry>, AllocError>
        requires { IsSound (register_in self.now) }
        ensures { IfOk result (λ entries. entries.items ≡ list_out (register_in self.now)) }
    {
        let mut entries = Vec::with_capacity(self.alloc, self.outgoing.len())?;
        for (place, file) in self.outgoing.iter().enumerate() {
            entries.push(file.entry(self.alloc, place as u64 + 1)?)?;
        }
        Ok(entries)
    }

    // All issued responses.
    pub(crate) fn list_issued(&self) -> Result<Vec<IssuedEntry>, AllocError>
        ensures { IfOk result (λ entries. entries.items ≡ list_issued (register_in self.now)) }
    {
        let mut entries = Vec::new(self.alloc);
        for (place, file) in self.incoming.iter().enumerate() {
            if let Some(entry) = file.issued(self.alloc, place as u64 + 1)? {
                entries.push(entry)?;
            }
        }
        Ok(entries)
    }

    // All received responses.
    pub(crate) fn list_received(&self) -> Result<Vec<ReceivedEntry>, AllocError>
        ensures { IfOk result (λ entries. entries.items ≡ list_received (register_in self.now)) }
    {
        let mut entries = Vec::with_capacity(self.alloc, self.received.len())?;
        for (place, response) in self.received.iter().enumerate() {
            entries.push(ReceivedEntry {
                no: place as u64 + 1,
                response: response.again(self.alloc)?,
            })?;
        }
        Ok(entries)
    }

    // The number of the outgoing file with this identity.
    fn out_no(&self, identity: &Identity) -> Option<u64>
        ensures { result ≡ out_no (register_in self.now) identity.now }
    {
        match place_out(&self.outgoing, identity) {
            Some(place) => Some(place as u64 + 1),
            None => None,
        }
    }

    // All received responses with the files that they answer.
    pub(crate) fn list_answered(&self) -> Result<Vec<AnsweredEntry>, AllocError>
        ensures { IfOk result (λ entries. entries.items ≡ list_answered (register_in self.now)) }
    {
        let mut entries = Vec::with_capacity(self.alloc, self.received.len())?;
        for (place, response) in self.received.iter().enumerate() {
            entries.push(AnsweredEntry {
                no: place as u64 + 1,
                file: self.out_no(&response.identity),
            })?;
        }
        Ok(entries)
    }
}
