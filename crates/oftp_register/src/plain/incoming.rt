//! Incoming files in memory.

ghost use Rattle.std.specs.Prelude.{◌≡◌, ◌↔◌, ◌+◌, ◌≤◌, ℕ, [], ◌++◌, length, None, Ok, IfOk, IsTrue};
ghost use Rattle.oftp_register.specs.Register.{Issued, Incoming, same_identity};
ghost use Rattle.oftp_register.specs.Changes.{closed, given_up, gone_on, issued, kept, sent, sent_as};
ghost use Rattle.oftp_register.specs.Soundness.{Ends, GoesOn, IfOpen, IsSoundIncoming, MayGoOn, MayStart};
ghost use Rattle.oftp_register.specs.LookUps.{IsIncomingWithin, incoming_entry, is_due, issued_entry};
ghost use Rattle.oftp_register.specs.Lists.{CarriesOut, beginning_of, incoming_of, is_due_to, issued_of, response_of};
ghost use Rattle.oftp_vfile.specs.declared.format.TheConstants.{MOST_ROWS};

use crate::change::Cause;
use crate::entries::{IncomingEntry, IssuedEntry, IssuedResponse};
use crate::entry::{Dispatch, Identity, IncomingState};
use crate::fit::{are_full_rows, are_rows};
use crate::name::Name;
use crate::note::Note;
use crate::office::OfficeFault;
use oftp_vfile::{Format, MOST_ROWS, Row, Rows};
use oftp_wire::Text;
use std::alloc::{AllocError, Global};

/// The fields of a file besides its rows.
#[derive(Drop)]
pub struct Header {
    pub identity: Identity,
    pub format: Format,
    pub longest: u32,
    pub description: Note,
}

/// An incoming file.
#[derive(Drop)]
pub struct IncomingFile {
    pub identity: Identity,
    pub format: Format,
    pub longest: u32,
    pub description: Note,
    pub state: IncomingState,
    pub rows: Vec<Row>,
    pub response: Option<IssuedResponse>,
}

impl Header {
    // The header of a file with this description.
    pub(crate) fn new(
        alloc: Global,
        identity: Identity,
        format: Format,
        longest: u32,
        description: &Text<'_>,
    ) -> Result<Header, AllocError>
        ensures { IfOk result (λ header. header ≡ record { identity = identity; format = format; longest = longest; description = description.now }) }
    {
        Ok(Header {
            identity,
            format,
            longest,
            description: Note::of(alloc, description)?,
        })
    }
}

// Records that the response was sent.
fn send(response: &mut IssuedResponse) -> Result<(), OfficeFault>
    ensures { let was = issued_of response.old in CarriesOut issued_of (sent_as was was.dispatch) response.old response.new result }
{
    match response.dispatch {
        Dispatch::Due => {
            response.dispatch = Dispatch::Sent;
            Ok(())
        }
        Dispatch::Sent => Err(OfficeFault::Refused(Cause::State)),
    }
}

impl IncomingFile {
    // A new file without rows.
    pub(crate) fn new(alloc: Global, header: Header) -> IncomingFile
        ensures { incoming_of result ≡ beginning_of header }
    {
        IncomingFile {
            identity: header.identity,
            format: header.format,
            longest: header.longest,
            description: header.description,
            state: IncomingState::Open,
            rows: Vec::new(alloc),
            response: None,
        }
    }

    // Whether the first `count` rows of an open file fit this format.
    fn may_go_on(&self, format: Format, longest: u32, count: u64) -> bool
        ensures { IsTrue result ↔ MayGoOn format longest count (incoming_of self.now) }
    {
        match self.state {
            IncomingState::Open if count <= self.rows.len() as u64 => {
                are_full_rows(format, longest, &self.rows[..count as usize])
            }
            _ => true,
        }
    }

    // Whether it has another identity, or may go on like this.
    #[tactic(auto, unfolding(crate::specs::Soundness::MayStart))]
    pub(crate) fn may_start(
        &self,
        identity: &Identity,
        format: Format,
        longest: u32,
        count: u64,
    ) -> bool
        ensures { IsTrue result ↔ MayStart identity.now format longest count (incoming_of self.now) }
    {
        !self.identity.is(identity) || self.may_go_on(format, longest, count)
    }

    // Whether these rows may be appended, if it is open.
    pub(crate) fn takes(&self, rows: &Rows) -> bool
        ensures { IsTrue result ↔ IfOpen self.now.state (GoesOn rows.now (incoming_of self.now)) }
    {
        match self.state {
            IncomingState::Open => {
                self.has_room(rows) && are_full_rows(self.format, self.longest, rows.as_slice())
            }
            IncomingState::Whole => true,
        }
    }

    // Whether these may be its last rows, if it is open.
    pub(crate) fn ends_by(&self, rows: &Rows) -> bool
        ensures { IsTrue result ↔ IfOpen self.now.state (Ends rows.now (incoming_of self.now)) }
    {
        match self.state {
            IncomingState::Open => {
                self.has_room(rows) && are_rows(self.format, self.longest, rows.as_slice())
            }
            IncomingState::Whole => true,
        }
    }

    fn has_room(&self, rows: &Rows) -> bool
        ensures { IsTrue result ↔ (length self.now.rows.items + length rows.now ≤ MOST_ROWS) }
    {
        self.rows.len() <= MOST_ROWS && rows.len() <= MOST_ROWS - self.rows.len()
    }

    // An open file goes on after its first `count` rows.
    pub(crate) fn restart(&mut self, header: Header, count: u64) -> Result<(), OfficeFault>
        ensures { let file = incoming_of self.old in
            CarriesOut incoming_of (gone_on (beginning_of header) count file file.state) self.old self.new result }
    {
        match self.state {
            IncomingState::Open if count <= self.rows.len() as u64 => {
                self.rows.truncate(count as usize);
                self.identity = header.identity;
                self.format = header.format;
                self.longest = header.longest;
                self.description = header.description;
                Ok(())
            }
            _ => Err(OfficeFault::Refused(Cause::State)),
        }
    }

    fn append(&mut self, rows: Rows) -> Result<(), OfficeFault>
        ensures { let file = incoming_of self.old in
            CarriesOut incoming_of (Ok (record file { rows = file.rows ++ rows })) self.old self.new result }
    {
        let mut rows = rows.into_vec();
        self.rows.append(&mut rows)?;
        Ok(())
    }

    // Appends rows.
    pub(crate) fn keep(&mut self, rows: Rows) -> Result<(), OfficeFault>
        ensures { CarriesOut incoming_of (kept rows (incoming_of self.old)) self.old self.new result }
    {
        match self.state {
            IncomingState::Open => self.append(rows),
            IncomingState::Whole => Err(OfficeFault::Refused(Cause::State)),
        }
    }

    // Appends the last rows.
    pub(crate) fn close(&mut self, rows: Rows) -> Result<(), OfficeFault>
        ensures { CarriesOut incoming_of (closed rows (incoming_of self.old)) self.old self.new result }
    {
        self.keep(rows)?;
        self.state = IncomingState::Whole;
        Ok(())
    }

    // Deletes the rows.
    pub(crate) fn give_up(&mut self) -> Result<(), OfficeFault>
        ensures { CarriesOut incoming_of (given_up (incoming_of self.old)) self.old self.new result }
    {
        match self.state {
            IncomingState::Open => {
                self.rows.clear();
                Ok(())
            }
            IncomingState::Whole => Err(OfficeFault::Refused(Cause::State)),
        }
    }

    // Issues a response.
    pub(crate) fn issue(&mut self, response: IssuedResponse) -> Result<(), OfficeFault>
        ensures { CarriesOut incoming_of (issued (issued_of response) (incoming_of self.old)) self.old self.new result }
    {
        match self.state {
            IncomingState::Whole if self.response.is_none() => {
                self.response = Some(response);
                Ok(())
            }
            _ => Err(OfficeFault::Refused(Cause::State)),
        }
    }

    // Records that the response was sent.
    pub(crate) fn send(&mut self) -> Result<(), OfficeFault>
        ensures { CarriesOut incoming_of (sent (incoming_of self.old)) self.old self.new result }
    {
        match &mut self.response {
            Some(response) => send(response),
            None => Err(OfficeFault::Refused(Cause::State)),
        }
    }

    // The entry of the file, without its rows.
    pub(crate) fn entry(&self, alloc: Global, no: u64) -> Result<IncomingEntry, AllocError>
        requires { IsSoundIncoming (incoming_of self.now) }
        ensures value { IfOk result (λ entry. entry ≡ incoming_entry no (incoming_of self.now)) }
        ensures within { IfOk result IsIncomingWithin }
    {
        let response = match &self.response {
            Some(response) => Some(response.again(alloc)?),
            None => None,
        };
        Ok(IncomingEntry {
            no,
            identity: self.identity.again(),
            format: self.format,
            longest: self.longest,
            description: self.description.again(alloc)?,
            state: self.state,
            rows: self.rows.len() as u64,
            response,
        })
    }

    // The entry of its response, if one was issued.
    pub(crate) fn issued(&self, alloc: Global, no: u64) -> Result<Option<IssuedEntry>, AllocError>
        ensures { IfOk result (λ entry. entry ≡ issued_entry no (incoming_of self.now)) }
    {
        match &self.response {
            Some(response) => Ok(Some(IssuedEntry {
                no,
                identity: self.identity.again(),
                response: response.again(alloc)?,
            })),
            None => Ok(None),
        }
    }

    // Whether its response is due to this partner.
    pub(crate) fn is_due_to(&self, partner: &Name<25>) -> bool
        ensures { result ≡ is_due_to partner.now (incoming_of self.now) }
    {
        match &self.response {
            Some(response) => response.dispatch == Dispatch::Due
                && self.identity.originator.is(partner),
            None => false,
        }
    }
}
