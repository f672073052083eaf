//! Outgoing files in memory.

ghost use Rattle.std.specs.Prelude.{◌≡◌, ℕ, IfOk};
ghost use Rattle.oftp_register.specs.Register.{Outgoing};
ghost use Rattle.oftp_register.specs.Soundness.{IsSoundOutgoing};
ghost use Rattle.oftp_register.specs.LookUps.{IsOutgoingWithin, outgoing_entry};
ghost use Rattle.oftp_register.specs.Changes.{closing, handed, marked, refused, reopened, settled};
ghost use Rattle.oftp_register.specs.Lists.{CarriesOut, is_on_its_way_to, outgoing_of, to_send};

use super::incoming::Header;
use crate::change::Cause;
use crate::entries::OutgoingEntry;
use crate::entry::{Identity, OutgoingState, ResponseKind};
use crate::name::Name;
use crate::note::Note;
use crate::office::OfficeFault;
use oftp_vfile::{Format, Row, Rows};
use oftp_wire::Count;
use std::alloc::{AllocError, Global};

/// An outgoing file.
#[derive(Drop)]
pub struct OutgoingFile {
    pub identity: Identity,
    pub format: Format,
    pub longest: u32,
    pub description: Note,
    pub rows: Vec<Row>,
    pub mark: u64,
    pub state: OutgoingState,
}

impl OutgoingFile {
    // A file to be sent.
    pub(crate) fn new(header: Header, rows: Rows) -> OutgoingFile
        ensures { outgoing_of result ≡ to_send header rows }
    {
        OutgoingFile {
            identity: header.identity,
            format: header.format,
            longest: header.longest,
            description: header.description,
            rows: rows.into_vec(),
            mark: 0,
            state: OutgoingState::Waiting,
        }
    }

    // Sets its state after a received response, if that answers this file.
    pub(crate) fn settle(&mut self, kind: ResponseKind, identity: &Identity)
        ensures { outgoing_of self.new ≡ settled kind identity.now (outgoing_of self.old) }
    {
        if !self.identity.is(identity) {
            return;
        }
        if let OutgoingState::Closing | OutgoingState::Handed = self.state {
            self.state = match kind {
                ResponseKind::EndResponse => OutgoingState::Delivered,
                ResponseKind::NegativeEndResponse => OutgoingState::Returned,
            };
        }
    }

    // Sets the mark.
    pub(crate) fn mark(&mut self, rows: u64) -> Result<(), OfficeFault>
        ensures { CarriesOut outgoing_of (marked rows (outgoing_of self.old)) self.old self.new result }
    {
        match self.state {
            OutgoingState::Waiting if rows <= self.rows.len() as u64 => {
                self.mark = rows;
                Ok(())
            }
            _ => Err(OfficeFault::Refused(Cause::State)),
        }
    }

    // Records that the end is sent next.
    pub(crate) fn close(&mut self) -> Result<(), OfficeFault>
        ensures { CarriesOut outgoing_of (closing (outgoing_of self.old)) self.old self.new result }
    {
        match self.state {
            OutgoingState::Waiting => {
                self.state = OutgoingState::Closing;
                Ok(())
            }
            _ => Err(OfficeFault::Refused(Cause::State)),
        }
    }

    // Records that the partner has it.
    pub(crate) fn hand_over(&mut self) -> Result<(), OfficeFault>
        ensures { CarriesOut outgoing_of (handed (outgoing_of self.old)) self.old self.new result }
    {
        match self.state {
            OutgoingState::Closing => {
                self.state = OutgoingState::Handed;
                Ok(())
            }
            _ => Err(OfficeFault::Refused(Cause::State)),
        }
    }

    // Records that the partner refuses it.
    pub(crate) fn refuse(&mut self, reason: Count<2>) -> Result<(), OfficeFault>
        ensures { CarriesOut outgoing_of (refused reason (outgoing_of self.old)) self.old self.new result }
    {
        match self.state {
            OutgoingState::Waiting | OutgoingState::Closing => {
                self.state = OutgoingState::Refused(reason);
                Ok(())
            }
            _ => Err(OfficeFault::Refused(Cause::State)),
        }
    }

    // Records that it is sent again.
    pub(crate) fn reopen(&mut self) -> Result<(), OfficeFault>
        ensures { CarriesOut outgoing_of (reopened (outgoing_of self.old)) self.old self.new result }
    {
        match self.state {
            OutgoingState::Closing => {
                self.state = OutgoingState::Waiting;
                self.mark = 0;
                Ok(())
            }
            _ => Err(OfficeFault::Refused(Cause::State)),
        }
    }

    // The entry of the file, without its rows.
    pub(crate) fn entry(&self, alloc: Global, no: u64) -> Result<OutgoingEntry, AllocError>
        requires { IsSoundOutgoing (outgoing_of self.now) }
        ensures value { IfOk result (λ entry. entry ≡ outgoing_entry no (outgoing_of self.now)) }
        ensures within { IfOk result IsOutgoingWithin }
    {
        Ok(OutgoingEntry {
            no,
            identity: self.identity.again(),
            format: self.format,
            longest: self.longest,
            description: self.description.again(alloc)?,
            rows: self.rows.len() as u64,
            mark: self.mark,
            state: self.state,
        })
    }

    // Whether it is for this partner and is waiting or closing.
    pub(crate) fn is_on_its_way_to(&self, partner: &Name<25>) -> bool
        ensures { result ≡ is_on_its_way_to partner.now (outgoing_of self.now) }
    {
        match self.state {
            OutgoingState::Waiting | OutgoingState::Closing => {
                self.identity.destination.is(partner)
            }
            _ => false,
        }
    }
}
