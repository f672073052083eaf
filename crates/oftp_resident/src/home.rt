//! The life of a service: with its keeper, in a job, or in a session.

use crate::telling::Progress;
use oftp_engine::Role;
use oftp_life::{Guest, Life, LifeSession};
use oftp_outcomes::Trouble;
use oftp_partners::Book;
use oftp_register::Office;
use oftp_sockets::Keeper;
use std::alloc::Global;
use std::mem;

/// The life of a service.
#[derive(Drop)]
pub(crate) enum Home<'b, O: Office> {
    /// It is here for one job.
    Idle(Life<O>),
    /// It is in a session.
    Talking(LifeSession<'b, O>),
    /// The keeper has it.
    Away,
}

impl<'b, O: Office + Drop> Home<'b, O> {
    /// Has the keeper hand over the life, unless it is here.
    ///
    /// # Errors
    /// Those of the keeper.
    pub(crate) fn open(
        &mut self,
        rt: &HostRuntime,
        keeper: &mut impl Keeper<Life<O>>,
    ) -> Result<(), Trouble> {
        if let Home::Away = self {
            *self = Home::Idle(keeper.open(rt)?);
        }
        Ok(())
    }

    /// The life, if it is in no session. It isn't here from then on.
    pub(crate) fn take(&mut self) -> Option<Life<O>> {
        match mem::replace(self, Home::Away) {
            Home::Idle(life) => Some(life),
            other => {
                *self = other;
                None
            }
        }
    }

    /// The session of the life.
    pub(crate) fn session(&mut self) -> Option<&mut LifeSession<'b, O>> {
        match self {
            Home::Talking(session) => Some(session),
            _ => None,
        }
    }

    /// Whether a session goes on.
    pub(crate) fn progress(&self) -> Progress {
        match self {
            Home::Talking(_) => Progress::Talking,
            Home::Idle(_) | Home::Away => Progress::Over,
        }
    }

    /// Begins the session of a caller that was let in.
    pub(crate) fn admit(&mut self, alloc: Global, guest: Guest<'b>) {
        if let Some(life) = self.take() {
            *self = Home::Talking(life.admit(alloc, guest));
        }
    }

    /// Begins a session in a role, by a book.
    pub(crate) fn begin(&mut self, alloc: Global, book: &'b Book, role: Role<'b>) {
        if let Some(life) = self.take() {
            *self = Home::Talking(life.begin(alloc, book, role));
        }
    }

    /// Ends the session, if there is one.
    pub(crate) fn end(&mut self) {
        match mem::replace(self, Home::Away) {
            Home::Talking(session) => {
                let (life, _) = session.end();
                *self = Home::Idle(life);
            }
            other => *self = other,
        }
    }
}
