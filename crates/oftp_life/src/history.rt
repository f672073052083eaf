//! What a life has done. It exists only in proofs.

ghost use Rattle.std.specs.Prelude.{◌≡◌, List, []};
ghost use Rattle.std.specs.Borrow.{ftrue};
ghost use Rattle.oftp_life.specs.Acts.{Act};
ghost use Rattle.oftp_life.specs.Noted.{noted, with_call};

use crate::note::Note;
use oftp_engine::{Operator, RunFault, Told};
use oftp_partners::Book;
use std::marker::Model;

/// All that a life has done since it began. It takes no memory.
#[derive(Drop)]
pub struct History {
    pub ghost acts: { List Act },
}

impl Model for History {
    ghost also_owns = { λ _. ftrue };
}

impl History {
    // Nothing was done yet.
    pub(crate) fn new() -> History
        ensures { result.acts ≡ [] }
    {
        History {}
    }

    // The same with one more note.
    pub(crate) fn then(&self, _note: &Note<'_>) -> History
        ensures { result.acts ≡ noted self.now.acts _note.now }
    {
        History {}
    }

    // Notes an operator's call, by its result.
    pub(crate) fn note_call(
        &mut self,
        book: &Book,
        call: &Operator<'_>,
        answer: &Result<Told, RunFault>,
    )
        ensures { self.new.acts ≡ with_call book.now call.now self.old.acts answer.now }
    {
        match answer {
            Err(RunFault::Memory) => {}
            Ok(_) | Err(RunFault::Read | RunFault::Write | RunFault::Office) => {
                *self = self.then(&Note::Ordered(book, call));
            }
        }
    }
}
