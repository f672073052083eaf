//! A life: one office, and all jobs that are done with it, one after another.

ghost use Rattle.std.specs.Prelude.{◌≡◌, true, false};
ghost use Rattle.oftp_engine.specs.Operated.{Operates};
ghost use Rattle.oftp_engine.specs.Serving.{scene};
ghost use Rattle.oftp_life.specs.Lives.{HasLeft, ends_life, life_begun_with};
ghost use Rattle.oftp_life.specs.Noted.{with_call};

mod looking;
mod session;

use crate::history::History;
use crate::snapshot::Snapshot;
use crate::stage::ends_life;
use oftp_engine::{Operator, Port, RunFault, Told, operate};
use oftp_partners::Book;
use oftp_register::Office;
pub use session::LifeSession;
use std::alloc::Global;
use std::io::Write;
use std::marker::Model;

/// An office, and all that was done with it since the life began. It is between two jobs. After an error of the office the life is over.
#[derive(Drop)]
pub struct Life<O: Office> {
    office: O,
    began: Snapshot<O>,
    history: History,
    faults: u64,
    is_over: bool,
}

impl<O: Office> Model for Life<O> {
    ghost use Rattle.oftp_life.specs.Lives.{LifeData, Lives};

    ghost Value = { LifeData O };

    ghost view = { λ l. record { office = l.office; began = l.began.value; acts = l.history.acts; faults = l.faults; over = l.is_over } };

    ghost invariant = { λ l. (O.view l.office).clean → (O.view l.began.value).stands
        → Lives l.is_over (O.view l.began.value).register l.history.acts (O.view l.office) };
}

impl<O: Office> Life<O> {
    /// The life that begins with this office.
    pub fn new(office: O) -> Life<O>
        ensures { result ≡ life_begun_with office }
    {
        let began = Snapshot::of(&office);
        Life {
            office,
            began,
            history: History::new(),
            faults: 0,
            is_over: false,
        }
    }

    /// Whether the life is over.
    pub fn is_over(&self) -> bool
        ensures over { result ≡ self.now.over }
        // The headline.
        ensures leaves { HasLeft O.view self.now.began self.now.acts self.now.over self.now.office }
    {
        self.is_over
    }

    /// Carries out an operator's call, as [`operate`] does.
    ///
    /// # Errors
    ///
    /// Those of [`operate`]. After [`RunFault::Office`] the life is over, and each call returns this error.
    pub fn order<W: Write>(
        &mut self,
        alloc: Global,
        book: &Book,
        call: &Operator<'_>,
        writer: &mut Port<W>,
    ) -> Result<Told, RunFault>
        ensures began { self.new.began ≡ self.old.began }
        ensures acts { self.old.over ≡ false → self.new.acts ≡ with_call book.now call.now self.old.acts result }
        ensures over { self.old.over ≡ false → self.new.over ≡ ends_life result }
        ensures idle { self.old.over ≡ true → (self.new ≡ self.old) × (result ≡ Err RunFault.Office) }
        ensures operates { self.old.over ≡ false → (O.view self.new.office).clean → (O.view self.old.office).stands → Operates book.now call.now
            (scene W.contents (O.view self.old.office) writer.old) (scene W.contents (O.view self.new.office) writer.new) result }
        // The headline.
        ensures leaves { HasLeft O.view self.new.began self.new.acts self.new.over self.new.office }
        ensures clean { (O.view self.new.office).clean → (O.view self.old.office).clean }
    {
        if self.is_over {
            return Err(RunFault::Office);
        }
        let answer = operate(alloc, &mut self.office, book, call, writer);
        self.history.note_call(book, call, &answer);
        self.is_over = ends_life(&answer);
        answer
    }
}
