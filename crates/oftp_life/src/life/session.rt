//! A session of a life.

ghost use Rattle.std.specs.Prelude.{◌≡◌, ◌≢◌, [], ◌∷◌, ◌++◌, true, false};
ghost use Rattle.oftp_engine.specs.Served.{setting_of};
ghost use Rattle.oftp_life.specs.Acts.{Conversed};
ghost use Rattle.oftp_life.specs.Lives.{HasLeft, Heard, IsSameButForOut, IsSession, answer_of, has_ceased, is_over_at, life_after};
ghost use Rattle.oftp_life.specs.Outboxes.{octets_out};

mod admitting;
mod looking;

use super::Life;
use crate::history::History;
use crate::note::Note;
use crate::outbox::Outbox;
use crate::snapshot::Snapshot;
use crate::stage::{Stage, stage_of};
use oftp_engine::{Conversation, Port, Role, RunFault};
use oftp_partners::Book;
use oftp_register::Office;
use oftp_session::Ending;
use std::alloc::Global;
use std::marker::Model;

/// A session of a life, with the octets that it hands out. Nothing but the session uses the office until [`end`].
///
/// [`end`]: LifeSession::end
#[derive(Drop)]
pub struct LifeSession<'b, O: Office> {
    office: O,
    began: Snapshot<O>,
    history: History,
    before: Snapshot<O>,
    conversation: Conversation<'b>,
    out: Port<Outbox>,
    faults: u64,
    stage: Stage,
}

impl<'b, O: Office> Model for LifeSession<'b, O> {
    ghost use Rattle.oftp_life.specs.Lives.{IsSession, LifeSessionData};

    ghost Value = { LifeSessionData O };

    ghost view = { λ t. record {
      office = t.office;
      began = t.began.value;
      acts = t.history.acts;
      before = t.before.value;
      out = t.out;
      dialogue = t.conversation;
      faults = t.faults;
      stage = t.stage;
    } };

    ghost invariant = { λ t. IsSession O.view t.began.value t.history.acts t.before.value t.office t.out t.conversation t.stage };
}

impl<O: Office> Life<O> {
    /// Begins a session by a book and in a role. What is due before the partner says anything is to go out.
    pub fn begin<'b>(self, alloc: Global, book: &'b Book, role: Role<'b>) -> LifeSession<'b, O>
        ensures began { (result.began ≡ self.began) × (result.before ≡ self.office) }
        ensures acts { self.over ≡ false → result.acts ≡ Conversed (setting_of book.entry.now role.entry) [] (octets_out result.out.inner) ∷ self.acts }
        ensures over { self.over ≡ true → (result.acts ≡ self.acts) × (result.stage ≡ Stage.Lost) }
        // The headline.
        ensures leaves { HasLeft O.view result.began result.acts (is_over_at result.stage) result.office }
        ensures clean { (O.view result.office).clean → (O.view self.office).clean }
    {
        let Life {
            office,
            began,
            history,
            faults,
            is_over,
        } = self;
        let before = Snapshot::of(&office);
        let conversation = Conversation::new(alloc, book, role);
        let out = Port::new(Outbox::new(alloc), 0);
        if is_over {
            return LifeSession {
                office,
                began,
                history,
                before,
                conversation,
                out,
                faults,
                stage: Stage::Lost,
            };
        }
        let mut office = office;
        let mut out = out;
        let mut conversation = conversation;
        let went = conversation.go_on_in_parts(&mut office, &mut out);
        let history = history.then(&Note::Began(book, role, out.inner()));
        let stage = stage_of(&went);
        LifeSession {
            office,
            began,
            history,
            before,
            conversation,
            out,
            faults,
            stage,
        }
    }
}

impl<O: Office> LifeSession<'_, O> {
    /// How it stands.
    pub fn stage(&self) -> Stage
        ensures stage { result ≡ self.now.stage }
        // What is out, the register, and what a crash leaves are what its octets and its result say.
        ensures holds { IsSession O.view self.now.began self.now.acts self.now.before self.now.office self.now.out self.now.dialogue self.now.stage }
        // The headline.
        ensures leaves { HasLeft O.view self.now.began self.now.acts (is_over_at self.now.stage) self.now.office }
    {
        self.stage
    }

    /// Hears the next octets of the partner, if there are any, and goes on as far as they reach. It returns how the session ended, or `None`
    /// if it waits for more, or sends a file. Then it made some exchange buffers, and makes the next ones once it is called again. A session
    /// that can't go on returns the same again.
    ///
    /// # Errors
    ///
    /// - [`RunFault::Memory`] where there is no room for the octets: the session is as it was, and waits or sends.
    /// - Those of [`Conversation::go_on_in_parts`]. The session is then cut short; after [`RunFault::Office`] its life is over.
    pub fn hear(&mut self, octets: &[u8]) -> Result<Option<Ending>, RunFault>
        ensures began { self.new.began ≡ self.old.began }
        ensures idle { has_ceased self.old.stage ≡ true → (self.new ≡ self.old) × (result ≡ answer_of self.old.stage) }
        ensures heard { has_ceased self.old.stage ≡ false → Heard self.old self.new octets.now result }
        // The headline.
        ensures leaves { HasLeft O.view self.new.began self.new.acts (is_over_at self.new.stage) self.new.office }
        ensures clean { (O.view self.new.office).clean → (O.view self.old.office).clean }
    {
        if self.stage.has_ceased() {
            return self.stage.answer();
        }
        self.take(octets)
    }

    // Hears octets while it can go on.
    fn take(&mut self, octets: &[u8]) -> Result<Option<Ending>, RunFault>
        requires { has_ceased self.old.stage ≡ false }
        ensures began { self.new.began ≡ self.old.began }
        ensures heard { Heard self.old self.new octets.now result }
        ensures leaves { HasLeft O.view self.new.began self.new.acts (is_over_at self.new.stage) self.new.office }
        ensures clean { (O.view self.new.office).clean → (O.view self.old.office).clean }
    {
        self.conversation.hear(octets)?;
        let went = self
            .conversation
            .go_on_in_parts(&mut self.office, &mut self.out);
        self.history = self.history.then(&Note::Heard(octets, self.out.inner()));
        self.stage = stage_of(&went);
        self.stage.answer()
    }

    /// Takes the octets that are to go to the partner. The session stays as it is.
    pub fn take_out(&mut self, alloc: Global) -> Vec<u8>
        ensures handed { result.items ≡ self.old.out.inner.waiting.items }
        ensures taken { self.new.out.inner.taken.octets ≡ octets_out self.old.out.inner }
        ensures waiting { self.new.out.inner.waiting.items ≡ [] }
        ensures same { IsSameButForOut self.old self.new }
    {
        let mut out = self.out.replace(Outbox::new(alloc));
        let taken = out.take(alloc);
        let _ = self.out.replace(out);
        taken
    }

    /// Ends the session where it stands, whatever the cause: it has ended, or its input has, or it is given up. Returns its life, and the
    /// octets that are still to go to the partner.
    pub fn end(self) -> (Life<O>, Outbox)
        ensures life { result.0 ≡ life_after self.entry }
        ensures out { result.1 ≡ self.entry.out.inner }
        // The headline.
        ensures leaves { HasLeft O.view self.entry.began self.entry.acts (is_over_at self.entry.stage) self.entry.office }
    {
        let LifeSession {
            office,
            began,
            history,
            before: _,
            conversation: _,
            out,
            faults,
            stage,
        } = self;
        (
            Life {
                office,
                began,
                history,
                faults,
                is_over: stage.is_over(),
            },
            out.into_inner(),
        )
    }
}
