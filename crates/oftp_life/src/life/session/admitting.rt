//! A life admits a caller.

ghost use Rattle.std.specs.Prelude.{◌≡◌, ◌∷◌, true, false};
ghost use Rattle.oftp_engine.specs.Openings.{of_caller};
ghost use Rattle.oftp_life.specs.Acts.{Conversed};
ghost use Rattle.oftp_life.specs.Lives.{HasLeft, is_over_at};
ghost use Rattle.oftp_life.specs.Outboxes.{octets_out};

use super::LifeSession;
use crate::life::Life;
use crate::note::Note;
use crate::opening::Guest;
use crate::outbox::Outbox;
use crate::snapshot::Snapshot;
use crate::stage::{Stage, stage_of};
use oftp_engine::Port;
use oftp_register::Office;
use std::alloc::Global;

impl<O: Office> Life<O> {
    /// Begins the session of a caller that was let in. It goes on with all that the caller has sent, and hands out all that is to go to it.
    /// That is what the opening hasn't handed out, the station's SSID, and what follows. If the life is over nothing is to go out.
    pub fn admit<'b>(self, alloc: Global, guest: Guest<'b>) -> LifeSession<'b, O>
        ensures began { (result.began ≡ self.began) × (result.before ≡ self.office) }
        ensures acts { self.over ≡ false → result.acts ≡ Conversed (of_caller guest.entry.book) guest.entry.heard (octets_out result.out.inner) ∷ self.acts }
        ensures over { self.over ≡ true → (result.acts ≡ self.acts) × (result.stage ≡ Stage.Lost) }
        // The headline.
        ensures leaves { HasLeft O.view result.began result.acts (is_over_at result.stage) result.office }
        ensures clean { (O.view result.office).clean → (O.view self.office).clean }
    {
        let Life {
            mut office,
            began,
            history,
            faults,
            is_over,
        } = self;
        let Guest {
            book,
            mut conversation,
            mut out,
            heard,
        } = guest;
        let before = Snapshot::of(&office);
        if is_over {
            return LifeSession {
                office,
                began,
                history,
                before,
                conversation,
                out: Port::new(Outbox::new(alloc), 0),
                faults,
                stage: Stage::Lost,
            };
        }
        let went = conversation.go_on_in_parts(&mut office, &mut out);
        let history = history.then(&Note::Admitted(book, &heard, out.inner()));
        let stage = stage_of(&went);
        LifeSession {
            office,
            began,
            history,
            before,
            conversation,
            out,
            faults,
            stage,
        }
    }
}
