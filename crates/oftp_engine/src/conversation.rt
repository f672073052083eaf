//! A session that gets its octets in pieces.

ghost use Rattle.std.specs.Prelude.{◌≡◌, ◌≢◌, [], OnErr, OnOk, IfErr, option_map};
ghost use Rattle.oftp_partners.specs.Book.{BookData};
ghost use Rattle.oftp_session.specs.Callers.{code_of};
ghost use Rattle.oftp_session.specs.Calls.{Stands};
ghost use Rattle.oftp_session.specs.Phases.{Phase};
ghost use Rattle.oftp_session.specs.Standings.{Broken};
ghost use Rattle.oftp_io.specs.Ports.{Puts};
ghost use Rattle.oftp_engine.specs.Conversation.{ComesSoFar, ComesTo, Continues, HeardMore, IsFresh, IsOwn};
ghost use Rattle.oftp_engine.specs.Openings.{IsGreeted, Judges, of_caller};
ghost use Rattle.oftp_engine.specs.Served.{WriterTold, setting_of};
ghost use Rattle.oftp_engine.specs.Serving.{FailsOnlyBy, WasClean, scene};

use crate::serving::{Admission, Going, Pace, Role, RunFault, drive, greet, judge, opened};
use oftp_codec::{Deframer, LONGEST_FRAME};
use oftp_io::Port;
use oftp_partners::Book;
use oftp_register::{Name, Office};
use oftp_session::{Ending, Session};
use std::alloc::Global;
use std::io::Write;
use std::marker::Model;

/// One session with a partner, over any office and any writer. It gets octets in pieces of any length, goes on as far as they reach, and
/// waits for more.
///
/// While it waits, its caller may use the office. Look-ups that return no error don't affect what [`go_on`] promises.
///
/// [`go_on`]: Conversation::go_on
#[derive(Drop)]
pub struct Conversation<'b> {
    session: Session<'b>,
    stream: Deframer,
}

impl<'b> Model for Conversation<'b> {
    ghost use Rattle.oftp_engine.specs.Conversation.{Dialogue};

    ghost Value = { Dialogue };

    ghost view = { λ c. record { seen = c.session; stream = c.stream } };
}

impl<'b> Conversation<'b> {
    /// A new conversation, by a book and in a role. It allocates nothing.
    pub fn new(alloc: Global, book: &'b Book, role: Role<'b>) -> Conversation<'b>
        ensures fresh { IsFresh (setting_of book.entry.now role.entry) result }
        ensures unbroken { result.seen.standing ≢ Broken }
    {
        Conversation {
            session: opened(alloc, book, role),
            stream: Deframer::new(alloc, LONGEST_FRAME),
        }
    }

    /// Executes all commands that are complete and all turns that are due, and writes the answers. It returns how the session ended, or
    /// `None` where it waits for more octets. It must not be called after an error.
    ///
    /// At each `None` three things are those of the session over all octets heard so far. They are the octets written since the conversation
    /// began, the register, and what a crash leaves. The same holds at the end.
    ///
    /// # Errors
    ///
    /// Those of [`serve`](crate::serve) except [`RunFault::Read`], with what they leave.
    pub fn go_on<O: Office, W: Write>(
        &mut self,
        office: &mut O,
        writer: &mut Port<W>,
    ) -> Result<Option<Ending>, RunFault>
        requires { self.old.seen.standing ≢ Broken }
        ensures goes { Continues O.view W.contents self.old office.old writer.old office.new
            (λ setting given first. ComesTo setting given self.new first (scene W.contents (O.view office.new) writer.new) result) }
        ensures clean { WasClean (O.view office.old) (O.view office.new) }
        ensures own { IfErr result IsOwn }
        ensures unbroken { OnOk result (self.new.seen.standing ≢ Broken) }
        ensures out { Puts W.contents writer.old writer.new }
        ensures told { WriterTold writer.old writer.new result }
    {
        let going = drive(
            &mut self.session,
            office,
            &mut self.stream,
            writer,
            Pace::Whole,
        )?;
        Ok(going.ending())
    }

    /// Goes on as [`go_on`] does, but sends a file in parts. After some exchange buffers it returns [`Going::Sends`] if there is credit for
    /// more, and the next call makes these. It must not be called after an error.
    ///
    /// At each `Sends` three things are those of the session between two of its steps. They are the octets written since the conversation
    /// began, the register, and what a crash leaves.
    ///
    /// # Errors
    ///
    /// Those of [`go_on`], with what they leave.
    ///
    /// [`go_on`]: Conversation::go_on
    pub fn go_on_in_parts<O: Office, W: Write>(
        &mut self,
        office: &mut O,
        writer: &mut Port<W>,
    ) -> Result<Going, RunFault>
        requires { self.old.seen.standing ≢ Broken }
        ensures goes { Continues O.view W.contents self.old office.old writer.old office.new
            (λ setting given first. ComesSoFar setting given self.new first (scene W.contents (O.view office.new) writer.new) result) }
        ensures clean { WasClean (O.view office.old) (O.view office.new) }
        ensures own { IfErr result IsOwn }
        ensures unbroken { OnOk result (self.new.seen.standing ≢ Broken) }
        ensures out { Puts W.contents writer.old writer.new }
        ensures told { WriterTold writer.old writer.new result }
    {
        drive(
            &mut self.session,
            office,
            &mut self.stream,
            writer,
            Pace::Parts,
        )
    }

    /// Greets a caller: writes SSRM. No office is asked. The conversation must be a responder's before its first step.
    ///
    /// # Errors
    ///
    /// [`RunFault::Write`]: the writer returned an error, or accepted no octet. It must not be called again after that.
    pub fn greet<W: Write>(&mut self, writer: &mut Port<W>) -> Result<(), RunFault>
        requires { Stands Phase.ResponderOpening self.old.seen }
        ensures greets { (book : BookData) → IsFresh (of_caller book) self.old → OnOk result (IsGreeted W.contents book [] self.new writer.old writer.new) }
        ensures err { FailsOnlyBy RunFault.Write result }
        ensures out { Puts W.contents writer.old writer.new }
        ensures told { WriterTold writer.old writer.new result }
    {
        greet(&mut self.session, writer)
    }

    /// Judges a caller that was greeted by what it has sent so far: executes its first command, if that is whole, and writes the answer. No
    /// office is asked. What follows the command stays unread; [`go_on`] goes on with it where the caller is let in.
    ///
    /// # Errors
    ///
    /// [`RunFault::Write`]: the writer returned an error, or accepted no octet. It must not be called again after that.
    ///
    /// [`go_on`]: Conversation::go_on
    pub fn judge<W: Write>(&mut self, writer: &mut Port<W>) -> Result<Admission, RunFault>
        requires { Stands Phase.AwaitingSsid self.old.seen }
        ensures judges { Judges W.contents self.old writer.old self.new writer.new result }
        ensures err { FailsOnlyBy RunFault.Write result }
        ensures out { Puts W.contents writer.old writer.new }
        ensures told { WriterTold writer.old writer.new result }
    {
        judge(&mut self.session, &mut self.stream, writer)
    }

    /// The code of the partner with whom the session is open, if it is.
    pub fn code(&self) -> Option<&Name<25>>
        ensures { option_map (λ name. name.now) result ≡ code_of self.now.seen.standing }
    {
        self.session.code()
    }

    /// Appends the next octets of the stream. They are read by the next [`go_on`].
    ///
    /// # Errors
    ///
    /// [`RunFault::Memory`] where there is no room for the octets. The conversation is then unchanged. After octets that were no frame
    /// ended the session, each call returns this error; no clause says this.
    ///
    /// [`go_on`]: Conversation::go_on
    pub fn hear(&mut self, octets: &[u8]) -> Result<(), RunFault>
        ensures heard { OnOk result (HeardMore self.old self.new octets.now) }
        ensures err { OnErr result (self.new ≡ self.old) }
        ensures memory { FailsOnlyBy RunFault.Memory result }
        ensures seen { self.new.seen ≡ self.old.seen }
    {
        if self.stream.feed(octets).is_err() {
            return Err(RunFault::Memory);
        }
        Ok(())
    }
}
