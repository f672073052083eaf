//! The opening of a session with a caller, before any life knows of it.

ghost use Rattle.std.specs.Prelude.{◌≡◌, ◌≢◌, ◌++◌, [], Some, Ok, IfErr, IfOk, OnErr, OnOk, option_map};
ghost use Rattle.oftp_session.specs.Callers.{code_of, greeting};
ghost use Rattle.oftp_session.specs.Phases.{framed};
ghost use Rattle.oftp_engine.specs.Conversation.{HeardMore};
ghost use Rattle.oftp_engine.specs.Openings.{IsAccepted};
ghost use Rattle.oftp_life.specs.Openings.{HeardOrNot, IsOpening, IsSameOpening, IsVerdict, greeted_as, guest_from};
ghost use Rattle.oftp_life.specs.Outboxes.{HandsAllOut, octets_out};

use crate::octet_log::{OctetLog, Piece};
use crate::outbox::Outbox;
use oftp_engine::{Admission, Conversation, Port, Role, RunFault};
use oftp_partners::Book;
use oftp_register::Name;
use std::alloc::Global;
use std::marker::Model;

/// A session with a caller, up to the answer to its first command (RFC 5024, section 5.3.2). It needs no office, so no life knows of it
/// before the caller is let in.
#[derive(Drop)]
pub struct Opening<'b> {
    book: &'b Book,
    conversation: Conversation<'b>,
    out: Port<Outbox>,
    heard: OctetLog,
    stage: Result<Admission, RunFault>,
}

impl<'b> Model for Opening<'b> {
    ghost use Rattle.oftp_life.specs.Openings.{IsOpening, OpeningData};

    ghost Value = { OpeningData };

    ghost view = { λ o. record { book = o.book.now; heard = o.heard.octets; out = o.out; dialogue = o.conversation; stage = o.stage } };

    ghost invariant = { λ o. IsOpening o.book.now o.heard.octets o.out o.conversation o.stage };
}

/// A caller that was let in, with all that it has sent, and what is to go to it.
#[derive(Drop)]
pub struct Guest<'b> {
    pub(crate) book: &'b Book,
    pub(crate) conversation: Conversation<'b>,
    pub(crate) out: Port<Outbox>,
    pub(crate) heard: OctetLog,
}

impl<'b> Model for Guest<'b> {
    ghost use Rattle.oftp_engine.specs.declared.serving.Admission.TheVariants.{LetIn};
    ghost use Rattle.oftp_life.specs.Openings.{GuestData, HasHeardOf};

    ghost Value = { GuestData };

    ghost view = { λ g. record { book = g.book.now; heard = g.heard.octets; out = g.out; dialogue = g.conversation } };

    ghost invariant = { λ g. HasHeardOf g.book.now g.heard.octets g.out g.conversation LetIn };
}

// What a caller amounts to that has sent nothing, after its greeting had this result.
fn greeted_as(answer: &Result<(), RunFault>) -> Result<Admission, RunFault>
    ensures { result ≡ greeted_as answer.now }
{
    match answer {
        Ok(()) => Ok(Admission::Undecided),
        Err(fault) => Err(*fault),
    }
}

// Hears octets, and notes them.
fn take(
    conversation: &mut Conversation<'_>,
    heard: &mut OctetLog,
    octets: &[u8],
) -> Result<(), RunFault>
    ensures more { OnOk result (HeardMore conversation.old conversation.new octets.now) }
    ensures noted { OnOk result (heard.new.octets ≡ heard.old.octets ++ octets.now) }
    ensures err { OnErr result ((conversation.new ≡ conversation.old) × (heard.new ≡ heard.old)) }
    ensures memory { IfErr result (λ fault. fault ≡ RunFault.Memory) }
{
    conversation.hear(octets)?;
    *heard = heard.then(&Piece { octets });
    Ok(())
}

impl<'b> Opening<'b> {
    /// Greets a caller, by a book: SSRM is to go out.
    pub fn new(alloc: Global, book: &'b Book) -> Opening<'b>
        ensures book { result.book ≡ book.entry.now }
        ensures heard { result.heard ≡ [] }
        ensures said { IfOk result.stage (λ admission. (admission ≡ Admission.Undecided) × (octets_out result.out.inner ≡ framed greeting.output)) }
        ensures err { IfErr result.stage (λ fault. fault ≡ RunFault.Write) }
    {
        let mut conversation = Conversation::new(alloc, book, Role::Responder);
        let mut out = Port::new(Outbox::new(alloc), 0);
        let answer = conversation.greet(&mut out);
        let stage = greeted_as(&answer);
        Opening {
            book,
            conversation,
            out,
            heard: OctetLog::new(),
            stage,
        }
    }

    /// What all octets that it has heard amount to.
    ///
    /// # Errors
    ///
    /// [`RunFault::Write`]: it was cut short, out of memory for what is to go out.
    pub fn admission(&self) -> Result<Admission, RunFault>
        ensures stage { result ≡ self.now.stage }
        // The octets decide, in whatever pieces they came.
        ensures verdict { IsVerdict self.now result }
        // What was handed out, and what is to go out: the greeting, and the answer to the first command once that is whole.
        ensures holds { IsOpening self.now.book self.now.heard self.now.out self.now.dialogue self.now.stage }
    {
        self.stage
    }

    /// Hears the next octets of the caller, and judges it once its first command is whole. It returns what all octets that it has heard amount
    /// to. Octets after the SSID are kept for the session. An opening that has sent its caller away, or was cut short, hears nothing more.
    ///
    /// # Errors
    ///
    /// - [`RunFault::Memory`] where there is no room for the octets. It is as it was.
    /// - [`RunFault::Write`]: out of memory for what is to go out. It is cut short, and each call returns this error.
    pub fn hear(&mut self, octets: &[u8]) -> Result<Admission, RunFault>
        ensures undecided { self.old.stage ≡ Ok Admission.Undecided → HeardOrNot self.old self.new octets.now result }
        ensures let_in { self.old.stage ≡ Ok Admission.LetIn → HeardOrNot self.old self.new octets.now result }
        ensures idle { self.old.stage ≢ Ok Admission.Undecided → self.old.stage ≢ Ok Admission.LetIn → (self.new ≡ self.old) × (result ≡ self.old.stage) }
        // The octets decide, in whatever pieces they came.
        ensures verdict { IsVerdict self.new result }
    {
        match self.stage {
            Ok(Admission::Undecided) => self.judge(octets),
            Ok(Admission::LetIn) => self.keep(octets),
            Ok(Admission::SentAway(_)) | Err(_) => self.stage,
        }
    }

    // Hears octets while it is undecided.
    fn judge(&mut self, octets: &[u8]) -> Result<Admission, RunFault>
        requires { self.old.stage ≡ Ok Admission.Undecided }
        ensures heard { HeardOrNot self.old self.new octets.now result }
        ensures verdict { IsVerdict self.new result }
    {
        take(&mut self.conversation, &mut self.heard, octets)?;
        self.stage = self.conversation.judge(&mut self.out);
        self.stage
    }

    // Keeps the octets of a caller that was let in.
    fn keep(&mut self, octets: &[u8]) -> Result<Admission, RunFault>
        requires { self.old.stage ≡ Ok Admission.LetIn }
        ensures heard { HeardOrNot self.old self.new octets.now result }
        ensures verdict { IsVerdict self.new result }
    {
        take(&mut self.conversation, &mut self.heard, octets)?;
        Ok(Admission::LetIn)
    }

    /// The code of the partner that was let in, as the book has it.
    pub fn code(&self) -> Option<&Name<25>>
        ensures let_in { self.now.stage ≡ Ok Admission.LetIn → (accepted : IsAccepted self.now.book self.now.heard)
            → option_map (λ name. name.now) result ≡ Some accepted.agreement.partner.code }
        ensures code { option_map (λ name. name.now) result ≡ code_of self.now.dialogue.seen.standing }
    {
        self.conversation.code()
    }

    /// Takes the octets that are to go to the caller: SSRM, and ESID where it is sent away. Once it is let in, what is left stays for its
    /// session to hand out.
    pub fn take_out(&mut self, alloc: Global) -> Vec<u8>
        ensures kept { self.old.stage ≡ Ok Admission.LetIn → (result.items ≡ []) × (self.new ≡ self.old) }
        ensures handed { self.old.stage ≢ Ok Admission.LetIn → HandsAllOut self.old.out.inner self.new.out.inner result.items }
        ensures same { IsSameOpening self.old self.new }
    {
        if let Ok(Admission::LetIn) = self.stage {
            return Vec::new(alloc);
        }
        let mut out = self.out.replace(Outbox::new(alloc));
        let taken = out.take(alloc);
        let _ = self.out.replace(out);
        taken
    }

    /// The caller as a guest, if it was let in.
    ///
    /// # Errors
    ///
    /// The opening itself, where its caller wasn't let in.
    pub fn into_guest(self) -> Result<Guest<'b>, Opening<'b>>
        ensures let_in { IfOk result (λ guest. (self.entry.stage ≡ Ok Admission.LetIn) × (guest ≡ guest_from self.entry)) }
        ensures err { IfErr result (λ opening. (self.entry.stage ≢ Ok Admission.LetIn) × (opening ≡ self.entry)) }
    {
        match self.stage {
            Ok(Admission::LetIn) => {
                let Opening {
                    book,
                    conversation,
                    out,
                    heard,
                    stage: _,
                } = self;
                Ok(Guest {
                    book,
                    conversation,
                    out,
                    heard,
                })
            }
            Ok(Admission::Undecided | Admission::SentAway(_)) | Err(_) => Err(self),
        }
    }
}
