//! A session: each call is one step.

ghost use Rattle.std.specs.Prelude.{◌≡◌, ◌≢◌, ◌<◌, [], true, false, None, Some, Ok, Err, IfErr, IfOk, IsSome, option_map};
ghost use Rattle.oftp_session.specs.Settings.{setting_of};
ghost use Rattle.oftp_session.specs.Phases.{Phase, ending_of, esid_of, frame_of, framed};
ghost use Rattle.oftp_session.specs.Steps.{came, has_turn, turned};
ghost use Rattle.oftp_session.specs.Standings.{ended_as, is_closed, is_due, is_receiving, is_sending, standing_of, turns_left};
ghost use Rattle.oftp_session.specs.Calls.{Does, IsFailure, IsFull, Seen, Stands, heard, said, takes_memory};
ghost use Rattle.oftp_session.specs.Opening.{came_awaiting_ssid};
ghost use Rattle.oftp_session.specs.Callers.{code_of, greeting};
ghost use Rattle.oftp_session.specs.Recalling.{RecallsAt};
ghost use Rattle.oftp_session.specs.Inside.{InState, MakesFit, Takes};

use crate::frame::Frame;
use crate::listener::in_listener_idle;
use crate::opening::{Setting, in_awaiting_ssid, in_initiator_opening};
use crate::receiving::in_receiving;
use crate::sending::{in_awaiting_end, in_awaiting_start, in_sending, send_next};
use crate::speaker::{give_way, in_awaiting_rtr, speak};
use crate::state::State;
use oftp_partners::{Book, Partner};
use oftp_register::{Change, Name, Office, OfficeFault};
use oftp_wire::{Command, Count, SessionReason};
use std::alloc::Global;
use std::marker::Model;

/// Who ended a session, and the reason in its ESID (RFC 5024, section 5.3.11).
#[derive(Clone, Copy, Debug, Drop, PartialEq, Eq)]
pub enum Ending {
    /// The station.
    Own(SessionReason),
    /// The partner. Its reason code may be one that RFC 5024 doesn't list.
    Partner(Count<2>),
}

/// Why a call of a session failed.
#[derive(Clone, Copy, Debug, Drop, PartialEq, Eq)]
pub enum SessionFault {
    /// The session was over or broken before the call, which changed nothing.
    Ended,
    /// The office returned an error. Only [`Session::fail`] may follow.
    Office,
    /// Out of memory in the session itself. Only [`Session::fail`] may follow.
    Memory,
}

/// What is to be sent.
#[derive(Clone, Copy, Drop)]
pub enum Out<'a> {
    /// Nothing.
    Nothing,
    /// One whole frame.
    Send(&'a [u8]),
}

/// One session with a partner, by a book. All its calls have to use the same office, because the session remembers what it looked up.
#[derive(Drop)]
pub struct Session<'b> {
    setting: Setting<'b>,
    // `None` after an error.
    state: Option<State>,
    // Whether a response is next, once this was looked up. While RTR is missing, it isn't known.
    response_due: Option<bool>,
    frame: Frame,
}

impl<'b> Model for Session<'b> {
    ghost use Rattle.oftp_session.specs.Settings.{setting_of};
    ghost use Rattle.oftp_session.specs.Standings.{standing_held};
    ghost use Rattle.oftp_session.specs.Calls.{Seen};

    ghost Value = { Seen };

    ghost view = { λ s. record {
      setting = setting_of s.setting;
      standing = standing_held s.state;
      response_due = s.response_due;
      frame = s.frame;
    } };
}

impl From<OfficeFault> for SessionFault {
    ghost use Rattle.oftp_session.specs.declared.session.SessionFault.TheVariants.{Office};

    ghost from_gives = { λ _ fault. fault ≡ Office };

    fn from(_fault: OfficeFault) -> SessionFault {
        SessionFault::Office
    }
}

// Commits a change that the register accepts.
#[tactic(auto, using(crate::proofs::Passing::commit_failed))]
pub(crate) fn make<O: Office>(office: &mut O, change: Change<'_>) -> Result<(), SessionFault>
    ensures clean { (O.view office.new).clean → (O.view office.old).clean }
    ensures does { MakesFit change.entry (O.view office.old) (O.view office.new) result }
    ensures err { IfErr result (λ fault. fault ≡ SessionFault.Office) }
{
    office.commit(change)?;
    Ok(())
}

// Executes a command that arrived, by the state of the session.
#[tactic(auto, unfolding(crate::specs::Steps::came))]
fn came<O: Office>(
    setting: Setting<'_>,
    state: State,
    response_due: &mut Option<bool>,
    office: &mut O,
    command: &Command<'_>,
    frame: &mut Frame,
) -> Result<State, SessionFault>
    requires { is_closed (standing_of state) ≡ false }
    ensures clean { (O.view office.new).clean → (O.view office.old).clean }
    ensures takes { InState (O.view office.old) (O.view office.new) (standing_of state) response_due.old
        (λ p r. Takes (came (setting_of setting.entry) p r command.now) (O.view office.old) (O.view office.new) frame.new result) }
    ensures recalls { InState (O.view office.old) (O.view office.new) (standing_of state) response_due.old
        (λ p r. IfOk result (λ next. RecallsAt response_due.new (standing_of next) (O.view office.new).register)) }
    ensures err { IfErr result IsFailure }
    ensures spared { is_receiving (standing_of state) ≡ false → IfErr result (λ fault. fault ≢ SessionFault.Memory) }
    ensures light { takes_memory command.now ≡ false → IfErr result (λ fault. fault ≢ SessionFault.Memory) }
{
    *response_due = state.recalled(*response_due);
    match state {
        State::ResponderOpening | State::SpeakerIdle(_, _) | State::GivingWay(_) => {
            Ok(State::unexpected(command, frame))
        }
        State::InitiatorOpening => Ok(in_initiator_opening(setting, command, frame)),
        State::AwaitingSsid => Ok(in_awaiting_ssid(setting, command, frame)),
        State::ListenerIdle(contact) => in_listener_idle(setting, contact, office, command, frame),
        State::Receiving(contact, incoming) => in_receiving(
            contact,
            incoming,
            response_due,
            office,
            command,
            frame,
        ),
        State::AwaitingRtr(contact, number) => in_awaiting_rtr(
            contact, number, office, command, frame,
        ),
        State::AwaitingStart(contact, offered) => in_awaiting_start(
            contact, offered, office, command, frame,
        ),
        State::Sending(contact, outgoing) => in_sending(contact, outgoing, office, command, frame),
        State::AwaitingEnd(contact, number) => in_awaiting_end(
            contact, number, office, command, frame,
        ),
        State::EndedHere(_) | State::EndedThere(_) => unreachable!(),
    }
}

// Makes the command that is due in this state, or none.
#[tactic(auto, unfolding(crate::specs::Steps::turned))]
fn turned<O: Office>(
    setting: Setting<'_>,
    state: State,
    response_due: &mut Option<bool>,
    office: &mut O,
    frame: &mut Frame,
) -> Result<State, SessionFault>
    requires { is_closed (standing_of state) ≡ false }
    ensures clean { (O.view office.new).clean → (O.view office.old).clean }
    ensures takes { InState (O.view office.old) (O.view office.new) (standing_of state) response_due.old
        (λ p r. Takes (turned (setting_of setting.entry) p r) (O.view office.old) (O.view office.new) frame.new result) }
    ensures recalls { InState (O.view office.old) (O.view office.new) (standing_of state) response_due.old
        (λ p r. IfOk result (λ next. RecallsAt response_due.new (standing_of next) (O.view office.new).register)) }
    ensures err { IfErr result IsFailure }
    ensures spared { is_sending (standing_of state) ≡ false → IfErr result (λ fault. fault ≢ SessionFault.Memory) }
    ensures fewer { is_due (standing_of state) ≡ true
        → IfOk result (λ next. turns_left (standing_of next) < turns_left (standing_of state)) }
    ensures idle { is_due (standing_of state) ≡ false
        → (result ≡ Ok state) × (frame.new ≡ []) × (office.new ≡ office.old) × (response_due.new ≡ response_due.old) }
{
    match state {
        State::ResponderOpening => {
            frame.set_command(&Command::Ssrm);
            Ok(State::AwaitingSsid)
        }
        State::SpeakerIdle(contact, done) => speak(
            setting,
            contact,
            done,
            response_due,
            office,
            frame,
        ),
        State::GivingWay(contact) => Ok(give_way(contact, frame)),
        State::Sending(contact, outgoing) => {
            if outgoing.credit > 0 {
                return send_next(contact, outgoing, office, frame);
            }
            frame.clear();
            Ok(State::Sending(contact, outgoing))
        }
        _ => {
            frame.clear();
            Ok(state)
        }
    }
}

impl<'b> Session<'b> {
    ghost use Rattle.std.specs.Borrow.{sem};
    ghost use Rattle.oftp_session.specs.After.{After, AfterEnd, AfterStep, AfterTurn, InPhase};
    ghost use Rattle.oftp_session.specs.Callers.{AfterAlone};

    /// A session with a partner that calls, by the station's book. It allocates nothing.
    pub fn responder(alloc: Global, book: &'b Book) -> Session<'b>
        ensures setting { result.setting ≡ record { book = book.entry.now; called = None } }
        ensures stands { Stands Phase.ResponderOpening result }
        ensures fresh { result.frame ≡ [] }
    {
        Session {
            setting: Setting {
                alloc,
                book,
                called: None,
            },
            state: Some(State::ResponderOpening),
            response_due: None,
            frame: Frame::empty(alloc),
        }
    }

    /// A session with a partner that the station calls, by the station's book. It allocates nothing.
    pub fn initiator(alloc: Global, book: &'b Book, partner: &'b Partner) -> Session<'b>
        ensures setting { result.setting
            ≡ record { book = book.entry.now; called = Some partner.entry.now } }
        ensures stands { Stands Phase.InitiatorOpening result }
        ensures fresh { result.frame ≡ [] }
    {
        Session {
            setting: Setting {
                alloc,
                book,
                called: Some(partner),
            },
            state: Some(State::InitiatorOpening),
            response_due: None,
            frame: Frame::empty(alloc),
        }
    }

    /// Whether a command of the station is due. It allocates nothing.
    pub fn has_turn(&self) -> bool
        ensures phase { (p : Phase) → Stands p self.now → result ≡ has_turn p }
        ensures due { result ≡ is_due self.now.standing }
    {
        match &self.state {
            Some(state) => state.is_due(),
            None => false,
        }
    }

    /// Whether the exchange buffers of a file are being sent (RFC 5024, section 5.3.6). It allocates nothing.
    pub fn is_sending(&self) -> bool
        ensures { result ≡ is_sending self.now.standing }
    {
        match &self.state {
            Some(state) => state.is_sending(),
            None => false,
        }
    }

    /// How the session ended, if it did. It allocates nothing.
    pub fn ended(&self) -> Option<Ending>
        ensures phase { (p : Phase) → Stands p self.now → result ≡ ending_of p }
        ensures standing { result ≡ ended_as self.now.standing }
    {
        match &self.state {
            Some(state) => state.ended(),
            None => None,
        }
    }

    /// Greets a caller: makes the first turn of a responder, SSRM, and returns its frame as a borrowed slice (RFC 5024, section 5.3.1). No
    /// office is asked, because no greeting depends on a register. It allocates nothing. The session must be a responder's before its first
    /// step.
    pub fn greet(&mut self) -> Out<'_>
        requires { Stands Phase.ResponderOpening self.old }
        ensures said { said result ≡ framed greeting.output }
        ensures full { IsFull result }
        ensures* leaves { sem 𝓛 (After self.entry (AfterAlone greeting self.old)) }
    {
        self.frame.set_command(&Command::Ssrm);
        self.response_due = None;
        self.state = Some(State::AwaitingSsid);
        self.frame.out()
    }

    /// Judges a caller by its first command, and returns the frame that answers it as a borrowed slice. It is the station's SSID if the
    /// caller is let in, or ESID (RFC 5024, section 5.3.2). No office is asked, because no such answer depends on a register. The session
    /// must wait for SSID.
    pub fn judge(&mut self, command: &Command<'_>) -> Out<'_>
        requires { Stands Phase.AwaitingSsid self.old }
        ensures said { said result ≡ framed (came_awaiting_ssid self.old.setting command.now).output }
        ensures full { IsFull result }
        ensures* leaves { sem 𝓛 (After self.entry (AfterAlone (came_awaiting_ssid self.old.setting command.now) self.old)) }
    {
        self.response_due = None;
        self.state = Some(in_awaiting_ssid(self.setting, command, &mut self.frame));
        self.frame.out()
    }

    /// The code of the partner with whom the session is open, if it is. It allocates nothing.
    pub fn code(&self) -> Option<&Name<25>>
        ensures { option_map (λ name. name.now) result ≡ code_of self.now.standing }
    {
        match &self.state {
            Some(state) => state.code(),
            None => None,
        }
    }

    /// Executes a command that arrived, and returns the frame that answers it as a borrowed slice (RFC 5024, section 9). A change of the
    /// register is committed before its answer is returned.
    ///
    /// # Errors
    ///
    /// - [`SessionFault::Ended`]: the session was over or broken, and nothing is changed.
    /// - [`SessionFault::Office`]: the office returned an error. A crash leaves the register with the change of the command or without it.
    /// - [`SessionFault::Memory`]: out of memory, at a DATA or an EFID of the file that is received. The register is unchanged.
    ///
    /// After the last two only [`Session::fail`] may follow.
    pub fn on_command<O: Office>(
        &mut self,
        office: &mut O,
        command: &Command<'_>,
    ) -> Result<Out<'_>, SessionFault>
        ensures clean { (O.view office.new).clean → (O.view office.old).clean }
        ensures does { InPhase (O.view office.old) (O.view office.new) self.old
            (λ p r. Does (came self.old.setting p r command.now) (O.view office.old) (O.view office.new) (heard result)) }
        ensures full { IfOk result IsFull }
        ensures err { is_closed self.old.standing ≡ false → IfErr result IsFailure }
        // Memory is allocated only while a file is received, at DATA and EFID.
        ensures spared { is_receiving self.old.standing ≡ false → IfErr result (λ fault. fault ≢ SessionFault.Memory) }
        ensures light { takes_memory command.now ≡ false → IfErr result (λ fault. fault ≢ SessionFault.Memory) }
        ensures closed { is_closed self.old.standing ≡ true
            → (heard result ≡ Err SessionFault.Ended) × (office.new ≡ office.old) }
        ensures* leaves { sem 𝓛 (After self.entry
            (AfterStep (λ p r. came self.old.setting p r command.now) (O.view office.old) (O.view office.new) result self.old)) }
    {
        let Some(state) = self.state.take() else {
            return Err(SessionFault::Ended);
        };
        if state.is_closed() {
            self.state = Some(state);
            return Err(SessionFault::Ended);
        }
        self.state = Some(came(
            self.setting,
            state,
            &mut self.response_due,
            office,
            command,
            &mut self.frame,
        )?);
        Ok(self.frame.out())
    }

    /// Makes the command of the station that is due, and returns its frame as a borrowed slice. If none is due in an open session, there is
    /// no frame and nothing is changed. A change of the register is committed before its command is returned.
    ///
    /// # Errors
    ///
    /// - [`SessionFault::Ended`]: the session was over or broken, and nothing is changed.
    /// - [`SessionFault::Office`]: the office returned an error. A crash leaves the register with the change of the command or without it.
    /// - [`SessionFault::Memory`], only while a file is sent: there is no buffer for its DATA, or an allocation failed. The register is
    ///   unchanged.
    ///
    /// After the last two only [`Session::fail`] may follow.
    pub fn turn<O: Office>(&mut self, office: &mut O) -> Result<Out<'_>, SessionFault>
        ensures clean { (O.view office.new).clean → (O.view office.old).clean }
        ensures does { InPhase (O.view office.old) (O.view office.new) self.old
            (λ p r. Does (turned self.old.setting p r) (O.view office.old) (O.view office.new) (heard result)) }
        ensures full { IfOk result IsFull }
        ensures err { is_closed self.old.standing ≡ false → IfErr result IsFailure }
        // Memory is allocated only while a file is sent.
        ensures spared { is_sending self.old.standing ≡ false → IfErr result (λ fault. fault ≢ SessionFault.Memory) }
        ensures idle { is_due self.old.standing ≡ false → is_closed self.old.standing ≡ false
            → (heard result ≡ Ok []) × (office.new ≡ office.old) }
        ensures closed { is_closed self.old.standing ≡ true
            → (heard result ≡ Err SessionFault.Ended) × (office.new ≡ office.old) }
        ensures* leaves { sem 𝓛 (After self.entry
            (AfterTurn (turned self.old.setting) (O.view office.old) (O.view office.new) result self.old)) }
    {
        let Some(state) = self.state.take() else {
            return Err(SessionFault::Ended);
        };
        if state.is_closed() {
            self.state = Some(state);
            return Err(SessionFault::Ended);
        }
        self.state = Some(turned(
            self.setting,
            state,
            &mut self.response_due,
            office,
            &mut self.frame,
        )?);
        Ok(self.frame.out())
    }

    /// Ends the session with an ESID of this reason, also after an error, and returns its frame as a borrowed slice (RFC 5024, section
    /// 5.3.11). It allocates nothing.
    ///
    /// # Errors
    ///
    /// [`SessionFault::Ended`] where the session was over, and nothing is changed.
    pub fn fail(&mut self, reason: SessionReason) -> Result<Out<'_>, SessionFault>
        ensures open { ended_as self.old.standing ≡ None
            → heard result ≡ Ok (frame_of (esid_of reason)) }
        ensures ended { IsSome (ended_as self.old.standing)
            → heard result ≡ Err SessionFault.Ended }
        ensures full { IfOk result IsFull }
        ensures err { IfErr result (λ fault. fault ≡ SessionFault.Ended) }
        ensures* leaves { sem 𝓛 (After self.entry (AfterEnd reason result self.old)) }
    {
        if self.ended().is_some() {
            return Err(SessionFault::Ended);
        }
        self.state = Some(State::ended_here(reason, &mut self.frame));
        Ok(self.frame.out())
    }
}
