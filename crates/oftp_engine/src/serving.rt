//! A session over any reader and any writer.

ghost use Rattle.std.specs.Prelude.{◌≡◌, ◌≢◌, ◌<◌, ◌+◌, ℕ, true, false, List, None, Ok, OnOk, IfErr, IfOk, is_ok};
ghost use Rattle.oftp_codec.specs.Kinds.{command_of};
ghost use Rattle.oftp_register.specs.Plain.{view_of};
ghost use Rattle.oftp_session.specs.Callers.{greeting};
ghost use Rattle.oftp_session.specs.Opening.{came_awaiting_ssid};
ghost use Rattle.oftp_session.specs.Phases.{Phase, ending_of, frame_of, esid_of};
ghost use Rattle.oftp_session.specs.Steps.{opening};
ghost use Rattle.oftp_session.specs.Calls.{IsFailure, Stands, said};
ghost use Rattle.oftp_session.specs.Standings.{Broken, is_closed, is_due, is_sending, turns_left};
ghost use Rattle.oftp_io.specs.Ports.{Sent, Puts};
ghost use Rattle.oftp_engine.specs.Runs.{ended_as};
ghost use Rattle.oftp_engine.specs.Served.{Gave, InputEnded, ReaderTold, Serves, setting_of, WriterErr, WriterTold};
ghost use Rattle.oftp_engine.specs.Serving.{OnCleanStore, WasClean, scene};
ghost use Rattle.oftp_engine.specs.Conversation.{dialogue};
ghost use Rattle.oftp_engine.specs.Openings.{Answered, Judges, admission_by, answer_to};
ghost use Rattle.oftp_engine.specs.InsideServing.{Behaves, BrokeOff, HasTurn, LastWords, MakesStep, MakesTurns, NotOver, OnlyWrites, Drives, ending_in, pauses, run_fault, step_at, turn_at};

use crate::conversation::Conversation;
use crate::limits::{MOST_TURNS, PIECE};
use oftp_codec::{Deframer, parse};
use oftp_io::Port;
use oftp_partners::{Book, Partner};
use oftp_register::{Office, PlainOffice};
use oftp_session::{Ending, Out, Session, SessionFault};
use oftp_wire::{Command, Count, SessionReason};
use std::alloc::Global;
use std::io::{Read, Write};

/// How a session ended (RFC 5024, section 5.3.11).
#[derive(Clone, Copy, Debug, Drop, PartialEq, Eq)]
pub enum End {
    /// The station sent ESID with this reason.
    Own(SessionReason),
    /// The partner sent ESID with this reason code.
    Partner(Count<2>),
    /// The input ended.
    Input,
}

impl From<Ending> for End {
    ghost from_gives = { λ ending end. end ≡ ended_as ending };

    fn from(ending: Ending) -> End {
        match ending {
            Ending::Own(reason) => End::Own(reason),
            Ending::Partner(reason) => End::Partner(reason),
        }
    }
}

/// Which side calls (RFC 5024, section 4.2.1).
#[derive(Clone, Copy, Drop)]
pub enum Role<'b> {
    /// A partner calls the station.
    Responder,
    /// The station calls this partner.
    Initiator(&'b Partner),
}

/// What the octets of a caller amount to.
#[derive(Clone, Copy, Debug, Drop, PartialEq, Eq)]
pub enum Admission {
    /// They have no whole command yet.
    Undecided,
    /// The session ended like this, so the caller is sent away.
    SentAway(Ending),
    /// They begin with an SSID that the book accepts, so the caller is let in.
    LetIn,
}

/// How far a session went over the octets that it has.
#[derive(Clone, Copy, Debug, Drop, PartialEq, Eq)]
pub enum Going {
    /// It needs more octets.
    Waits,
    /// It sends a file, and can go on without more octets.
    Sends,
    /// It has ended.
    Ended(Ending),
}

impl Going {
    // How the session ended, if it did.
    pub(crate) fn ending(self) -> Option<Ending>
        ensures { result ≡ ending_in self }
    {
        match self {
            Going::Waits | Going::Sends => None,
            Going::Ended(ending) => Some(ending),
        }
    }
}

/// How many exchange buffers of a file are sent in a row.
#[derive(Clone, Copy, Drop)]
pub(crate) enum Pace {
    /// As many as there is credit for.
    Whole,
    /// A bounded number, so that what they take can go out before the next ones are made.
    Parts,
}

// Whether the turns that are due were made.
#[derive(Clone, Copy, Drop)]
enum Turns {
    // All of them, so many since the session went on.
    Made(u32),
    // Some, and more exchange buffers of a file are due.
    Left,
}

/// Why a session or a call was cut short.
#[derive(Clone, Copy, Debug, Drop, PartialEq, Eq)]
pub enum RunFault {
    /// The reader returned an error.
    Read,
    /// The writer returned an error, or accepted no octet.
    Write,
    /// The office returned an error.
    Office,
    /// Out of memory.
    Memory,
}

// Writes the frame that a session returned, if there is one.
#[tactic(auto, using(oftp_io::proofs::Puts::puts_none, oftp_io::proofs::Puts::puts_on, oftp_io::proofs::Puts::puts_sent))]
fn write_out<W: Write>(port: &mut Port<W>, out: Out<'_>) -> Result<(), RunFault>
    ensures sent { Sent W.contents port.old port.new (said out.entry) (is_ok result) }
    ensures writes { OnlyWrites W.contents port.old port.new result }
{
    match out {
        Out::Nothing => Ok(()),
        Out::Send(frame) => {
            if port.send(frame) {
                Ok(())
            } else {
                Err(RunFault::Write)
            }
        }
    }
}

// Ends a session that is still open by sending ESID.
#[tactic(auto, using(crate::proofs::Phases::open_goes_on, oftp_io::proofs::Puts::puts_none, oftp_io::proofs::Puts::puts_on, oftp_io::proofs::Puts::puts_sent))]
fn end_with<W: Write>(
    session: &mut Session<'_>,
    port: &mut Port<W>,
    reason: SessionReason,
) -> Result<(), RunFault>
    requires { is_closed session.old.standing ≡ false }
    ensures sent { Sent W.contents port.old port.new (frame_of (esid_of reason)) (is_ok result) }
    ensures over { OnOk result (Stands (Phase.EndedHere reason) session.new) }
    ensures setting { session.new.setting ≡ session.old.setting }
    ensures writes { OnlyWrites W.contents port.old port.new result }
{
    match session.fail(reason) {
        Ok(out) => write_out(port, out),
        Err(_) => unreachable!(),
    }
}

// Sends ESID 08 after an error of the office. An error of this write isn't returned.
#[tactic(auto, using(oftp_io::proofs::Puts::puts_none, oftp_io::proofs::Puts::puts_on, oftp_io::proofs::Puts::puts_sent))]
fn last_words<W: Write>(session: &mut Session<'_>, port: &mut Port<W>)
    requires { session.old.standing ≡ Broken }
    ensures words { LastWords W.contents port.old port.new }
    ensures out { Puts W.contents port.old port.new }
    ensures told { WriterErr port.old port.new RunFault.Office }
{
    match session.fail(SessionReason::ResourcesNotAvailable) {
        Ok(out) => {
            let _ = write_out(port, out);
        }
        Err(_) => unreachable!(),
    }
}

// Cuts a session short. If the office returned the error, ESID 08 is sent.
#[tactic(auto, using(oftp_io::proofs::Puts::puts_none, oftp_io::proofs::Puts::puts_on, oftp_io::proofs::Puts::puts_sent))]
fn break_off<W: Write>(
    session: &mut Session<'_>,
    port: &mut Port<W>,
    fault: SessionFault,
) -> RunFault
    requires told { IsFailure fault }
    requires broken { session.old.standing ≡ Broken }
    ensures fault { result ≡ run_fault fault }
    ensures broke { BrokeOff W.contents port.old port.new fault }
    ensures out { Puts W.contents port.old port.new }
    ensures told { WriterErr port.old port.new result }
{
    match fault {
        SessionFault::Office => {
            last_words(session, port);
            RunFault::Office
        }
        SessionFault::Memory => RunFault::Memory,
        SessionFault::Ended => unreachable!(),
    }
}

// Executes the turn that is due, and writes its frame.
#[tactic(auto, using(oftp_io::proofs::Puts::puts_none, oftp_io::proofs::Puts::puts_on, oftp_io::proofs::Puts::puts_sent, crate::proofs::Stepping::run_fault_own))]
fn write_next<O: Office, W: Write>(
    session: &mut Session<'_>,
    office: &mut O,
    writer: &mut Port<W>,
) -> Result<(), RunFault>
    requires { is_due session.old.standing ≡ true }
    ensures fewer { OnOk result (turns_left session.new.standing < turns_left session.old.standing) }
    ensures steps { MakesStep turn_at HasTurn session.old (scene W.contents (O.view office.old) writer.old)
        session.new (scene W.contents (O.view office.new) writer.new) result }
    ensures behaves { Behaves W.contents (O.view office.old) (O.view office.new) writer.old writer.new session.new result }
    ensures spared { IfErr result (λ fault. fault ≡ RunFault.Memory → is_sending session.old.standing ≡ true) }
{
    match session.turn(office) {
        Ok(out) => write_out(writer, out),
        Err(fault) => Err(break_off(session, writer, fault)),
    }
}

// Executes a command that arrived, and writes the answer.
#[tactic(auto, using(oftp_io::proofs::Puts::puts_none, oftp_io::proofs::Puts::puts_on, oftp_io::proofs::Puts::puts_sent, crate::proofs::Stepping::run_fault_own))]
fn handle<O: Office, W: Write>(
    session: &mut Session<'_>,
    office: &mut O,
    writer: &mut Port<W>,
    command: &Command<'_>,
) -> Result<(), RunFault>
    requires { is_closed session.old.standing ≡ false }
    ensures steps { MakesStep (step_at (Ok command.now)) NotOver session.old (scene W.contents (O.view office.old) writer.old)
        session.new (scene W.contents (O.view office.new) writer.new) result }
    ensures behaves { Behaves W.contents (O.view office.old) (O.view office.new) writer.old writer.new session.new result }
{
    match session.on_command(office, command) {
        Ok(out) => write_out(writer, out),
        Err(fault) => Err(break_off(session, writer, fault)),
    }
}

// Decodes and executes the octets of a command, and writes the answer.
#[tactic(auto, using(oftp_io::proofs::Puts::puts_none, oftp_io::proofs::Puts::puts_on, oftp_io::proofs::Puts::puts_sent))]
fn parse_and_handle<O: Office, W: Write>(
    session: &mut Session<'_>,
    office: &mut O,
    writer: &mut Port<W>,
    octets: &[u8],
) -> Result<(), RunFault>
    requires { is_closed session.old.standing ≡ false }
    ensures steps { MakesStep (step_at (command_of octets.now)) NotOver session.old (scene W.contents (O.view office.old) writer.old)
        session.new (scene W.contents (O.view office.new) writer.new) result }
    ensures behaves { Behaves W.contents (O.view office.old) (O.view office.new) writer.old writer.new session.new result }
{
    match parse(octets) {
        Ok(command) => handle(session, office, writer, &command),
        Err(fault) => match fault.reason() {
            Some(reason) => end_with(session, writer, reason),
            None => unreachable!(),
        },
    }
}

// Whether a session that has made so many turns leaves the others for later.
fn pauses(pace: Pace, made: u32, session: &Session<'_>) -> bool
    ensures { result ≡ pauses pace made session.now.standing }
{
    match pace {
        Pace::Whole => false,
        Pace::Parts => made >= MOST_TURNS && session.is_sending(),
    }
}

// Executes every turn that is due or, in parts, some of those that send a file, after those that were made before.
fn write_due<O: Office, W: Write>(
    session: &mut Session<'_>,
    office: &mut O,
    writer: &mut Port<W>,
    pace: Pace,
    before: u32,
) -> Result<Turns, RunFault>
    requires { session.old.standing ≢ Broken }
    ensures steps { MakesTurns session.old (scene W.contents (O.view office.old) writer.old)
        session.new (scene W.contents (O.view office.new) writer.new) result }
    ensures whole { pace ≡ Pace.Whole → IfOk result (λ turns. turns ≢ Turns.Left) }
    ensures behaves { Behaves W.contents (O.view office.old) (O.view office.new) writer.old writer.new session.new result }
{
    let mut made = before;
    'turns: while session.has_turn() {
        if pauses(pace, made, session) {
            return Ok(Turns::Left);
        }
        write_next(session, office, writer)?;
        made = made.saturating_add(1);
    }
    Ok(Turns::Made(made))
}

// Executes all turns that are due and all commands that are complete; in parts, it returns where more exchange buffers of a file are due.
pub(crate) fn drive<O: Office, W: Write>(
    session: &mut Session<'_>,
    office: &mut O,
    stream: &mut Deframer,
    writer: &mut Port<W>,
    pace: Pace,
) -> Result<Going, RunFault>
    requires { session.old.standing ≢ Broken }
    ensures steps { Drives (dialogue session.old stream.old) (scene W.contents (O.view office.old) writer.old)
        (dialogue session.new stream.new) (scene W.contents (O.view office.new) writer.new) result }
    ensures whole { pace ≡ Pace.Whole → IfOk result (λ going. going ≢ Going.Sends) }
    ensures behaves { Behaves W.contents (O.view office.old) (O.view office.new) writer.old writer.new session.new result }
{
    let mut made: u32 = 0;
    'frames: loop {
        match write_due(session, office, writer, pace, made)? {
            Turns::Made(count) => made = count,
            Turns::Left => return Ok(Going::Sends),
        }
        if let Some(ending) = session.ended() {
            return Ok(Going::Ended(ending));
        }
        match stream.next() {
            Ok(Some(octets)) => parse_and_handle(session, office, writer, octets)?,
            Ok(None) => return Ok(Going::Waits),
            Err(_) => {
                end_with(session, writer, SessionReason::ProtocolViolation)?;
                return Ok(Going::Ended(Ending::Own(SessionReason::ProtocolViolation)));
            }
        }
    }
}

// Greets a caller, and writes the greeting. No office is asked.
#[tactic(auto, using(crate::proofs::Openings::sent_alone, oftp_io::proofs::Puts::puts_none, oftp_io::proofs::Puts::puts_on, oftp_io::proofs::Puts::puts_sent))]
pub(crate) fn greet<W: Write>(
    session: &mut Session<'_>,
    writer: &mut Port<W>,
) -> Result<(), RunFault>
    requires { Stands Phase.ResponderOpening session.old }
    ensures answers { OnOk result (Answered W.contents greeting session.old session.new writer.old writer.new) }
    ensures writes { OnlyWrites W.contents writer.old writer.new result }
{
    let out = session.greet();
    write_out(writer, out)
}

// Judges a caller by its first command, and writes the answer. No office is asked.
#[tactic(auto, using(oftp_io::proofs::Puts::puts_none, oftp_io::proofs::Puts::puts_on, oftp_io::proofs::Puts::puts_sent))]
fn judge_by<W: Write>(
    session: &mut Session<'_>,
    writer: &mut Port<W>,
    command: &Command<'_>,
) -> Result<(), RunFault>
    requires { Stands Phase.AwaitingSsid session.old }
    ensures answers { OnOk result (Answered W.contents (came_awaiting_ssid session.old.setting command.now) session.old session.new writer.old writer.new) }
    ensures writes { OnlyWrites W.contents writer.old writer.new result }
{
    let out = session.judge(command);
    write_out(writer, out)
}

// Judges a caller by the octets of its first command, and writes the answer.
#[tactic(auto, using(oftp_io::proofs::Puts::puts_none, oftp_io::proofs::Puts::puts_on, oftp_io::proofs::Puts::puts_sent))]
fn judge_octets<W: Write>(
    session: &mut Session<'_>,
    writer: &mut Port<W>,
    octets: &[u8],
) -> Result<(), RunFault>
    requires { Stands Phase.AwaitingSsid session.old }
    ensures answers { OnOk result (Answered W.contents (answer_to session.old.setting (command_of octets.now)) session.old session.new writer.old writer.new) }
    ensures writes { OnlyWrites W.contents writer.old writer.new result }
{
    match parse(octets) {
        Ok(command) => judge_by(session, writer, &command),
        Err(fault) => match fault.reason() {
            Some(reason) => end_with(session, writer, reason),
            None => unreachable!(),
        },
    }
}

// What the answer to its first command means for a caller.
fn admission_by(session: &Session<'_>) -> Admission
    ensures { (p : Phase) → Stands p session.now → result ≡ admission_by (ending_of p) }
{
    match session.ended() {
        Some(ending) => Admission::SentAway(ending),
        None => Admission::LetIn,
    }
}

// Judges a caller by the first command of its stream, if that is whole, and writes the answer. No office is asked.
pub(crate) fn judge<W: Write>(
    session: &mut Session<'_>,
    stream: &mut Deframer,
    writer: &mut Port<W>,
) -> Result<Admission, RunFault>
    requires { Stands Phase.AwaitingSsid session.old }
    ensures judges { Judges W.contents (dialogue session.old stream.old) writer.old (dialogue session.new stream.new) writer.new result }
    ensures writes { OnlyWrites W.contents writer.old writer.new result }
{
    match stream.next() {
        Ok(Some(octets)) => {
            judge_octets(session, writer, octets)?;
            Ok(admission_by(session))
        }
        Ok(None) => Ok(Admission::Undecided),
        Err(_) => {
            end_with(session, writer, SessionReason::ProtocolViolation)?;
            Ok(Admission::SentAway(Ending::Own(SessionReason::ProtocolViolation)))
        }
    }
}

// A session before its first step.
pub(crate) fn opened<'b>(alloc: Global, book: &'b Book, role: Role<'b>) -> Session<'b>
    ensures setting { result.setting ≡ setting_of book.entry.now role.entry }
    ensures stands { Stands (opening (setting_of book.entry.now role.entry).called) result }
    ensures unbroken { result.standing ≢ Broken }
{
    match role {
        Role::Responder => Session::responder(alloc, book),
        Role::Initiator(partner) => Session::initiator(alloc, book, partner),
    }
}

/// Serves one session by a book and in a role, over the octets of `reader`. It ends at an ESID of the partner or of the station, or at the
/// end of the input. Octets after the end aren't read as commands.
///
/// What is out and what is left in the register are those of the session's run over the octets that the reader gave.
///
/// # Errors
///
/// - [`RunFault::Read`] only where the reader returned an error. All octets before it are answered, and their changes made.
/// - [`RunFault::Write`] only where the writer returned an error. The register has each change that was answered, and also the one whose
///   answer was being written.
/// - [`RunFault::Office`]: the office returned an error. ESID 08 was written as far as the writer accepted it. The register is the one
///   after a prefix of the session's changes, with each that was answered.
/// - [`RunFault::Memory`]: out of memory. The register is likewise the one after a prefix of the session's changes, with each that was
///   answered.
pub fn serve<O: Office, R: Read, W: Write>(
    alloc: Global,
    office: &mut O,
    book: &Book,
    role: Role<'_>,
    reader: &mut Port<R>,
    writer: &mut Port<W>,
) -> Result<End, RunFault>
    ensures serves { (given : List ℕ) × Gave R.remaining reader.old reader.new given
        × OnCleanStore (O.view office.old) (O.view office.new) (Serves (setting_of book.now role.entry) given
        (scene W.contents (O.view office.old) writer.old) (scene W.contents (O.view office.new) writer.new) result) }
    ensures clean { WasClean (O.view office.old) (O.view office.new) }
    ensures reader_told { ReaderTold reader.old reader.new result }
    ensures writer_told { WriterTold writer.old writer.new result }
    ensures ends { InputEnded R.remaining reader.old reader.new result }
    ensures out { Puts W.contents writer.old writer.new }
{
    let mut conversation = Conversation::new(alloc, book, role);
    let mut piece = [0u8; PIECE];
    'pieces: loop {
        if let Some(ending) = conversation.go_on(office, writer)? {
            return Ok(End::from(ending));
        }
        match reader.read(&mut piece) {
            None => return Err(RunFault::Read),
            Some(0) => return Ok(End::Input),
            Some(n) => conversation.hear(&piece[..n])?,
        }
    }
}

/// Serves one session, as [`serve`] does, over an office in memory. Its promises need no premise, because such an office always reads what
/// was written.
///
/// # Errors
///
/// Those of [`serve`]. [`RunFault::Office`] comes only where the office is out of memory.
pub fn serve_in_memory<R: Read, W: Write>(
    alloc: Global,
    office: &mut PlainOffice,
    book: &Book,
    role: Role<'_>,
    reader: &mut Port<R>,
    writer: &mut Port<W>,
) -> Result<End, RunFault>
    ensures serves { (given : List ℕ) × Gave R.remaining reader.old reader.new given
        × Serves (setting_of book.now role.entry) given
        (scene W.contents (view_of office.old) writer.old) (scene W.contents (view_of office.new) writer.new) result }
    ensures reader_told { ReaderTold reader.old reader.new result }
    ensures writer_told { WriterTold writer.old writer.new result }
    ensures ends { InputEnded R.remaining reader.old reader.new result }
    ensures out { Puts W.contents writer.old writer.new }
{
    serve(alloc, office, book, role, reader, writer)
}
