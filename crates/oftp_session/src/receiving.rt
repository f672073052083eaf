//! Receiving a file: DATA and EFID (RFC 5024, sections 5.3.6 to 5.3.10).

ghost use Rattle.std.specs.Prelude.{◌≡◌, ◌≢◌, ◌+◌, false, nat_lt, length, IfErr};
ghost use Rattle.oftp_session.specs.Receiving.{came_receiving, carried_by, data_step, end_step, reason_of, rows_to_keep, window_step};
ghost use Rattle.oftp_session.specs.Recalling.{RecallsOf};
ghost use Rattle.oftp_session.specs.Steps.{IsReceived};
ghost use Rattle.oftp_session.specs.Standings.{Tracks};
ghost use Rattle.oftp_session.specs.Calls.{IsFailure, takes_memory};
ghost use Rattle.oftp_session.specs.Inside.{IfRecalled, StepsFrom};
ghost use Rattle.oftp_session.specs.InsideReceiving.{ClosesFile, HasTaken, Refuses};

use crate::commands::{efna, efpa};
use crate::frame::Frame;
use crate::link::Link;
use crate::listener::ListenerPart;
use crate::session::{SessionFault, make};
use crate::state::{Contact, State};
use oftp_register::{Change, EndVerdict, Office, end_verdict};
use oftp_vfile::{TakeFault, Taker};
use oftp_wire::{Command, Efid, SessionReason};

// A file that is being received: its number, how many DATA the partner may still send before CDT, and the taker of its payloads.
#[derive(Drop)]
pub(crate) struct IncomingTransfer {
    pub(crate) number: u64,
    pub(crate) credit: u64,
    pub(crate) taker: Taker,
}

// Whether a payload and its command octet exceed the agreed buffer.
fn is_too_long(link: &Link, payload: &[u8]) -> bool
    ensures { result ≡ nat_lt link.now.buffer (length payload.now + 1) }
{
    link.buffer.get() < payload.len() as u64 + 1
}

// The reason of the ESID that answers a faulty payload. Out of memory has none, because the payload isn't faulty.
fn reason_of(fault: TakeFault) -> Option<SessionReason>
    ensures { result ≡ reason_of fault }
{
    match fault {
        TakeFault::Cut | TakeFault::RecordSize | TakeFault::TooBig => {
            Some(SessionReason::InvalidData)
        }
        TakeFault::Compressed | TakeFault::AfterEnd => Some(SessionReason::ProtocolViolation),
        TakeFault::Memory => None,
    }
}

// Ends the session because of a faulty payload. Out of memory is an error of the session instead.
fn refuse(fault: TakeFault, frame: &mut Frame) -> Result<State, SessionFault>
    ensures { Refuses fault result frame.new }
{
    match reason_of(fault) {
        Some(reason) => Ok(State::ended_here(reason, frame)),
        None => Err(SessionFault::Memory),
    }
}

// The step after a payload. If it used up the partner's credit, the finished rows are stored, and CDT renews the credit (RFC 5024, section
// 5.3.7).
fn pass_window<O: Office>(
    contact: Contact,
    mut incoming: IncomingTransfer,
    office: &mut O,
    frame: &mut Frame,
) -> Result<State, SessionFault>
    ensures clean { (O.view office.new).clean → (O.view office.old).clean }
    ensures takes { StepsFrom IsReceived (λ f. HasTaken contact f incoming) (λ r f. window_step contact f (rows_to_keep f (carried_by f)))
        (O.view office.old) (O.view office.new) frame.new result }
    ensures err { IfErr result (λ fault. fault ≡ SessionFault.Office) }
{
    if incoming.credit > 1 {
        incoming.credit -= 1;
        frame.clear();
        return Ok(State::Receiving(contact, incoming));
    }
    frame.set_command(&Command::Cdt);
    let rows = incoming.taker.take_rows();
    office.keep(incoming.number, rows)?;
    incoming.credit = contact.link.window();
    Ok(State::Receiving(contact, incoming))
}

// Executes a DATA (RFC 5024, section 5.3.6).
fn take_data<O: Office>(
    contact: Contact,
    mut incoming: IncomingTransfer,
    office: &mut O,
    payload: &[u8],
    frame: &mut Frame,
) -> Result<State, SessionFault>
    ensures clean { (O.view office.new).clean → (O.view office.old).clean }
    ensures takes { StepsFrom IsReceived (λ f. Tracks contact f incoming) (λ r f. data_step contact f payload.now)
        (O.view office.old) (O.view office.new) frame.new result }
    ensures err { IfErr result IsFailure }
{
    if is_too_long(&contact.link, payload) {
        return Ok(State::ended_here(SessionReason::BufferSizeError, frame));
    }
    match incoming.taker.take(payload) {
        Ok(()) => pass_window(contact, incoming, office, frame),
        Err(fault) => refuse(fault, frame),
    }
}

// Closes a file whose EFID has its counts (RFC 5024, section 5.3.9).
fn close<O: Office>(
    contact: Contact,
    incoming: IncomingTransfer,
    response_due: &mut Option<bool>,
    office: &mut O,
    frame: &mut Frame,
) -> Result<State, SessionFault>
    ensures clean { (O.view office.new).clean → (O.view office.old).clean }
    ensures recalls { IfRecalled response_due.old contact (O.view office.old) (O.view office.new)
        (RecallsOf response_due.new contact (O.view office.old).register) }
    ensures takes { ClosesFile response_due.old contact incoming (O.view office.old) (O.view office.new) frame.new result }
    ensures err { IfErr result IsFailure }
{
    let IncomingTransfer { number, taker, .. } = incoming;
    let Ok(rows) = taker.close() else {
        return Err(SessionFault::Memory);
    };
    let speaks = office.asks_to_speak(&contact, response_due)?;
    // The answer is encoded before the commit, so that only the writer can fail between the two.
    frame.set_command(&efpa(speaks));
    make(office, Change::Close { no: number, rows })?;
    Ok(State::ListenerIdle(contact))
}

// Ends a file: closes it if EFID has the counts of the received rows, and else gives it up (RFC 5024, sections 5.3.8 to 5.3.10).
fn take_end<O: Office>(
    contact: Contact,
    incoming: IncomingTransfer,
    response_due: &mut Option<bool>,
    office: &mut O,
    efid: &Efid,
    frame: &mut Frame,
) -> Result<State, SessionFault>
    ensures clean { (O.view office.new).clean → (O.view office.old).clean }
    ensures recalls { IfRecalled response_due.old contact (O.view office.old) (O.view office.new)
        (RecallsOf response_due.new contact (O.view office.old).register) }
    ensures takes { RecallsOf response_due.old contact (O.view office.old).register
        → StepsFrom IsReceived (λ f. Tracks contact f incoming) (λ r f. end_step contact r f efid.now)
        (O.view office.old) (O.view office.new) frame.new result }
    ensures err { IfErr result IsFailure }
{
    if incoming.taker.is_open() {
        return Ok(State::ended_here(SessionReason::ProtocolViolation, frame));
    }
    let (records, units) = incoming.taker.counts();
    match end_verdict(efid, records, units) {
        EndVerdict::Refuse(reason) => {
            frame.set_command(&efna(reason));
            let no = incoming.number;
            make(office, Change::GiveUp { no })?;
            Ok(State::ListenerIdle(contact))
        }
        EndVerdict::Accept => close(contact, incoming, response_due, office, frame),
    }
}

// Executes a command that arrives while a file is received.
#[tactic(auto, unfolding(crate::specs::Receiving::came_receiving))]
pub(crate) fn in_receiving<O: Office>(
    contact: Contact,
    incoming: IncomingTransfer,
    response_due: &mut Option<bool>,
    office: &mut O,
    command: &Command<'_>,
    frame: &mut Frame,
) -> Result<State, SessionFault>
    ensures clean { (O.view office.new).clean → (O.view office.old).clean }
    ensures recalls { IfRecalled response_due.old contact (O.view office.old) (O.view office.new)
        (RecallsOf response_due.new contact (O.view office.old).register) }
    ensures takes { RecallsOf response_due.old contact (O.view office.old).register
        → StepsFrom IsReceived (λ f. Tracks contact f incoming) (λ r f. came_receiving contact r f command.now)
        (O.view office.old) (O.view office.new) frame.new result }
    ensures err { IfErr result IsFailure }
    ensures light { takes_memory command.now ≡ false → IfErr result (λ fault. fault ≢ SessionFault.Memory) }
{
    match command {
        Command::Data(payload) => take_data(contact, incoming, office, payload.octets(), frame),
        Command::Efid(efid) => take_end(contact, incoming, response_due, office, efid, frame),
        _ => Ok(State::unexpected(command, frame)),
    }
}
