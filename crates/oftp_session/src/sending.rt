//! Sending a file: the answer to SFID, DATA, CDT, EFID and its answer (RFC 5024, sections 5.3.4 to 5.3.10).

ghost use Rattle.std.specs.Prelude.{◌≡◌, ◌<◌, IfErr, IfOk, OnErr, OnOk};
ghost use Rattle.oftp_session.specs.Phases.{Offer};
ghost use Rattle.oftp_session.specs.Sending.{after_file, came_awaiting_end, came_awaiting_start, came_sending, credited, new_mark, refusal, reopening, start_step, transfer_of, turned_sending};
ghost use Rattle.oftp_session.specs.Steps.{IsEnded, IsOffered, IsSent};
ghost use Rattle.oftp_session.specs.Standings.{At, Ships, offered_as, standing_of, turns_left};
ghost use Rattle.oftp_session.specs.Calls.{IsFailure};
ghost use Rattle.oftp_session.specs.Inside.{MakesFrom, StepsFrom};
ghost use Rattle.oftp_session.specs.InsideSending.{EndsFile, MarksRows};

use crate::commands::efid;
use crate::frame::Frame;
use crate::link::{Link, WhenDone};
use crate::payloads::{payload_size, set_payload};
use crate::session::{SessionFault, make};
use crate::state::{Contact, State};
use oftp_register::{Change, Office};
use oftp_vfile::{Filler, Format, Rows};
use oftp_wire::{Command, Count, SessionReason, Sfna, StartReason};

// An offered file: its number, whether its end was sent in an earlier session, its layout, and its numbers of rows and of octets. Also
// how many rows the partner is known to have, and the row from which it was offered.
#[derive(Drop)]
pub(crate) struct OutgoingOffer {
    pub(crate) number: u64,
    pub(crate) is_closing: bool,
    pub(crate) format: Format,
    pub(crate) longest: u32,
    pub(crate) rows: Count<17>,
    pub(crate) units: Count<17>,
    pub(crate) mark: u64,
    pub(crate) from: u64,
}

// A file that is being sent: its number, its longest record, and its numbers of rows and of octets. Also how many commands may be sent
// before CDT, its mark in the register, and the filler of its payloads. Also the rows that were looked up and aren't wholly sent.
#[derive(Drop)]
pub(crate) struct OutgoingTransfer {
    pub(crate) number: u64,
    pub(crate) credit: u64,
    pub(crate) longest: u32,
    pub(crate) rows: Count<17>,
    pub(crate) units: Count<17>,
    pub(crate) mark: u64,
    pub(crate) filler: Filler,
    pub(crate) page: Option<Rows>,
}

// The transfer of a file that the partner accepts from row `from` on.
fn accepted(link: &Link, offered: &OutgoingOffer, from: u64) -> OutgoingTransfer
    ensures { (contact : Contact) (offer : Offer) → contact.link ≡ link.now → offered.now ≡ offered_as offer
        → Ships contact (transfer_of offer from) result }
{
    OutgoingTransfer {
        number: offered.number,
        credit: link.credit.get().max(1),
        longest: offered.longest,
        rows: offered.rows,
        units: offered.units,
        mark: if offered.is_closing { 0 } else { offered.mark },
        filler: Filler::new(offered.format, from as usize),
        page: None,
    }
}

// Reopens a file whose end was sent, so that it is sent again. Another file stays as it is.
fn reopen<O: Office>(offered: &OutgoingOffer, office: &mut O) -> Result<(), SessionFault>
    ensures clean { (O.view office.new).clean → (O.view office.old).clean }
    ensures does { MakesFrom IsOffered (λ offer. offered.now ≡ offered_as offer) (λ offer. reopening offer)
        (O.view office.old) (O.view office.new) result }
    ensures err { IfErr result (λ fault. fault ≡ SessionFault.Office) }
{
    let no = offered.number;
    if offered.is_closing {
        make(office, Change::Reopen { no })
    } else {
        Ok(())
    }
}

// Sends a file that the partner accepts from row `from` on, if that isn't above the offered row.
fn start<O: Office>(
    contact: Contact,
    offered: OutgoingOffer,
    office: &mut O,
    from: u64,
    frame: &mut Frame,
) -> Result<State, SessionFault>
    ensures clean { (O.view office.new).clean → (O.view office.old).clean }
    ensures takes { StepsFrom IsOffered (λ offer. offered ≡ offered_as offer) (λ r offer. start_step contact offer from)
        (O.view office.old) (O.view office.new) frame.new result }
    ensures err { IfErr result (λ fault. fault ≡ SessionFault.Office) }
{
    if from > offered.from {
        return Ok(State::ended_here(SessionReason::ProtocolViolation, frame));
    }
    frame.clear();
    reopen(&offered, office)?;
    let outgoing = accepted(&contact.link, &offered, from);
    Ok(State::Sending(contact, outgoing))
}

// Commits what the SFNA of a partner means for the file.
fn settle<O: Office>(
    offered: &OutgoingOffer,
    office: &mut O,
    sfna: &Sfna<'_>,
) -> Result<(), SessionFault>
    ensures clean { (O.view office.new).clean → (O.view office.old).clean }
    ensures does { MakesFrom IsOffered (λ offer. offered.now ≡ offered_as offer) (λ offer. refusal offer sfna.now)
        (O.view office.old) (O.view office.new) result }
    ensures err { IfErr result (λ fault. fault ≡ SessionFault.Office) }
{
    let no = offered.number;
    if sfna.reason == StartReason::DuplicateFile.number() && offered.is_closing {
        return make(office, Change::HandOver { no });
    }
    if sfna.retry {
        return Ok(());
    }
    let reason = sfna.reason;
    make(office, Change::Refuse { no, reason })
}

// Executes a command that arrives while the answer to SFID is missing.
#[tactic(auto, unfolding(crate::specs::Sending::came_awaiting_start))]
pub(crate) fn in_awaiting_start<O: Office>(
    contact: Contact,
    offered: OutgoingOffer,
    office: &mut O,
    command: &Command<'_>,
    frame: &mut Frame,
) -> Result<State, SessionFault>
    ensures clean { (O.view office.new).clean → (O.view office.old).clean }
    ensures takes { StepsFrom IsOffered (λ offer. offered ≡ offered_as offer) (λ r offer. came_awaiting_start contact offer command.now)
        (O.view office.old) (O.view office.new) frame.new result }
    ensures err { IfErr result (λ fault. fault ≡ SessionFault.Office) }
{
    match command {
        Command::Sfpa(sfpa) => start(contact, offered, office, sfpa.restart.get(), frame),
        Command::Sfna(sfna) => {
            frame.clear();
            settle(&offered, office, sfna)?;
            Ok(State::SpeakerIdle(contact, WhenDone::ChangeDirection))
        }
        _ => Ok(State::unexpected(command, frame)),
    }
}

// Sends EFID with the counts of the file (RFC 5024, section 5.3.8).
fn send_end<O: Office>(
    contact: Contact,
    outgoing: OutgoingTransfer,
    office: &mut O,
    frame: &mut Frame,
) -> Result<State, SessionFault>
    requires { 0 < outgoing.credit }
    ensures clean { (O.view office.new).clean → (O.view office.old).clean }
    ensures takes { EndsFile contact outgoing (O.view office.old) (O.view office.new) frame.new result }
    ensures err { IfErr result (λ fault. fault ≡ SessionFault.Office) }
    // This needs no clean disk.
    ensures fewer { IfOk result (λ state. turns_left (standing_of state) ≡ 0) }
{
    // The command is encoded before the commit, so that only the writer can fail between the two.
    frame.set_command(&efid(outgoing.filler.format(), outgoing.rows, outgoing.units));
    let no = outgoing.number;
    make(office, Change::BeginClosing { no })?;
    Ok(State::AwaitingEnd(contact, no))
}

// Sends the next DATA or EFID while credit is left (RFC 5024, sections 5.3.6 and 5.3.8).
pub(crate) fn send_next<O: Office>(
    contact: Contact,
    mut outgoing: OutgoingTransfer,
    office: &mut O,
    frame: &mut Frame,
) -> Result<State, SessionFault>
    requires { 0 < outgoing.credit }
    ensures clean { (O.view office.new).clean → (O.view office.old).clean }
    ensures takes { StepsFrom IsSent (λ t. Ships contact t outgoing) (λ r t. turned_sending contact t)
        (O.view office.old) (O.view office.new) frame.new result }
    ensures err { IfErr result IsFailure }
    // This needs no clean disk.
    ensures fewer { IfOk result (λ state. turns_left (standing_of state) < outgoing.credit) }
{
    let size = payload_size(&contact.link);
    if set_payload(&mut outgoing, size, office, frame)? {
        outgoing.credit -= 1;
        return Ok(State::Sending(contact, outgoing));
    }
    send_end(contact, outgoing, office, frame)
}

// Marks the rows that were wholly sent, if the register has another mark.
fn cover<O: Office>(outgoing: &mut OutgoingTransfer, office: &mut O) -> Result<(), SessionFault>
    ensures clean { (O.view office.new).clean → (O.view office.old).clean }
    ensures does { MarksRows outgoing.old (O.view office.old) (O.view office.new) result }
    ensures covered { OnOk result (outgoing.new ≡ record outgoing.old { mark = outgoing.old.filler.mark }) }
    ensures kept { OnErr result (outgoing.new ≡ outgoing.old) }
    ensures err { IfErr result (λ fault. fault ≡ SessionFault.Office) }
{
    let mark = outgoing.filler.mark() as u64;
    if mark != outgoing.mark {
        let no = outgoing.number;
        make(office, Change::Mark { no, rows: mark })?;
        outgoing.mark = mark;
    }
    Ok(())
}

// Executes CDT: it marks the rows that were wholly sent and renews the credit (RFC 5024, section 5.3.7).
fn take_credit<O: Office>(
    contact: Contact,
    mut outgoing: OutgoingTransfer,
    office: &mut O,
    frame: &mut Frame,
) -> Result<State, SessionFault>
    requires { outgoing.credit ≡ 0 }
    ensures clean { (O.view office.new).clean → (O.view office.old).clean }
    ensures takes { StepsFrom IsSent (λ t. Ships contact t outgoing) (λ r t. credited contact t (new_mark contact t))
        (O.view office.old) (O.view office.new) frame.new result }
    ensures err { IfErr result (λ fault. fault ≡ SessionFault.Office) }
{
    frame.clear();
    cover(&mut outgoing, office)?;
    outgoing.credit = contact.link.window();
    Ok(State::Sending(contact, outgoing))
}

// Executes a command that arrives while a file is sent. This is CDT, when no credit is left (RFC 5024, section 5.3.7).
#[tactic(auto, unfolding(crate::specs::Sending::came_sending))]
pub(crate) fn in_sending<O: Office>(
    contact: Contact,
    outgoing: OutgoingTransfer,
    office: &mut O,
    command: &Command<'_>,
    frame: &mut Frame,
) -> Result<State, SessionFault>
    ensures clean { (O.view office.new).clean → (O.view office.old).clean }
    ensures takes { StepsFrom IsSent (λ t. Ships contact t outgoing) (λ r t. came_sending contact t command.now)
        (O.view office.old) (O.view office.new) frame.new result }
    ensures err { IfErr result (λ fault. fault ≡ SessionFault.Office) }
{
    match command {
        Command::Cdt => {
            if outgoing.credit > 0 {
                return Ok(State::ended_here(SessionReason::ProtocolViolation, frame));
            }
            take_credit(contact, outgoing, office, frame)
        }
        _ => Ok(State::unexpected(command, frame)),
    }
}

// The state after a file: the partner asked to speak, or it didn't.
fn after_file(contact: Contact, asks_to_speak: bool) -> State
    ensures { standing_of result ≡ At (after_file contact asks_to_speak) }
{
    if asks_to_speak {
        State::GivingWay(contact)
    } else {
        State::SpeakerIdle(contact, WhenDone::ChangeDirection)
    }
}

// Executes a command that arrives while the answer to EFID is missing.
#[tactic(auto, unfolding(crate::specs::Sending::came_awaiting_end))]
pub(crate) fn in_awaiting_end<O: Office>(
    contact: Contact,
    number: u64,
    office: &mut O,
    command: &Command<'_>,
    frame: &mut Frame,
) -> Result<State, SessionFault>
    ensures clean { (O.view office.new).clean → (O.view office.old).clean }
    ensures takes { StepsFrom IsEnded (λ t. t.number ≡ number) (λ r t. came_awaiting_end contact t command.now)
        (O.view office.old) (O.view office.new) frame.new result }
    ensures err { IfErr result (λ fault. fault ≡ SessionFault.Office) }
{
    match command {
        Command::Efpa(efpa) => {
            frame.clear();
            make(office, Change::HandOver { no: number })?;
            Ok(after_file(contact, efpa.change_direction))
        }
        Command::Efna(_) => {
            frame.clear();
            make(office, Change::Reopen { no: number })?;
            Ok(State::SpeakerIdle(contact, WhenDone::ChangeDirection))
        }
        _ => Ok(State::unexpected(command, frame)),
    }
}
