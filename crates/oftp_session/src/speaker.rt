//! The station as a speaker, between files (RFC 5024, sections 5.3.3 and 5.3.11 to 5.3.15).

ghost use Rattle.std.specs.Prelude.{◌≡◌, ◌≢◌, ◌≤◌, true, false, if◌then◌else◌, Some, IfErr, IfOk, IfSome};
ghost use Rattle.oftp_register.specs.declared.fit.TheConstants.{MOST_UNITS};
ghost use Rattle.oftp_register.specs.Changes.{is_closing};
ghost use Rattle.oftp_register.specs.LookUps.{IsItemWithin, IsOutgoingWithin, next_item, units_of};
ghost use Rattle.oftp_session.specs.Settings.{setting_of};
ghost use Rattle.oftp_session.specs.Speaker.{came_awaiting_rtr, nothing_next, on_item, responds, speaks};
ghost use Rattle.oftp_session.specs.Steps.{IsResponding};
ghost use Rattle.oftp_session.specs.Standings.{standing_of, turns_left};
ghost use Rattle.oftp_session.specs.Recalling.{RecallsAt, RecallsOf};
ghost use Rattle.oftp_session.specs.Inside.{Finds, Goes, IfRecalled, LooksFor, StepsWhere};
ghost use Rattle.oftp_session.specs.InsideSpeaker.{OffersFile, due_after};

use crate::commands::{response, sfid};
use crate::frame::Frame;
use crate::link::{Link, WhenDone};
use crate::opening::Setting;
use crate::sending::OutgoingOffer;
use crate::session::{SessionFault, make};
use crate::state::{Contact, State};
use oftp_register::{
    Change, Cursor, IssuedEntry, Item, Office, OutgoingEntry, OutgoingState, Side,
};
use oftp_wire::{Command, Count, SessionReason};

// What a speaker needs of an office. Every error of the office is `SessionFault::Office`.
pub(crate) trait SpeakerPart: Office {
    // The next response or file that wasn't tried. A file is next only where the station sends files. A response is looked for until
    // none was found, because no change of a speaker makes one due.
    fn next(
        &mut self,
        contact: &Contact,
        response_due: &mut Option<bool>,
    ) -> Result<Option<Item>, SessionFault>
        ensures clean { (Self.view self.new).clean → (Self.view self.old).clean }
        ensures finds { IfRecalled response_due.old contact.now (Self.view self.old) (Self.view self.new)
            (Finds (λ r. next_item r contact.now.code contact.now.tried contact.now.link.sends)
            (Self.view self.old) (Self.view self.new) result) }
        ensures recalls { IfRecalled response_due.old contact.now (Self.view self.old) (Self.view self.new)
            (RecallsOf response_due.new contact.now (Self.view self.old).register) }
        // This needs no clean disk.
        ensures within { IfOk result (λ found. IfSome found IsItemWithin) }
        ensures err { IfErr result (λ fault. fault ≡ SessionFault.Office) };

    // The number of octets of an outgoing file.
    fn units(&mut self, no: u64) -> Result<u64, SessionFault>
        ensures clean { (Self.view self.new).clean → (Self.view self.old).clean }
        ensures finds { LooksFor (λ r. units_of r Side.Outgoing no) (Self.view self.old) (Self.view self.new) result }
        // This needs no clean disk.
        ensures within { IfOk result (λ units. units ≤ MOST_UNITS) }
        ensures err { IfErr result (λ fault. fault ≡ SessionFault.Office) };
}

impl<O: Office> SpeakerPart for O {
    fn next(
        &mut self,
        contact: &Contact,
        response_due: &mut Option<bool>,
    ) -> Result<Option<Item>, SessionFault> {
        let cursor = untried(contact.tried, *response_due);
        let item = self.next_item(&contact.code, cursor, contact.link.sends)?;
        *response_due = due_after(&item);
        Ok(item)
    }

    fn units(&mut self, no: u64) -> Result<u64, SessionFault> {
        Ok(self.units_of(Side::Outgoing, no)?)
    }
}

// The numbers above which a speaker looks for what is next. If no response is next, it looks above the greatest number, so that the store
// visits none.
fn untried(tried: Cursor, response_due: Option<bool>) -> Cursor
    ensures file { result.file ≡ tried.file }
    ensures response { tried.response ≤ result.response }
    ensures all { response_due ≢ Some false → result ≡ tried }
{
    match response_due {
        Some(false) => Cursor {
            response: u64::MAX,
            ..tried
        },
        Some(true) | None => tried,
    }
}

// What a speaker remembers after it found this: nothing after a response, and else that no response is next.
fn due_after(item: &Option<Item>) -> Option<bool>
    ensures { result ≡ due_after item.now }
{
    match item {
        Some(Item::Response(_)) => None,
        Some(Item::File(_)) | None => Some(false),
    }
}

// Sends CD or ends the session, because nothing is left to send.
fn nothing_next(contact: Contact, done: WhenDone, frame: &mut Frame) -> State
    ensures { Goes (nothing_next contact done) result frame.new }
{
    match done {
        WhenDone::ChangeDirection => give_way(contact, frame),
        WhenDone::EndSession => State::ended_here(SessionReason::Normal, frame),
    }
}

// Sends CD, so that the partner speaks (RFC 5024, section 5.3.12).
pub(crate) fn give_way(contact: Contact, frame: &mut Frame) -> State
    ensures { Goes (nothing_next contact WhenDone.ChangeDirection) result frame.new }
{
    frame.set_command(&Command::Cd);
    State::ListenerIdle(contact)
}

// Sends a response, and waits for RTR.
fn respond(
    setting: Setting<'_>,
    mut contact: Contact,
    entry: &IssuedEntry,
    frame: &mut Frame,
) -> State
    ensures { Goes (responds (setting_of setting.entry) contact entry.now) result frame.new }
{
    frame.set_command(&response(setting.book, entry));
    contact.tried.response = entry.no;
    State::AwaitingRtr(contact, entry.no)
}

// The row from which a file is offered: its mark, if restart is agreed, and else 0.
fn offered_from(link: &Link, mark: u64) -> u64
    ensures { result ≡ (if link.now.restart then mark else 0) }
{
    if link.restart { mark } else { 0 }
}

// Whether the end of a file was sent and its answer is missing.
fn is_closing(state: OutgoingState) -> bool
    ensures { result ≡ is_closing state }
{
    match state {
        OutgoingState::Closing => true,
        OutgoingState::Waiting
        | OutgoingState::Handed
        | OutgoingState::Refused(_)
        | OutgoingState::Delivered
        | OutgoingState::Returned => false,
    }
}

// The offer of a file with this entry and this number of octets, from row `from` on.
fn outgoing_offer(entry: &OutgoingEntry, units: u64, from: u64) -> OutgoingOffer
    requires within { IsOutgoingWithin entry.now }
    requires units { units ≤ MOST_UNITS }
    ensures { result ≡ record {
      number = entry.now.no;
      is_closing = is_closing entry.now.state;
      format = entry.now.format;
      longest = entry.now.longest;
      rows = entry.now.rows;
      units = units;
      mark = entry.now.mark;
      from = from;
    } }
{
    OutgoingOffer {
        number: entry.no,
        is_closing: is_closing(entry.state),
        format: entry.format,
        longest: entry.longest,
        rows: Count::new(entry.rows),
        units: Count::new(units),
        mark: entry.mark,
        from,
    }
}

// Offers a file with SFID, and waits for the answer.
fn offer<O: Office>(
    mut contact: Contact,
    office: &mut O,
    entry: &OutgoingEntry,
    frame: &mut Frame,
) -> Result<State, SessionFault>
    requires { IsOutgoingWithin entry.now }
    ensures clean { (O.view office.new).clean → (O.view office.old).clean }
    ensures takes { OffersFile contact entry.now (O.view office.old) (O.view office.new) frame.new result }
    ensures err { IfErr result (λ fault. fault ≡ SessionFault.Office) }
    // This needs no clean disk.
    ensures still { IfOk result (λ state. turns_left (standing_of state) ≡ 0) }
{
    let units = office.units(entry.no)?;
    let from = offered_from(&contact.link, entry.mark);
    frame.set_command(&sfid(entry, units, from));
    contact.tried.file = entry.no;
    Ok(State::AwaitingStart(contact, outgoing_offer(entry, units, from)))
}

// Sends the item that is next, or CD or ESID if there is none.
fn on_item<O: Office>(
    setting: Setting<'_>,
    contact: Contact,
    done: WhenDone,
    item: Option<Item>,
    office: &mut O,
    frame: &mut Frame,
) -> Result<State, SessionFault>
    requires { IfSome item IsItemWithin }
    ensures clean { (O.view office.new).clean → (O.view office.old).clean }
    ensures takes { StepsWhere (λ r. item ≡ next_item r contact.code contact.tried contact.link.sends)
        (λ r. on_item (setting_of setting.entry) contact done r item) (O.view office.old) (O.view office.new) frame.new result }
    ensures err { IfErr result (λ fault. fault ≡ SessionFault.Office) }
    // This needs no clean disk.
    ensures still { IfOk result (λ state. turns_left (standing_of state) ≡ 0) }
{
    match item {
        Some(Item::Response(entry)) => Ok(respond(setting, contact, &entry, frame)),
        Some(Item::File(entry)) => offer(contact, office, &entry, frame),
        None => Ok(nothing_next(contact, done, frame)),
    }
}

// Sends what is next: a response that is due, or else a file, or else CD or ESID.
#[tactic(auto, unfolding(crate::specs::Speaker::speaks))]
pub(crate) fn speak<O: Office>(
    setting: Setting<'_>,
    contact: Contact,
    done: WhenDone,
    response_due: &mut Option<bool>,
    office: &mut O,
    frame: &mut Frame,
) -> Result<State, SessionFault>
    ensures clean { (O.view office.new).clean → (O.view office.old).clean }
    ensures takes { StepsWhere (λ r. RecallsOf response_due.old contact r) (λ r. speaks (setting_of setting.entry) contact done r)
        (O.view office.old) (O.view office.new) frame.new result }
    ensures recalls { IfRecalled response_due.old contact (O.view office.old) (O.view office.new)
        (IfOk result (λ state. RecallsAt response_due.new (standing_of state) (O.view office.new).register)) }
    ensures err { IfErr result (λ fault. fault ≡ SessionFault.Office) }
    // This needs no clean disk.
    ensures still { IfOk result (λ state. turns_left (standing_of state) ≡ 0) }
{
    let item = office.next(&contact, response_due)?;
    on_item(setting, contact, done, item, office, frame)
}

// Executes a command that arrives while RTR is missing.
#[tactic(auto, unfolding(crate::specs::Speaker::came_awaiting_rtr))]
pub(crate) fn in_awaiting_rtr<O: Office>(
    contact: Contact,
    number: u64,
    office: &mut O,
    command: &Command<'_>,
    frame: &mut Frame,
) -> Result<State, SessionFault>
    ensures clean { (O.view office.new).clean → (O.view office.old).clean }
    ensures takes { StepsWhere (λ r. IsResponding r number) (λ r. came_awaiting_rtr contact number command.now)
        (O.view office.old) (O.view office.new) frame.new result }
    ensures err { IfErr result (λ fault. fault ≡ SessionFault.Office) }
{
    match command {
        Command::Rtr => {
            frame.clear();
            make(office, Change::Send { no: number })?;
            Ok(State::SpeakerIdle(contact, WhenDone::ChangeDirection))
        }
        _ => Ok(State::unexpected(command, frame)),
    }
}
