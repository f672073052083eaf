//! The station as a listener, while no file is received (RFC 5024, sections 5.3.3 to 5.3.5 and 5.3.12 to 5.3.15).

ghost use Rattle.std.specs.Prelude.{◌≡◌, ◌+◌, ◌<◌, ◌≤◌, ◌^◌, IfErr};
ghost use Rattle.oftp_register.specs.Soundness.{IsSoundReceived};
ghost use Rattle.oftp_vfile.specs.Taking.{new_taking};
ghost use Rattle.oftp_vfile.specs.declared.format.TheConstants.{MOST_ROWS};
ghost use Rattle.oftp_session.specs.Settings.{setting_of};
ghost use Rattle.oftp_session.specs.Listener.{came_listener_idle, end_response, filing, is_between, negative_end_response, offer_step, response_step, terms_within, verdict_on};
ghost use Rattle.oftp_session.specs.Receiving.{asks_to_speak};
ghost use Rattle.oftp_session.specs.Recalling.{RecallsOf};
ghost use Rattle.oftp_session.specs.InsideListener.{FindsStarted, KeepsFit, StartsFit, as_received};
ghost use Rattle.oftp_session.specs.Inside.{Finds, IfRecalled, LooksFor, MakesDue, StepsOver};

use crate::commands::{no_field, no_text, sfna, sfpa};
use crate::frame::Frame;
use crate::link::{Link, WhenDone};
use crate::opening::Setting;
use crate::receiving::IncomingTransfer;
use crate::session::{SessionFault, make};
use crate::state::{Contact, State};
use oftp_register::{
    Change, DigitString, Identity, IncomingEntry, Name, Office, ResponseKind, Side, StartVerdict,
    Terms, format_of, identity_of, longest_of, start_verdict,
};
use oftp_vfile::{Limits, Row, Rows, Taker};
use oftp_wire::{Command, Count, Eerp, Nerp, SessionReason, Sfid, Text};
use std::alloc::Global;

// What a listener needs of an office. Every error of the office is `SessionFault::Office`.
pub(crate) trait ListenerPart: Office {
    // Adds a received response, unless there is one of its kind for this file.
    fn record_response(&mut self, response: Response<'_>) -> Result<(), SessionFault>
        requires { IsSoundReceived (as_received response) }
        ensures clean { (Self.view self.new).clean → (Self.view self.old).clean }
        ensures does { MakesDue (λ r. filing r (as_received response.entry)) (Self.view self.old) (Self.view self.new) result }
        ensures err { IfErr result (λ fault. fault ≡ SessionFault.Office) };

    // Whether an offered file is accepted, and from which row on.
    fn verdict_on(
        &mut self,
        setting: &Setting<'_>,
        contact: &Contact,
        sfid: &Sfid<'_>,
    ) -> Result<StartVerdict, SessionFault>
        ensures clean { (Self.view self.new).clean → (Self.view self.old).clean }
        ensures finds { LooksFor (λ r. verdict_on (setting_of setting.now) contact.now r sfid.now) (Self.view self.old) (Self.view self.new) result }
        ensures err { IfErr result (λ fault. fault ≡ SessionFault.Office) };

    // Starts a file, or goes on with it after its first `count` rows.
    fn begin(
        &mut self,
        alloc: Global,
        link: &Link,
        sfid: &Sfid<'_>,
        count: u64,
    ) -> Result<IncomingTransfer, SessionFault>
        ensures clean { (Self.view self.new).clean → (Self.view self.old).clean }
        ensures starts { StartsFit link.now sfid.now count (Self.view self.old) (Self.view self.new) result }
        ensures err { IfErr result (λ fault. fault ≡ SessionFault.Office) };

    // Appends rows to an incoming file, if there are any.
    fn keep(&mut self, no: u64, rows: Vec<Row>) -> Result<(), SessionFault>
        ensures clean { (Self.view self.new).clean → (Self.view self.old).clean }
        ensures does { KeepsFit no rows.items (Self.view self.old) (Self.view self.new) result }
        ensures err { IfErr result (λ fault. fault ≡ SessionFault.Office) };

    // Whether there is a response to send that wasn't tried. It is looked up once while the partner speaks, because no change of a
    // listener makes a response due.
    fn asks_to_speak(
        &mut self,
        contact: &Contact,
        response_due: &mut Option<bool>,
    ) -> Result<bool, SessionFault>
        ensures clean { (Self.view self.new).clean → (Self.view self.old).clean }
        ensures finds { IfRecalled response_due.old contact.now (Self.view self.old) (Self.view self.new)
            (Finds (asks_to_speak contact.now) (Self.view self.old) (Self.view self.new) result) }
        ensures recalls { IfRecalled response_due.old contact.now (Self.view self.old) (Self.view self.new)
            (RecallsOf response_due.new contact.now (Self.view self.old).register) }
        ensures err { IfErr result (λ fault. fault ≡ SessionFault.Office) };
}

impl<O: Office> ListenerPart for O {
    #[tactic(auto, using(crate::proofs::Filing::files_new, crate::proofs::Filing::files_fit))]
    fn record_response(&mut self, response: Response<'_>) -> Result<(), SessionFault> {
        if self.has_received(response.kind, &response.identity)? {
            return Ok(());
        }
        make(
            self,
            Change::File {
                kind: response.kind,
                identity: response.identity,
                reason: response.reason,
                creator: response.creator,
                text: response.text,
            },
        )
    }

    fn verdict_on(
        &mut self,
        setting: &Setting<'_>,
        contact: &Contact,
        sfid: &Sfid<'_>,
    ) -> Result<StartVerdict, SessionFault> {
        let found = self.look_in(&identity_of(sfid))?;
        let is_full = self.files_full(Side::Incoming)?;
        let terms = terms_of(setting, contact, self.limits());
        Ok(start_verdict(sfid, found.as_ref(), is_full, &terms))
    }

    fn begin(
        &mut self,
        alloc: Global,
        link: &Link,
        sfid: &Sfid<'_>,
        count: u64,
    ) -> Result<IncomingTransfer, SessionFault> {
        make(
            self,
            Change::Start {
                identity: identity_of(sfid),
                format: format_of(sfid.layout),
                longest: longest_of(sfid.layout),
                description: sfid.description.again(),
                count,
            },
        )?;
        find_incoming(self, alloc, link, &identity_of(sfid))
    }

    fn keep(&mut self, no: u64, rows: Vec<Row>) -> Result<(), SessionFault> {
        if rows.is_empty() {
            return Ok(());
        }
        make(
            self,
            Change::Keep {
                no,
                rows: Rows::new(rows),
            },
        )
    }

    fn asks_to_speak(
        &mut self,
        contact: &Contact,
        response_due: &mut Option<bool>,
    ) -> Result<bool, SessionFault> {
        if let Some(given) = *response_due {
            return Ok(given);
        }
        let item = self.next_item(&contact.code, contact.tried, false)?;
        let given = item.is_some();
        *response_due = Some(given);
        Ok(given)
    }
}

// The conditions on which a file is accepted by an office with these limits.
fn terms_of(setting: &Setting<'_>, contact: &Contact, limits: Limits) -> Terms
    ensures { result ≡ terms_within (setting_of setting.now) contact.now limits }
{
    Terms {
        station: Name::of(&setting.book.station().code.field()),
        partner: contact.code.again(),
        receives: contact.link.receives,
        restart: contact.link.restart,
        limits,
    }
}

// The transfer of a started file. Its number and its octets are looked up.
fn find_incoming<O: Office>(
    office: &mut O,
    alloc: Global,
    link: &Link,
    identity: &Identity,
) -> Result<IncomingTransfer, SessionFault>
    ensures clean { (O.view office.new).clean → (O.view office.old).clean }
    ensures finds { FindsStarted link.now identity.now (O.view office.old) (O.view office.new) result }
    ensures err { IfErr result (λ fault. fault ≡ SessionFault.Office) }
{
    let Ok(Some(entry)) = office.look_in(identity) else {
        return Err(SessionFault::Office);
    };
    let units = office.units_of(Side::Incoming, entry.no)?;
    Ok(incoming_transfer(alloc, link, &entry, units, office.limits()))
}

// The transfer of a file with this entry and this number of octets.
fn incoming_transfer(
    alloc: Global,
    link: &Link,
    entry: &IncomingEntry,
    units: u64,
    limits: Limits,
) -> IncomingTransfer
    requires rows { entry.now.rows ≤ MOST_ROWS }
    requires fits { units + limits.octets < 2 ^ 63 }
    ensures { result ≡ record {
      number = entry.now.no;
      credit = link.now.credit;
      taker = new_taking entry.now.format entry.now.longest entry.now.rows units limits.octets;
    } }
{
    IncomingTransfer {
        number: entry.no,
        credit: link.credit.get(),
        taker: Taker::new(
            alloc,
            entry.format,
            entry.longest,
            entry.rows,
            units,
            limits,
        ),
    }
}

// A received response, with the fields that are stored.
#[derive(Drop)]
pub(crate) struct Response<'a> {
    pub(crate) kind: ResponseKind,
    pub(crate) identity: Identity,
    pub(crate) reason: Count<2>,
    pub(crate) creator: Name<25>,
    pub(crate) text: Text<'a>,
}

// The End-to-End Response of an EERP. It has no reason, creator or text.
pub(crate) fn end_response(eerp: &Eerp<'_>) -> Response<'static>
    ensures { as_received result ≡ end_response eerp.now }
{
    Response {
        kind: ResponseKind::EndResponse,
        identity: Identity {
            dataset: Name::of(&eerp.dataset),
            date: DigitString::of(&eerp.date),
            time: DigitString::of(&eerp.time),
            originator: Name::of(&eerp.destination),
            destination: Name::of(&eerp.originator),
        },
        reason: Count::new(0),
        creator: Name::of(&no_field()),
        text: no_text(),
    }
}

// The Negative End Response of a NERP, with its reason, creator and text.
pub(crate) fn negative_end_response<'a>(nerp: &Nerp<'a>) -> Response<'a>
    ensures { as_received result ≡ negative_end_response nerp.now }
{
    Response {
        kind: ResponseKind::NegativeEndResponse,
        identity: Identity {
            dataset: Name::of(&nerp.dataset),
            date: DigitString::of(&nerp.date),
            time: DigitString::of(&nerp.time),
            originator: Name::of(&nerp.destination),
            destination: Name::of(&nerp.originator),
        },
        reason: nerp.reason,
        creator: Name::of(&nerp.creator),
        text: nerp.text.again(),
    }
}

// Whether a response to this file goes from the partner to the station.
fn is_between(setting: &Setting<'_>, contact: &Contact, file: &Identity) -> bool
    ensures { result ≡ is_between (setting_of setting.now) contact.now file.now }
{
    let station = setting.book.station();
    file.originator.octets() == station.code.field().octets()
        && file.destination.octets() == contact.code.octets()
}

// Adds a received response, if it is new, and answers it.
#[tactic(auto, unfolding(crate::specs::Listener::response_step))]
fn take_response<O: Office>(
    setting: Setting<'_>,
    contact: Contact,
    office: &mut O,
    response: Response<'_>,
    frame: &mut Frame,
) -> Result<State, SessionFault>
    requires { IsSoundReceived (as_received response) }
    ensures clean { (O.view office.new).clean → (O.view office.old).clean }
    ensures takes { StepsOver (λ r. response_step (setting_of setting.entry) contact r (as_received response.entry))
        (O.view office.old) (O.view office.new) frame.new result }
    ensures err { IfErr result (λ fault. fault ≡ SessionFault.Office) }
{
    if !is_between(&setting, &contact, &response.identity) {
        return Ok(State::ended_here(SessionReason::InvalidData, frame));
    }
    // The answer is encoded before the commit, so that only the writer can fail between the two.
    frame.set_command(&Command::Rtr);
    office.record_response(response)?;
    Ok(State::ListenerIdle(contact))
}

// Accepts an offered file, or refuses it.
#[tactic(auto, unfolding(crate::specs::Listener::offer_step))]
fn take_offer<O: Office>(
    setting: Setting<'_>,
    contact: Contact,
    office: &mut O,
    sfid: &Sfid<'_>,
    frame: &mut Frame,
) -> Result<State, SessionFault>
    ensures clean { (O.view office.new).clean → (O.view office.old).clean }
    ensures takes { StepsOver (λ r. offer_step (setting_of setting.entry) contact r sfid.now)
        (O.view office.old) (O.view office.new) frame.new result }
    ensures err { IfErr result (λ fault. fault ≡ SessionFault.Office) }
{
    match office.verdict_on(&setting, &contact, sfid)? {
        StartVerdict::Refuse { reason, retry } => {
            frame.set_command(&sfna(reason, retry));
            Ok(State::ListenerIdle(contact))
        }
        StartVerdict::Accept(count) => {
            frame.set_command(&sfpa(count));
            let incoming = office.begin(setting.alloc, &contact.link, sfid, count.get())?;
            Ok(State::Receiving(contact, incoming))
        }
    }
}

// Executes a command that arrives while the partner speaks and no file is received.
#[tactic(auto, unfolding(crate::specs::Listener::came_listener_idle))]
pub(crate) fn in_listener_idle<O: Office>(
    setting: Setting<'_>,
    contact: Contact,
    office: &mut O,
    command: &Command<'_>,
    frame: &mut Frame,
) -> Result<State, SessionFault>
    ensures clean { (O.view office.new).clean → (O.view office.old).clean }
    ensures takes { StepsOver (λ r. came_listener_idle (setting_of setting.entry) contact r command.now)
        (O.view office.old) (O.view office.new) frame.new result }
    ensures err { IfErr result (λ fault. fault ≡ SessionFault.Office) }
{
    match command {
        Command::Sfid(sfid) => take_offer(setting, contact, office, sfid, frame),
        Command::Eerp(eerp) => take_response(setting, contact, office, end_response(eerp), frame),
        Command::Nerp(nerp) => {
            take_response(setting, contact, office, negative_end_response(nerp), frame)
        }
        Command::Cd => {
            frame.clear();
            Ok(State::SpeakerIdle(contact, WhenDone::EndSession))
        }
        _ => Ok(State::unexpected(command, frame)),
    }
}
