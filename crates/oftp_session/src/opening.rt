//! How a session opens (RFC 5024, sections 4.2, 5.3.1 and 5.3.2).

ghost use Rattle.std.specs.Prelude.{◌≡◌, ◌≤◌, min, option_map};
ghost use Rattle.oftp_session.specs.Settings.{setting_of};
ghost use Rattle.oftp_session.specs.Opening.{agreed, answered_mode, called_as, calling_step, came_awaiting_ssid, came_initiator_opening, contact_of, flows, is_opposed, may_receive, may_send, open_step, opened_step, ssid_verdict};
ghost use Rattle.oftp_session.specs.InsideOpening.{agreement_of, shown};
ghost use Rattle.oftp_session.specs.Inside.{Goes};

use crate::commands::{answering_ssid, calling_ssid};
use crate::frame::Frame;
use crate::link::{Link, WhenDone};
use crate::payloads::payload_size;
use crate::state::{Contact, State};
use oftp_partners::{Book, Partner};
use oftp_register::{Cursor, Name};
use oftp_wire::{Command, Count, Mode, SessionReason, Ssid, X};
use std::alloc::Global;

// What is constant in a session: the allocator, the book, and the partner that an initiator calls.
#[derive(Clone, Copy, Drop)]
pub(crate) struct Setting<'b> {
    pub(crate) alloc: Global,
    pub(crate) book: &'b Book,
    pub(crate) called: Option<&'b Partner>,
}

// The partner of a session, and what is agreed with it.
#[derive(Clone, Copy, Drop)]
pub(crate) struct Agreement<'b> {
    pub(crate) partner: &'b Partner,
    pub(crate) link: Link,
}

impl<'b> Agreement<'b> {
    // An open session that has tried nothing yet.
    fn contact(&self) -> Contact
        ensures { result ≡ contact_of (agreement_of self.now) }
    {
        Contact {
            code: Name::of(&self.partner.code.field()),
            link: self.link,
            tried: Cursor {
                response: 0,
                file: 0,
            },
        }
    }
}

// Whether a station in this mode sends files.
fn may_send(mode: Mode) -> bool
    ensures { result ≡ may_send mode }
{
    match mode {
        Mode::Send | Mode::Both => true,
        Mode::Receive => false,
    }
}

// Whether a station in this mode receives files.
fn may_receive(mode: Mode) -> bool
    ensures { result ≡ may_receive mode }
{
    match mode {
        Mode::Receive | Mode::Both => true,
        Mode::Send => false,
    }
}

// Whether a station in mode `from` sends what one in mode `to` receives.
fn flows(from: Mode, to: Mode) -> bool
    ensures { result ≡ flows from to }
{
    may_send(from) && may_receive(to)
}

// Whether both stations only send, or both only receive, so that no file can go either way.
fn is_opposed(own: Mode, letter: Mode) -> bool
    ensures { result ≡ is_opposed own letter }
{
    !flows(own, letter) && !flows(letter, own)
}

// The mode that answers the partner's.
pub(crate) fn answered_mode(own: Mode, letter: Mode) -> Mode
    ensures { result ≡ answered_mode own letter }
{
    match letter {
        Mode::Send => Mode::Receive,
        Mode::Receive => Mode::Send,
        Mode::Both => own,
    }
}

// What is agreed with a partner that sends this SSID.
fn agreed(book: &Book, partner: &Partner, ssid: &Ssid<'_>) -> Link
    requires buffer { 128 ≤ ssid.now.buffer }
    requires credit { 1 ≤ ssid.now.credit }
    ensures { result ≡ agreed book.now partner.now ssid.now }
{
    let station = book.station();
    Link {
        buffer: Count::new(station.buffer.field().get().min(ssid.buffer.get())),
        credit: Count::new(station.credit.field().get().min(ssid.credit.get())),
        restart: station.restart && ssid.restart,
        sends: flows(partner.mode, ssid.mode),
        receives: flows(ssid.mode, partner.mode),
    }
}

// The partner with a code: for an initiator only the one that it called, for a responder any partner of the book.
fn partner_for<'b>(
    book: &'b Book,
    called: Option<&'b Partner>,
    code: &X<'_, 25>,
) -> Option<&'b Partner>
    ensures { option_map (λ p. p.now) result
        ≡ called_as code.now book.entry.now.partners (option_map (λ p. p.now) called.entry) }
{
    match called {
        None => book.partner(code.octets()),
        Some(partner) => {
            if code.octets() == partner.code.field().octets() {
                Some(partner)
            } else {
                None
            }
        }
    }
}

// What is agreed with a partner that sends this SSID, or the reason to end the session.
#[tactic(auto, unfolding(crate::specs::Opening::ssid_verdict))]
fn ssid_verdict<'b>(setting: Setting<'b>, ssid: &Ssid<'_>) -> Result<Agreement<'b>, SessionReason>
    ensures { shown result ≡ ssid_verdict (setting_of setting.entry) ssid.now }
{
    if ssid.level.get() != 5 {
        return Err(SessionReason::ModeIncompatible);
    }
    if ssid.buffer.get() < 128 || ssid.credit.get() == 0 {
        return Err(SessionReason::InvalidData);
    }
    let Some(partner) = partner_for(setting.book, setting.called, &ssid.code) else {
        return Err(SessionReason::UserCodeNotKnown);
    };
    if ssid.password.octets() != partner.expects.field().octets() {
        return Err(SessionReason::InvalidPassword);
    }
    if setting.called.is_some() && (ssid.compression || ssid.special_logic) {
        return Err(SessionReason::ModeIncompatible);
    }
    if is_opposed(partner.mode, ssid.mode) {
        return Err(SessionReason::ModeIncompatible);
    }
    if ssid.authentication {
        return Err(SessionReason::AuthenticationIncompatible);
    }
    Ok(Agreement {
        partner,
        link: agreed(setting.book, partner, ssid),
    })
}

// Goes on after an agreement: a responder sends its SSID, an initiator becomes the speaker.
fn agree(setting: Setting<'_>, letter: Mode, agreement: &Agreement<'_>, frame: &mut Frame) -> State
    ensures { let known = setting_of setting.entry in
        Goes (open_step known letter (agreement_of agreement.now) known.called) result frame.new }
{
    if agreement.link.sends {
        frame.reserve(setting.alloc, payload_size(&agreement.link));
    }
    if setting.called.is_some() {
        frame.clear();
        return State::SpeakerIdle(agreement.contact(), WhenDone::ChangeDirection);
    }
    frame.set_command(&answering_ssid(setting.book, letter, agreement));
    State::ListenerIdle(agreement.contact())
}

// Opens the session with a partner that sends this SSID, or ends it.
fn open(setting: Setting<'_>, ssid: &Ssid<'_>, frame: &mut Frame) -> State
    ensures { let known = setting_of setting.entry in
        Goes (opened_step known ssid.now.mode (ssid_verdict known ssid.now)) result frame.new }
{
    match ssid_verdict(setting, ssid) {
        Ok(agreement) => agree(setting, ssid.mode, &agreement, frame),
        Err(reason) => State::ended_here(reason, frame),
    }
}

// Sends SSID to the partner that was called.
fn offer(setting: Setting<'_>, frame: &mut Frame) -> State
    ensures { let known = setting_of setting.entry in Goes (calling_step known known.called) result frame.new }
{
    match setting.called {
        Some(partner) => {
            frame.set_command(&calling_ssid(setting.book, partner));
            State::AwaitingSsid
        }
        None => State::ended_here(SessionReason::ProtocolViolation, frame),
    }
}

// Executes a command that arrives while an initiator waits for SSRM.
#[tactic(auto, unfolding(crate::specs::Opening::came_initiator_opening))]
pub(crate) fn in_initiator_opening(
    setting: Setting<'_>,
    command: &Command<'_>,
    frame: &mut Frame,
) -> State
    ensures { Goes (came_initiator_opening (setting_of setting.entry) command.now) result frame.new }
{
    match command {
        Command::Ssrm => offer(setting, frame),
        _ => State::unexpected(command, frame),
    }
}

// Executes a command that arrives while the partner's SSID is missing.
#[tactic(auto, unfolding(crate::specs::Opening::came_awaiting_ssid))]
pub(crate) fn in_awaiting_ssid(
    setting: Setting<'_>,
    command: &Command<'_>,
    frame: &mut Frame,
) -> State
    ensures { Goes (came_awaiting_ssid (setting_of setting.entry) command.now) result frame.new }
{
    match command {
        Command::Ssid(ssid) => open(setting, ssid, frame),
        _ => State::unexpected(command, frame),
    }
}
