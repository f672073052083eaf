//! How far a session is, by what both sides have said (RFC 5024, section 9).

ghost use Rattle.std.specs.Prelude.{◌≡◌};
ghost use Rattle.oftp_conformance.specs.Sessions.{other, new_session, begun, agreed_credit, agreed_buffer, owing_in, owing, takes, start_in, started, making_of, transfer_of, at_position, answered, accepted, carried, spent, phase_after, turn_by, after_command, after_kind};

use crate::walk::{Walk, first_walk, walk_over};
use oftp_telling::{CommandKind, Sender};
use oftp_wire::{Command, Layout, Sfid, Ssid, X};

/// What comes next in a session.
#[derive(Clone, Copy, Debug, Drop, PartialEq, Eq)]
pub enum Phase {
    /// SSRM of the side that was called.
    Greeting,
    /// SSID of the side that called.
    Starting,
    /// SSID of the side that was called.
    Answering,
    /// SFID, EERP, NERP, CD or ESID of the speaker.
    Speaking,
    /// SFPA or SFNA of the listener.
    Offered,
    /// DATA or EFID of the speaker.
    Sending,
    /// CDT of the listener.
    Refilling,
    /// EFPA or EFNA of the listener.
    Closing,
    /// CD of the speaker, which the listener asked for.
    Turning,
    /// RTR of the listener.
    Responding,
    /// Nothing: the session is over.
    Over,
}

/// How the speaker got its turn.
#[derive(Clone, Copy, Debug, Drop, PartialEq, Eq)]
pub enum Turn {
    /// It had it before, or had asked for it.
    Kept,
    /// The other side gave it away unasked, and nothing was sent since.
    Given,
}

/// How a file is made.
#[derive(Clone, Copy, Debug, Drop, PartialEq, Eq)]
pub enum Making {
    /// Of records: F and V.
    Records,
    /// It is a stream of octets: U and T.
    Stream,
}

/// What a side says in its SSID, as far as later commands depend on it.
#[derive(Drop)]
pub struct Start<'f> {
    /// Its code.
    pub code: X<'f, 25>,
    /// The size of its Data Exchange Buffer, in octets.
    pub buffer: u64,
    /// Its Credit, in DATA commands.
    pub credit: u64,
    /// Whether buffers may be compressed.
    pub compression: bool,
    /// Whether special logic is used.
    pub special_logic: bool,
}

/// A file under way.
#[derive(Clone, Copy, Debug, PartialEq, Eq)]
pub struct Transfer {
    /// How it is made.
    pub making: Making,
    /// The position that was offered.
    pub offered: u64,
    /// The position that was agreed on.
    pub agreed: u64,
    /// A walk over its buffers so far.
    pub walk: Walk,
}

/// A session, by what both sides have said.
#[derive(Drop)]
pub struct Session<'f> {
    /// The side that called.
    pub initiator: Sender,
    /// What it said in its SSID, if that came and could be read.
    pub offer: Option<Start<'f>>,
    /// What the other side said in its SSID.
    pub answer: Option<Start<'f>>,
    /// What comes next.
    pub phase: Phase,
    /// The speaker.
    pub speaker: Sender,
    /// How it got its turn.
    pub turn: Turn,
    /// How many DATA may come before a CDT, if both SSIDs could be read.
    pub credit: Option<u64>,
    /// The file under way, if its SFID could be read.
    pub file: Option<Transfer>,
}

/// The other side.
pub(crate) fn other(side: Sender) -> Sender
    ensures { result ≡ other side }
{
    match side {
        Sender::Partner => Sender::Station,
        Sender::Station => Sender::Partner,
    }
}

/// Whether a phase takes commands of a kind, but for ESID, which may end each.
pub(crate) fn takes(phase: Phase, kind: CommandKind) -> bool
    ensures { result ≡ takes phase kind }
{
    match phase {
        Phase::Greeting => matches!(kind, CommandKind::Ssrm),
        Phase::Starting | Phase::Answering => matches!(kind, CommandKind::Ssid),
        Phase::Speaking => matches!(
            kind,
            CommandKind::Sfid | CommandKind::Eerp | CommandKind::Nerp | CommandKind::Cd
        ),
        Phase::Offered => matches!(kind, CommandKind::Sfpa | CommandKind::Sfna),
        Phase::Sending => matches!(kind, CommandKind::Data | CommandKind::Efid),
        Phase::Refilling => matches!(kind, CommandKind::Cdt),
        Phase::Closing => matches!(kind, CommandKind::Efpa | CommandKind::Efna),
        Phase::Turning => matches!(kind, CommandKind::Cd),
        Phase::Responding => matches!(kind, CommandKind::Rtr),
        Phase::Over => false,
    }
}

// What an SSID says.
fn start_in<'f>(s: &Ssid<'f>) -> Start<'f>
    ensures { result ≡ start_in s.now }
{
    Start {
        code: s.code.again(),
        buffer: s.buffer.get(),
        credit: s.credit.get(),
        compression: s.compression,
        special_logic: s.special_logic,
    }
}

// How a file is made.
fn making_of(layout: Layout) -> Making
    ensures { result ≡ making_of layout }
{
    match layout {
        Layout::Fixed(_) | Layout::Variable(_) => Making::Records,
        Layout::Unstructured | Layout::Text => Making::Stream,
    }
}

// The file that an SFID offers.
fn transfer_of(s: &Sfid<'_>) -> Transfer
    ensures { result ≡ transfer_of s.now }
{
    Transfer {
        making: making_of(s.layout),
        offered: s.restart.get(),
        agreed: 0,
        walk: first_walk(),
    }
}

// How many DATA may come after one more.
fn spent(credit: Option<u64>) -> Option<u64>
    ensures { result ≡ spent credit }
{
    match credit {
        Some(count) => Some(count.saturating_sub(1)),
        None => None,
    }
}

// What comes after DATA, where so many may come.
fn phase_after(credit: Option<u64>) -> Phase
    ensures { result ≡ phase_after credit }
{
    match credit {
        Some(0) => Phase::Refilling,
        Some(_) | None => Phase::Sending,
    }
}

// The file under way, from this position on if it is known.
fn at_position(position: Option<u64>, file: Option<Transfer>) -> Option<Transfer>
    ensures { result ≡ at_position position file }
{
    match (position, file) {
        (Some(agreed), Some(file)) => Some(Transfer { agreed, ..file }),
        _ => None,
    }
}

// How the other side gets the turn by a CD in this phase.
fn turn_by(phase: Phase) -> Turn
    ensures { result ≡ turn_by phase }
{
    match phase {
        Phase::Turning => Turn::Kept,
        _ => Turn::Given,
    }
}

impl<'f> Session<'f> {
    /// A session before its first command, which this side began.
    pub fn new(initiator: Sender) -> Session<'f>
        ensures { result ≡ new_session initiator }
    {
        Session {
            initiator,
            offer: None,
            answer: None,
            phase: Phase::Greeting,
            speaker: initiator,
            turn: Turn::Kept,
            credit: None,
            file: None,
        }
    }

    /// A session before its first command, where the partner's first one begins as this kind does: it was called if that is an SSRM.
    pub fn begun(first: Option<CommandKind>) -> Session<'f>
        ensures { result ≡ begun first }
    {
        match first {
            Some(CommandKind::Ssrm) => Session::new(Sender::Station),
            _ => Session::new(Sender::Partner),
        }
    }

    /// The Credit that both agreed on.
    fn agreed_credit(&self) -> Option<u64>
        ensures { result ≡ agreed_credit self.now }
    {
        let Some(offer) = &self.offer else {
            return None;
        };
        let Some(answer) = &self.answer else {
            return None;
        };
        Some(offer.credit.min(answer.credit))
    }

    /// The size of the Data Exchange Buffer that both agreed on, in octets.
    pub(crate) fn agreed_buffer(&self) -> Option<u64>
        ensures { result ≡ agreed_buffer self.now }
    {
        let Some(offer) = &self.offer else {
            return None;
        };
        let Some(answer) = &self.answer else {
            return None;
        };
        Some(offer.buffer.min(answer.buffer))
    }

    /// The side whose command comes next.
    pub fn owing(&self) -> Sender
        ensures { result ≡ owing self.now }
    {
        match self.phase {
            Phase::Starting => self.initiator,
            Phase::Greeting | Phase::Answering => other(self.initiator),
            Phase::Speaking | Phase::Sending | Phase::Turning | Phase::Over => self.speaker,
            Phase::Offered | Phase::Refilling | Phase::Closing | Phase::Responding => {
                other(self.speaker)
            }
        }
    }

    // Takes the SSID of a side.
    fn take_start(&mut self, who: Sender, start: Option<Start<'f>>)
        ensures { self.new ≡ started self.old who start.entry }
    {
        if who == self.initiator {
            self.offer = start;
            self.phase = Phase::Answering;
            return;
        }
        self.answer = start;
        self.phase = Phase::Speaking;
        self.speaker = self.initiator;
        self.turn = Turn::Kept;
    }

    // Gives the speaker its turn again, after an answer of this side.
    fn take_answer(&mut self, who: Sender)
        ensures { self.new ≡ answered self.old who }
    {
        self.phase = Phase::Speaking;
        self.speaker = other(who);
        self.turn = Turn::Kept;
    }

    // Takes DATA.
    fn take_data(&mut self, who: Sender, payload: &[u8])
        ensures { self.new ≡ carried self.old who payload.now }
    {
        self.credit = spent(self.credit);
        self.phase = phase_after(self.credit);
        self.speaker = who;
        if let Some(file) = self.file {
            self.file = Some(Transfer {
                walk: walk_over(file.walk, payload),
                ..file
            });
        }
    }

    // Takes an SFPA, from a position on if that could be read.
    fn take_acceptance(&mut self, who: Sender, position: Option<u64>)
        ensures { self.new ≡ accepted self.old who position }
    {
        self.phase = Phase::Sending;
        self.speaker = other(who);
        self.credit = self.agreed_credit();
        self.file = at_position(position, self.file);
    }

    // Takes a command that changes whose turn it is, and in which phase: a CDT, an EFID, a response.
    fn enter(&mut self, phase: Phase, speaker: Sender)
        ensures { self.new ≡ record self.old { phase = phase; speaker = speaker } }
    {
        self.phase = phase;
        self.speaker = speaker;
    }

    // Takes an ESID.
    fn take_end(&mut self)
        ensures { self.new ≡ record self.old { phase = Phase.Over } }
    {
        self.phase = Phase::Over;
    }

    // Takes a CDT.
    fn take_credit(&mut self, who: Sender)
        ensures { self.new ≡ record self.old { phase = Phase.Sending; speaker = other who; credit = agreed_credit self.old } }
    {
        self.credit = self.agreed_credit();
        self.enter(Phase::Sending, other(who));
    }

    // Takes an SFID, with its file if it could be read.
    fn take_offer(&mut self, who: Sender, file: Option<Transfer>)
        ensures { self.new ≡ record self.old { phase = Phase.Offered; speaker = who; file = file } }
    {
        self.file = file;
        self.enter(Phase::Offered, who);
    }

    // Takes a CD.
    fn take_turn(&mut self, who: Sender)
        ensures { self.new ≡ record self.old { phase = Phase.Speaking; speaker = other who; turn = turn_by self.old.phase } }
    {
        self.turn = turn_by(self.phase);
        self.enter(Phase::Speaking, other(who));
    }

    // Takes an SSRM.
    fn take_greeting(&mut self, who: Sender)
        ensures { self.new ≡ record self.old { phase = Phase.Starting; initiator = other who } }
    {
        self.initiator = other(who);
        self.phase = Phase::Starting;
    }

    /// Takes a command of a side.
    pub(crate) fn take(&mut self, who: Sender, command: &Command<'f>)
        ensures { self.new ≡ after_command self.old who command.now }
    {
        match command {
            Command::Ssrm => self.take_greeting(who),
            Command::Ssid(s) => self.take_start(who, Some(start_in(s))),
            Command::Sfid(s) => self.take_offer(who, Some(transfer_of(s))),
            Command::Sfpa(s) => self.take_acceptance(who, Some(s.restart.get())),
            Command::Data(s) => self.take_data(who, s.octets()),
            Command::Cdt => self.take_credit(who),
            Command::Efid(_) => self.enter(Phase::Closing, who),
            Command::Efpa(s) if s.change_direction => self.enter(Phase::Turning, other(who)),
            Command::Sfna(_) | Command::Efpa(_) | Command::Efna(_) | Command::Rtr => {
                self.take_answer(who)
            }
            Command::Esid(_) => self.take_end(),
            Command::Cd => self.take_turn(who),
            Command::Eerp(_) | Command::Nerp(_) => self.enter(Phase::Responding, who),
        }
    }

    /// Takes a command of a side of which only the kind could be read.
    pub(crate) fn take_kind(&mut self, who: Sender, kind: CommandKind)
        ensures { self.new ≡ after_kind self.old who kind }
    {
        match kind {
            CommandKind::Ssrm => self.take_greeting(who),
            CommandKind::Ssid => self.take_start(who, None),
            CommandKind::Sfid => self.take_offer(who, None),
            CommandKind::Sfpa => self.take_acceptance(who, None),
            CommandKind::Data => self.take_data(who, &[]),
            CommandKind::Cdt => self.take_credit(who),
            CommandKind::Efid => self.enter(Phase::Closing, who),
            CommandKind::Sfna | CommandKind::Efpa | CommandKind::Efna | CommandKind::Rtr => {
                self.take_answer(who)
            }
            CommandKind::Esid => self.take_end(),
            CommandKind::Cd => self.take_turn(who),
            CommandKind::Eerp | CommandKind::Nerp => self.enter(Phase::Responding, who),
        }
    }
}
