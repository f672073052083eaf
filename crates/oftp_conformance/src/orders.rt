//! Which rules a command breaks by its place in a session, and by what the other side has said.

ghost use Rattle.std.specs.Prelude.{◌≡◌, option_map};
ghost use Rattle.oftp_conformance.specs.Orders.{rule_if, is_fresh, end_rule, misplaced, due_rule, place_rule, no_rules, answer_rules, start_rules, is_other_code, file_rules, position_rules, is_too_long, file_walk, goes_beyond, is_hollow, data_rules, record_rule, unit_rule, count_rules, are_codes, code_rule, response_rules, command_rules, said_rules, code_field, order_field};
ghost use Rattle.oftp_conformance.specs.Sessions.{start_of};

use crate::order_rule::OrderRule;
use crate::session::{Making, Phase, Session, Start, Transfer, Turn, other, takes};
use crate::walk::{Walk, walk_over};
use oftp_telling::{CommandKind, Sender};
use oftp_vfile::Stage;
use oftp_wire::{Command, Efid, Sfid, Ssid};

/// The rules that a command breaks by what it says; fewer where it breaks fewer.
type Rules = [Option<OrderRule>; 3];

// None of them.
fn no_rules() -> Rules
    ensures { result ≡ no_rules }
{
    [None, None, None]
}

// A rule, if it is broken.
fn rule_if(is_broken: bool, rule: OrderRule) -> Option<OrderRule>
    ensures { result ≡ rule_if is_broken rule }
{
    if is_broken { Some(rule) } else { None }
}

// Whether the speaker got its turn by a CD that it hadn't asked for, and has sent nothing since.
fn is_fresh(session: &Session<'_>) -> bool
    ensures { result ≡ is_fresh session.now }
{
    matches!(session.phase, Phase::Speaking) && matches!(session.turn, Turn::Given)
}

// The rule that an ESID breaks.
fn end_rule(session: &Session<'_>, who: Sender, command: Option<&Command<'_>>) -> Option<OrderRule>
    ensures { result ≡ end_rule session.now who (option_map (λ c. c.now) command.entry) }
{
    match command {
        Some(Command::Esid(s)) => {
            let is_due = who == session.speaker && is_fresh(session);
            rule_if(s.reason.get() == 0 && !is_due, OrderRule::EarlyEnd)
        }
        _ => None,
    }
}

// The rule that a command breaks which a phase doesn't take, or not from this side.
fn misplaced(phase: Phase, kind: CommandKind) -> OrderRule
    ensures { result ≡ misplaced phase kind }
{
    match (phase, kind) {
        (Phase::Refilling, CommandKind::Data | CommandKind::Efid) => OrderRule::MissingCredit,
        (Phase::Responding, _) => OrderRule::BeforeReady,
        (Phase::Turning, _) => OrderRule::NoTurn,
        (_, CommandKind::Cdt) => OrderRule::EarlyCredit,
        _ => OrderRule::OutOfPlace,
    }
}

// The rule that a command breaks in its place.
fn due_rule(session: &Session<'_>, kind: CommandKind) -> Option<OrderRule>
    ensures { result ≡ due_rule session.now kind }
{
    match kind {
        CommandKind::Cd => rule_if(is_fresh(session), OrderRule::SecondTurn),
        _ => None,
    }
}

/// The rule that a command of a kind breaks by its place.
pub(crate) fn place_rule(
    session: &Session<'_>,
    who: Sender,
    kind: CommandKind,
    command: Option<&Command<'_>>,
) -> Option<OrderRule>
    ensures { result ≡ place_rule session.now who kind (option_map (λ c. c.now) command.entry) }
{
    match kind {
        CommandKind::Esid => end_rule(session, who, command),
        _ if who == session.owing() && takes(session.phase, kind) => due_rule(session, kind),
        _ => Some(misplaced(session.phase, kind)),
    }
}

// The rules that an answer breaks, where this was offered.
fn answer_rules(offer: &Option<Start<'_>>, s: &Ssid<'_>) -> Rules
    ensures { result ≡ answer_rules offer.now s.now }
{
    match offer {
        Some(offer) => [
            rule_if(offer.credit < s.credit.get(), OrderRule::CreditRaised),
            rule_if(
                s.compression && !offer.compression,
                OrderRule::CompressionAnswered,
            ),
            rule_if(
                s.special_logic && !offer.special_logic,
                OrderRule::LogicAnswered,
            ),
        ],
        None => no_rules(),
    }
}

// The rules that an SSID breaks.
fn start_rules(session: &Session<'_>, who: Sender, s: &Ssid<'_>) -> Rules
    ensures { result ≡ start_rules session.now who s.now }
{
    if who == session.initiator {
        no_rules()
    } else {
        answer_rules(&session.offer, s)
    }
}

// The SSID of a side.
fn start_of<'s, 'f>(session: &'s Session<'f>, who: Sender) -> &'s Option<Start<'f>>
    ensures { result.now ≡ start_of session.now who }
{
    if who == session.initiator {
        &session.offer
    } else {
        &session.answer
    }
}

// Whether a code isn't that of a side whose SSID is known.
fn is_other_code(start: &Option<Start<'_>>, code: &[u8]) -> bool
    ensures { result ≡ is_other_code start.now code.now }
{
    match start {
        Some(start) => start.code.octets() != code,
        None => false,
    }
}

// The rules that an SFID breaks.
fn file_rules(session: &Session<'_>, who: Sender, s: &Sfid<'_>) -> Rules
    ensures { result ≡ file_rules session.now who s.now }
{
    let own = start_of(session, who);
    let others = start_of(session, other(who));
    [
        rule_if(
            is_other_code(own, s.originator.octets()),
            OrderRule::OtherOriginator,
        ),
        rule_if(
            is_other_code(others, s.destination.octets()),
            OrderRule::OtherDestination,
        ),
        None,
    ]
}

// The rules that an SFPA with this position breaks.
fn position_rules(file: Option<Transfer>, position: u64) -> Rules
    ensures { result ≡ position_rules file position }
{
    match file {
        Some(file) => [
            rule_if(file.offered < position, OrderRule::PositionRaised),
            None,
            None,
        ],
        None => no_rules(),
    }
}

// Whether DATA with so many octets of a file are longer than the buffer.
fn is_too_long(buffer: Option<u64>, len: usize) -> bool
    ensures { result ≡ is_too_long buffer len }
{
    match buffer {
        Some(most) => most <= len as u64,
        None => false,
    }
}

// A walk over the next buffer of a file that is known, if it is a stream.
fn file_walk(file: Option<Transfer>, payload: &[u8]) -> Option<Walk>
    ensures { result ≡ file_walk file payload.now }
{
    let Some(file) = file else {
        return None;
    };
    match file.making {
        Making::Records => None,
        Making::Stream => Some(walk_over(file.walk, payload)),
    }
}

// Whether subrecords that say something are behind the end of a stream.
fn goes_beyond(walk: Option<Walk>) -> bool
    ensures { result ≡ goes_beyond walk }
{
    match walk {
        Some(walk) => walk.beyond,
        None => false,
    }
}

// Whether empty subrecords are behind the end of a stream.
fn is_hollow(walk: Option<Walk>) -> bool
    ensures { result ≡ is_hollow walk }
{
    match walk {
        Some(walk) => walk.hollow,
        None => false,
    }
}

// The rules that DATA break.
fn data_rules(session: &Session<'_>, payload: &[u8]) -> Rules
    ensures { result ≡ data_rules session.now payload.now }
{
    let is_too_long = is_too_long(session.agreed_buffer(), payload.len());
    let walk = file_walk(session.file, payload);
    [
        rule_if(is_too_long, OrderRule::TooLong),
        rule_if(goes_beyond(walk), OrderRule::BehindEnd),
        rule_if(is_hollow(walk), OrderRule::EmptyBehind),
    ]
}

// The rule that a record count breaks, where so many records came.
fn record_rule(making: Making, came: u64, count: u64) -> Option<OrderRule>
    ensures { result ≡ record_rule making came count }
{
    match making {
        Making::Stream => rule_if(count != 0, OrderRule::StreamRecords),
        Making::Records => rule_if(count != came, OrderRule::Records(came)),
    }
}

// The rule that a unit count breaks, where so many octets came from this position on.
fn unit_rule(agreed: u64, came: u64, count: u64) -> Option<OrderRule>
    ensures { result ≡ unit_rule agreed came count }
{
    rule_if(agreed == 0 && count != came, OrderRule::Units(came))
}

// The rules that an EFID breaks.
fn count_rules(file: Option<Transfer>, s: &Efid) -> Rules
    ensures { result ≡ count_rules file s.now }
{
    let Some(file) = file else {
        return no_rules();
    };
    let is_open = matches!(file.walk.stage, Stage::Open);
    let came = file.agreed.saturating_add(file.walk.ends);
    [
        rule_if(is_open, OrderRule::NoEnd),
        record_rule(file.making, came, s.records.get()),
        unit_rule(file.agreed, file.walk.units, s.units.get()),
    ]
}

// Whether the codes of a response are these.
fn are_codes(destination: &[u8], originator: &[u8], to: &Start<'_>, from: &Start<'_>) -> bool
    ensures { result ≡ are_codes destination.now originator.now to.now.code from.now.code }
{
    destination == to.code.octets() && originator == from.code.octets()
}

// The rule that the codes of a response break.
fn code_rule(
    own: &Option<Start<'_>>,
    others: &Option<Start<'_>>,
    destination: &[u8],
    originator: &[u8],
) -> Option<OrderRule>
    ensures { result ≡ code_rule own.now others.now destination.now originator.now }
{
    let Some(own) = own else {
        return None;
    };
    let Some(others) = others else {
        return None;
    };
    if are_codes(destination, originator, others, own) {
        return None;
    }
    if are_codes(destination, originator, own, others) {
        return Some(OrderRule::SwappedCodes);
    }
    Some(OrderRule::OtherCodes)
}

// The rules that a response with these codes breaks.
fn response_rules(
    session: &Session<'_>,
    who: Sender,
    destination: &[u8],
    originator: &[u8],
) -> Rules
    ensures { result ≡ response_rules session.now who destination.now originator.now }
{
    let own = start_of(session, who);
    let others = start_of(session, other(who));
    [code_rule(own, others, destination, originator), None, None]
}

// The rules that a command breaks by what it says.
fn command_rules(session: &Session<'_>, who: Sender, command: &Command<'_>) -> Rules
    ensures { result ≡ command_rules session.now who command.now }
{
    match command {
        Command::Ssid(s) => start_rules(session, who, s),
        Command::Sfid(s) => file_rules(session, who, s),
        Command::Sfpa(s) => position_rules(session.file, s.restart.get()),
        Command::Data(s) => data_rules(session, s.octets()),
        Command::Efid(s) => count_rules(session.file, s),
        Command::Eerp(s) => {
            response_rules(session, who, s.destination.octets(), s.originator.octets())
        }
        Command::Nerp(s) => {
            response_rules(session, who, s.destination.octets(), s.originator.octets())
        }
        _ => no_rules(),
    }
}

/// The rules that a command breaks by what it says, if it could be read.
pub(crate) fn said_rules(
    session: &Session<'_>,
    who: Sender,
    command: Option<&Command<'_>>,
) -> [Option<OrderRule>; 3]
    ensures { result ≡ said_rules session.now who (option_map (λ c. c.now) command.entry) }
{
    match command {
        Some(command) => command_rules(session, who, command),
        None => no_rules(),
    }
}

// The field with a code that a response shows, by its kind.
fn code_field(kind: CommandKind) -> &'static str
    ensures { result.now ≡ code_field kind }
{
    match kind {
        CommandKind::Nerp => "NERPDEST",
        _ => "EERPDEST",
    }
}

/// The field that a rule is about in a command of a kind, empty for a rule on its place.
pub(crate) fn order_field(kind: CommandKind, rule: OrderRule) -> &'static str
    ensures { result.now ≡ order_field kind rule }
{
    match rule {
        OrderRule::EarlyEnd => "ESIDREAS",
        OrderRule::CreditRaised => "SSIDCRED",
        OrderRule::CompressionAnswered => "SSIDCMPR",
        OrderRule::LogicAnswered => "SSIDSPEC",
        OrderRule::OtherOriginator => "SFIDORIG",
        OrderRule::OtherDestination => "SFIDDEST",
        OrderRule::PositionRaised => "SFPAACNT",
        OrderRule::TooLong | OrderRule::BehindEnd | OrderRule::EmptyBehind => "DATABUF",
        OrderRule::StreamRecords | OrderRule::Records(_) => "EFIDRCNT",
        OrderRule::Units(_) => "EFIDUCNT",
        OrderRule::SwappedCodes | OrderRule::OtherCodes => code_field(kind),
        _ => "",
    }
}
