//! The octets and numbers of outcomes and faults.

ghost use Rattle.std.specs.Prelude.{◌≡◌, ◌<◌, IfSome, Some};
ghost use Rattle.oftp_wire.specs.Reasons.{session_number};
ghost use Rattle.oftp_wire.specs.declared.reason.SessionReason.{SessionReason};
ghost use Rattle.oftp_partners.specs.Faults.{number_of};
ghost use Rattle.oftp_partners.specs.declared.fault.BookFault.{BookFault};
ghost use Rattle.oftp_tables.specs.declared.fault.StoreFault.{StoreFault};
ghost use Rattle.oftp_engine.specs.declared.operating.Refusal.{Refusal};
ghost use Rattle.oftp_engine.specs.declared.serving.End.{End};
ghost use Rattle.oftp_engine.specs.declared.serving.RunFault.{RunFault};
ghost use Rattle.oftp_outcomes.specs.declared.outcome.Fault.{Fault};
ghost use Rattle.oftp_outcomes.specs.declared.outcome.Outcome.{Outcome};
ghost use Rattle.oftp_outcomes.specs.declared.outcome.Verb.{Verb};
ghost use Rattle.oftp_channel.specs.Endings.{IsEnd, IsOutcome, bare, end_label, fault_label, labelled, outcome_label, refusal_number, run_number, store_number, verb_kind};

use oftp_engine::{End, Refusal, RunFault};
use oftp_outcomes::{Fault, Outcome, Verb};
use oftp_partners::BookFault;
use oftp_tables::StoreFault;
use oftp_wire::{Count, SessionReason};

// The octet of a kind, and the number that goes with it.
#[derive(Clone, Copy, Drop)]
pub(crate) struct Label {
    pub(crate) kind: u8,
    pub(crate) number: u64,
}

impl Label {
    // The label of a kind that has a number.
    fn new(kind: u8, number: u64) -> Label
        ensures { result ≡ labelled kind number }
    {
        Label { kind, number }
    }

    // The label of a kind that has no number.
    pub(crate) fn bare(kind: u8) -> Label
        ensures { result ≡ bare kind }
    {
        Label { kind, number: 0 }
    }
}

// The number of a refusal.
fn refusal_number(why: Refusal) -> u64
    ensures { result ≡ refusal_number why }
{
    match why {
        Refusal::Duplicate => 1,
        Refusal::Unknown => 2,
        Refusal::State => 3,
        Refusal::Limit => 4,
        Refusal::Field => 5,
    }
}

// The refusal with a number.
fn refusal_at(number: u64) -> Option<Refusal>
    ensures one { IfSome result (λ why. refusal_number why ≡ number) }
    ensures found { (why : Refusal) → refusal_number why ≡ number → result ≡ Some why }
{
    match number {
        1 => Some(Refusal::Duplicate),
        2 => Some(Refusal::Unknown),
        3 => Some(Refusal::State),
        4 => Some(Refusal::Limit),
        5 => Some(Refusal::Field),
        _ => None,
    }
}

// The number of an error of a session or a command.
fn run_number(fault: RunFault) -> u64
    ensures { result ≡ run_number fault }
{
    match fault {
        RunFault::Read => 1,
        RunFault::Write => 2,
        RunFault::Office => 3,
        RunFault::Memory => 4,
    }
}

// The error of a session or a command with a number.
fn run_at(number: u64) -> Option<RunFault>
    ensures one { IfSome result (λ fault. run_number fault ≡ number) }
    ensures found { (fault : RunFault) → run_number fault ≡ number → result ≡ Some fault }
{
    match number {
        1 => Some(RunFault::Read),
        2 => Some(RunFault::Write),
        3 => Some(RunFault::Office),
        4 => Some(RunFault::Memory),
        _ => None,
    }
}

// The number of an error of the database.
fn store_number(fault: StoreFault) -> u64
    ensures { result ≡ store_number fault }
{
    match fault {
        StoreFault::Store => 1,
        StoreFault::Memory => 2,
        StoreFault::WrongSchema => 3,
    }
}

// The error of the database with a number.
fn store_at(number: u64) -> Option<StoreFault>
    ensures one { IfSome result (λ fault. store_number fault ≡ number) }
    ensures found { (fault : StoreFault) → store_number fault ≡ number → result ≡ Some fault }
{
    match number {
        1 => Some(StoreFault::Store),
        2 => Some(StoreFault::Memory),
        3 => Some(StoreFault::WrongSchema),
        _ => None,
    }
}

// The fault of a book with a number.
fn book_at(number: u64) -> Option<BookFault>
    ensures one { IfSome result (λ fault. number_of fault ≡ number) }
    ensures found { (fault : BookFault) → number_of fault ≡ number → result ≡ Some fault }
{
    match number {
        1 => Some(BookFault::NotToml),
        2 => Some(BookFault::MissingKey),
        3 => Some(BookFault::WrongKind),
        4 => Some(BookFault::BadCode),
        5 => Some(BookFault::BadNumber),
        6 => Some(BookFault::DuplicateCode),
        7 => Some(BookFault::TooMany),
        8 => Some(BookFault::Memory),
        _ => None,
    }
}

// The label of a fault.
pub(crate) fn fault_label(fault: Fault) -> Label
    ensures { result ≡ fault_label fault }
{
    match fault {
        Fault::Run(fault) => Label::new(30, run_number(fault)),
        Fault::Book(fault) => Label::new(31, u64::from(fault.number())),
        Fault::Store(fault) => Label::new(32, store_number(fault)),
        Fault::File => Label::bare(33),
        Fault::Socket => Label::bare(34),
    }
}

// The fault with a label.
pub(crate) fn fault_at(label: Label) -> Option<Fault>
    ensures one { IfSome result (λ fault. fault_label fault ≡ label) }
    ensures found { (fault : Fault) → fault_label fault ≡ label → result ≡ Some fault }
{
    match label.kind {
        30 => run_at(label.number).map(Fault::Run),
        31 => book_at(label.number).map(Fault::Book),
        32 => store_at(label.number).map(Fault::Store),
        33 if label.number == 0 => Some(Fault::File),
        34 if label.number == 0 => Some(Fault::Socket),
        _ => None,
    }
}

// The label of a session's end.
fn end_label(end: End) -> Label
    ensures { result ≡ end_label end }
{
    match end {
        End::Own(reason) => Label::new(14, reason.number().get()),
        End::Partner(number) => Label::new(15, number.get()),
        End::Input => Label::bare(16),
    }
}

// A number of two digits.
fn two_digits(number: u64) -> Option<Count<2>>
    ensures one { IfSome result (λ count. (count ≡ number) × (number < 100)) }
    ensures found { number < 100 → result ≡ Some number }
{
    if number < 100 {
        Some(Count::new(number))
    } else {
        None
    }
}

// The reason of ESID with a number.
fn reason_at(number: u64) -> Option<SessionReason>
    ensures one { IfSome result (λ reason. session_number reason ≡ number) }
    ensures found { (reason : SessionReason) → session_number reason ≡ number → result ≡ Some reason }
{
    SessionReason::from_number(two_digits(number)?)
}

// The session's end with a label.
fn end_at(label: Label) -> Option<End>
    ensures one { IfSome result (λ end. IsEnd end × (end_label end ≡ label)) }
    ensures found { (end : End) → IsEnd end → end_label end ≡ label → result ≡ Some end }
{
    match label.kind {
        14 => reason_at(label.number).map(End::Own),
        15 => two_digits(label.number).map(End::Partner),
        16 if label.number == 0 => Some(End::Input),
        _ => None,
    }
}

// The octet of what is done with one file.
fn verb_kind(verb: Verb) -> u8
    ensures { result ≡ verb_kind verb }
{
    match verb {
        Verb::Submit => 17,
        Verb::Release => 18,
        Verb::Refuse => 19,
        Verb::Fetch => 20,
    }
}

// What is done with one file, by its octet.
fn verb_at(kind: u8) -> Option<Verb>
    ensures one { IfSome result (λ verb. verb_kind verb ≡ kind) }
    ensures found { (verb : Verb) → verb_kind verb ≡ kind → result ≡ Some verb }
{
    match kind {
        17 => Some(Verb::Submit),
        18 => Some(Verb::Release),
        19 => Some(Verb::Refuse),
        20 => Some(Verb::Fetch),
        _ => None,
    }
}

// The label of an outcome.
pub(crate) fn outcome_label(outcome: Outcome) -> Label
    ensures { result ≡ outcome_label outcome }
{
    match outcome {
        Outcome::Initiated => Label::bare(10),
        Outcome::Migrated => Label::bare(11),
        Outcome::Checked(count) => Label::new(12, count as u64),
        Outcome::BackedUp => Label::bare(13),
        Outcome::Stopped => Label::bare(22),
        Outcome::Reloaded => Label::bare(23),
        Outcome::Ended(end) => end_label(end),
        Outcome::Done(verb, number) => Label::new(verb_kind(verb), number),
        Outcome::Refused(why) => Label::new(21, refusal_number(why)),
    }
}

// The outcome with a label.
pub(crate) fn outcome_at(label: Label) -> Option<Outcome>
    ensures one { IfSome result (λ outcome. IsOutcome outcome × (outcome_label outcome ≡ label)) }
    ensures found { (outcome : Outcome) → IsOutcome outcome → outcome_label outcome ≡ label → result ≡ Some outcome }
{
    if let Some(end) = end_at(label) {
        return Some(Outcome::Ended(end));
    }
    if let Some(verb) = verb_at(label.kind) {
        return Some(Outcome::Done(verb, label.number));
    }
    match label.kind {
        10 if label.number == 0 => Some(Outcome::Initiated),
        11 if label.number == 0 => Some(Outcome::Migrated),
        12 => Some(Outcome::Checked(label.number as usize)),
        13 if label.number == 0 => Some(Outcome::BackedUp),
        21 => refusal_at(label.number).map(Outcome::Refused),
        22 if label.number == 0 => Some(Outcome::Stopped),
        23 if label.number == 0 => Some(Outcome::Reloaded),
        _ => None,
    }
}
