//! The line of what happened to a file: what was noted of it, with what the register has of the file.

ghost use Rattle.std.specs.Prelude.{◌≡◌, ℕ, IfOk, option_and_then, option_map, string_bytes};
ghost use Rattle.oftp_wire.specs.Reasons.{two_digits};
ghost use Rattle.oftp_events.specs.Lines.{line_members, text_data};
ghost use Rattle.oftp_watching.specs.Accounts.{account_of, account_members, account_text, answer_known, far_end, format_known, format_letter, is_final, identity_known, number_known, partner_told, rows_known, side_of, text_value, way_of};
ghost use Rattle.oftp_watching.specs.Answers.{answer_reason, answer_text, answer_words, kind_text};

use crate::answer::{Answer, response_answer};
use crate::known::Known;
use crate::moment::{Moment, Subject};
use crate::occasion::Occasion;
use oftp_events::{Direction, Event, EventLine};
use oftp_register::{DigitString, Identity, IncomingState, Name, Side};
use oftp_vfile::Format;
use oftp_wire::Count;
use std::alloc::{AllocError, Global};

/// All that is told of what happened to a file.
#[derive(Drop)]
pub struct Account {
    occasion: Occasion,
    event: Event,
    side: Side,
    no: Option<u64>,
    identity: Option<Identity>,
    format: Option<Format>,
    rows: Option<u64>,
    units: Option<u64>,
    answer: Option<Answer>,
}

// The table of the file that an event is about.
fn side_of(subject: &Subject) -> Side
    ensures { result ≡ side_of subject.now }
{
    match subject {
        Subject::Numbered(side, _) | Subject::Named(side, _) => *side,
        Subject::Offered(_) => Side::Incoming,
    }
}

// The number of the file, as far as it is known.
fn number_known(subject: &Subject, known: &Option<Known>) -> Option<u64>
    ensures { result ≡ number_known subject.now known.now }
{
    match (known, subject) {
        (Some(Known::Incoming(entry)), _) => Some(entry.no),
        (Some(Known::Outgoing(entry)), _) => Some(entry.no),
        (None, Subject::Numbered(_, no)) => Some(*no),
        (None, Subject::Named(..) | Subject::Offered(_)) => None,
    }
}

// Its identity.
fn identity_known(subject: &Subject, known: &Option<Known>) -> Option<Identity>
    ensures { result ≡ identity_known subject.now known.now }
{
    match (known, subject) {
        (Some(Known::Incoming(entry)), _) => Some(entry.identity.again()),
        (Some(Known::Outgoing(entry)), _) => Some(entry.identity.again()),
        (None, Subject::Named(_, identity) | Subject::Offered(identity)) => Some(identity.again()),
        (None, Subject::Numbered(..)) => None,
    }
}

// Whether an incoming file stays as it is.
fn is_final(state: IncomingState) -> bool
    ensures { result ≡ is_final state }
{
    match state {
        IncomingState::Whole => true,
        IncomingState::Open => false,
    }
}

// Its format: the one that was noted, or else the register's of a file that stays as it is.
fn format_known(noted: Option<Format>, known: &Option<Known>) -> Option<Format>
    ensures { result ≡ format_known noted known.now }
{
    match (noted, known) {
        (Some(format), _) => Some(format),
        (None, Some(Known::Incoming(entry))) if is_final(entry.state) => Some(entry.format),
        (None, Some(Known::Outgoing(entry))) => Some(entry.format),
        (None, _) => None,
    }
}

// How many rows it has: those that were noted, or else the register's of a file that stays as it is.
fn rows_known(noted: Option<u64>, known: &Option<Known>) -> Option<u64>
    ensures { result ≡ rows_known noted known.now }
{
    match (noted, known) {
        (Some(count), _) => Some(count),
        (None, Some(Known::Incoming(entry))) if is_final(entry.state) => Some(entry.rows),
        (None, Some(Known::Outgoing(entry))) => Some(entry.rows),
        (None, _) => None,
    }
}

// The answer that an event is about: the one that was noted, or the response to the file that was sent.
fn answer_known(
    alloc: Global,
    event: Event,
    answer: Option<Answer>,
    known: &Option<Known>,
) -> Result<Option<Answer>, AllocError>
    ensures { IfOk result (λ found. found ≡ answer_known event answer known.now) }
{
    match (event, known) {
        (Event::ResponseSent, Some(Known::Incoming(entry))) => match &entry.response {
            Some(response) => Ok(Some(response_answer(alloc, response)?)),
            None => Ok(answer),
        },
        _ => Ok(answer),
    }
}

// A name as a text.
fn name_text<const N: usize>(name: &Name<N>) -> &str
    ensures { result.now ≡ name.now }
{
    str::from_utf8(name.octets()).unwrap()
}

// Digits as a text.
fn digit_text<const N: usize>(digits: &DigitString<N>) -> &str
    ensures { result.now ≡ digits.now }
{
    str::from_utf8(digits.octets()).unwrap()
}

// The letter of a format.
fn format_letter(format: Format) -> &'static str
    ensures { result.now ≡ format_letter format }
{
    match format {
        Format::Fixed => "F",
        Format::Variable => "V",
        Format::Unstructured => "U",
        Format::Text => "T",
    }
}

// The way of the files of a table.
fn way_of(side: Side) -> Direction
    ensures { result ≡ way_of side }
{
    match side {
        Side::Incoming => Direction::In,
        Side::Outgoing => Direction::Out,
    }
}

// The code of the partner that a file comes from, or goes to.
fn far_end(side: Side, identity: &Identity) -> &str
    ensures { result.now ≡ far_end side identity.now }
{
    match side {
        Side::Incoming => name_text(&identity.originator),
        Side::Outgoing => name_text(&identity.destination),
    }
}

// The two digits of a reason.
fn two_digits(alloc: Global, reason: Count<2>) -> Result<String, AllocError>
    ensures { IfOk result (λ text. string_bytes text ≡ two_digits reason) }
{
    let number = reason.get();
    format!(in alloc; "{}{}", number / 10, number % 10)
}

// A text that may be missing, lent.
fn lent(text: &Option<String>) -> Option<&str>
    ensures { text_data result ≡ text_value (option_map string_bytes text.now) }
{
    match text {
        Some(text) => Some(text.as_str()),
        None => None,
    }
}

impl Account {
    /// The account of what was noted of a file of which the register has so much, and in what that was.
    ///
    /// # Errors
    ///
    /// Out of memory.
    pub fn new(
        alloc: Global,
        occasion: Occasion,
        moment: Moment,
        known: &Option<Known>,
        units: Option<u64>,
    ) -> Result<Account, AllocError>
        ensures { IfOk result (λ account. account ≡ account_of occasion moment known.now units) }
    {
        let Moment {
            event,
            subject,
            format,
            rows,
            answer,
        } = moment;
        Ok(Account {
            occasion,
            event,
            side: side_of(&subject),
            no: number_known(&subject, known),
            identity: identity_known(&subject, known),
            format: format_known(format, known),
            rows: rows_known(rows, known),
            units,
            answer: answer_known(alloc, event, answer, known)?,
        })
    }

    fn partner(&self) -> Option<&str>
        ensures { text_data result ≡ text_value (partner_told self.now) }
    {
        Some(far_end(self.side, self.identity.as_ref()?))
    }

    fn dataset(&self) -> Option<&str>
        ensures { text_data result ≡ text_value (option_map (λ i. i.dataset) self.now.identity) }
    {
        Some(name_text(&self.identity.as_ref()?.dataset))
    }

    fn date(&self) -> Option<&str>
        ensures { text_data result ≡ text_value (option_map (λ i. i.date) self.now.identity) }
    {
        Some(digit_text(&self.identity.as_ref()?.date))
    }

    fn time(&self) -> Option<&str>
        ensures { text_data result ≡ text_value (option_map (λ i. i.time) self.now.identity) }
    {
        Some(digit_text(&self.identity.as_ref()?.time))
    }

    fn originator(&self) -> Option<&str>
        ensures { text_data result ≡ text_value (option_map (λ i. i.originator) self.now.identity) }
    {
        Some(name_text(&self.identity.as_ref()?.originator))
    }

    fn destination(&self) -> Option<&str>
        ensures { text_data result ≡ text_value (option_map (λ i. i.destination) self.now.identity) }
    {
        Some(name_text(&self.identity.as_ref()?.destination))
    }

    fn format(&self) -> Option<&'static str>
        ensures { text_data result ≡ text_value (option_map format_letter self.now.format) }
    {
        Some(format_letter(self.format?))
    }

    fn kind(&self) -> Option<&'static str>
        ensures { text_data result ≡ text_value (option_and_then kind_text self.now.answer) }
    {
        self.answer.as_ref()?.kind()
    }

    fn words(&self) -> Option<&'static str>
        ensures { text_data result ≡ text_value (option_and_then answer_words self.now.answer) }
    {
        self.answer.as_ref()?.words()
    }

    fn text(&self) -> Option<&str>
        ensures { text_data result ≡ text_value (option_and_then answer_text self.now.answer) }
    {
        self.answer.as_ref()?.text()
    }

    // The two digits of its reason, if it has one.
    fn reason(&self, alloc: Global) -> Result<Option<String>, AllocError>
        ensures { IfOk result (λ text. option_map string_bytes text ≡ option_map two_digits (option_and_then answer_reason self.now.answer)) }
    {
        let Some(answer) = &self.answer else {
            return Ok(None);
        };
        match answer.reason() {
            Some(reason) => Ok(Some(two_digits(alloc, reason)?)),
            None => Ok(None),
        }
    }

    // What is told, with the reason that goes with it.
    fn line<'a>(&'a self, at: &'a str, reason: &'a Option<String>) -> EventLine<'a>
        ensures { line_members result ≡ account_members at.entry.now (option_map string_bytes reason.now) self.now }
    {
        EventLine {
            session: self.occasion.session(),
            partner: self.partner(),
            way: Some(way_of(self.side)),
            no: self.no,
            dataset: self.dataset(),
            date: self.date(),
            time: self.time(),
            originator: self.originator(),
            destination: self.destination(),
            format: self.format(),
            rows: self.rows,
            units: self.units,
            kind: self.kind(),
            reason: lent(reason),
            words: self.words(),
            text: self.text(),
            uid: self.occasion.user(),
            ..EventLine::new(at, self.event)
        }
    }

    /// The line of the event. `at` is UTC by RFC 3339, with six digits of the second.
    ///
    /// # Errors
    ///
    /// Out of memory.
    pub fn to_line(&self, alloc: Global, at: &str) -> Result<Vec<u8>, AllocError>
        ensures { IfOk result (λ octets. octets.items ≡ account_text at.now self.now) }
    {
        let reason = self.reason(alloc)?;
        self.line(at, &reason).to_line(alloc)
    }
}
