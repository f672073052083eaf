//! The README of a folder of evidence.

ghost use Rattle.std.specs.Prelude.{◌≡◌, ◌++◌, IfOk, OnOk, string_bytes};
ghost use Rattle.oftp_wire.specs.Reasons.{two_digits};
ghost use Rattle.oftp_evidence.specs.Facts.{fact_texts, seen_lines};
ghost use Rattle.oftp_evidence.specs.Folders.{file_facts, kind_facts, more_parts, parts_text, readme_of, response_facts, session_fact, session_facts, session_head, sessions_head, sessions_lines, standing_facts, station_facts};

use crate::facts::{Fact, add_facts, add_line};
use crate::names::{digit_text, format_letter, name_text};
use crate::part::Part;
use oftp_events::Direction;
use oftp_history::proof_text;
use oftp_register::{Identity, ResponseKind};
use oftp_status::Standing;
use oftp_vfile::Format;
use oftp_wire::Count;
use std::alloc::{AllocError, Global};

/// The file that a folder is about.
#[derive(Drop)]
pub struct FileFacts<'a> {
    /// Which way it goes.
    pub way: Direction,
    /// Its number.
    pub no: u64,
    /// Its identity.
    pub identity: &'a Identity,
    /// Its format.
    pub format: Format,
    /// The length of its longest record in octets, 0 in U and T.
    pub longest: u32,
    /// How many rows it has: records, or blocks of 1,024 octets in U and T.
    pub rows: u64,
    /// How many octets it has.
    pub units: u64,
    /// Its description.
    pub description: &'a str,
    /// The SHA-256 of its content, in hexadecimal digits.
    pub digest: &'a str,
}

/// The response to a file.
#[derive(Drop)]
pub struct ResponseFacts<'a> {
    /// Its kind.
    pub kind: ResponseKind,
    /// When it came, or went, as the caller spells it.
    pub moment: &'a str,
    /// The reason of a refusal.
    pub reason: Count<2>,
    /// The text of a refusal.
    pub text: &'a str,
}

/// A session that says something of a file.
#[derive(Drop)]
pub struct SessionFacts<'a> {
    /// Its number.
    pub no: u64,
    /// The partner's code.
    pub partner: &'a str,
    /// The partner's address.
    pub peer: &'a str,
    /// When it began, as the caller spells it.
    pub begun: &'a str,
    /// When it ended.
    pub ended: &'a str,
    /// What the partner said of the file.
    pub heard: &'a [Part],
    /// What the station said of it.
    pub said: &'a [Part],
}

/// The station whose folder it is.
#[derive(Drop)]
pub struct StationFacts<'a> {
    /// The program's version.
    pub version: &'a str,
    /// The SHA-256 of the program's sources, in hexadecimal digits.
    pub sources: &'a str,
    /// The SHA-256 of the book, in hexadecimal digits.
    pub book: &'a str,
}

impl FileFacts<'_> {
    // Which file it is.
    fn facts(&self) -> [Fact<'_>; 16]
        ensures { fact_texts result ≡ file_facts self.now }
    {
        [
            Fact::Line("Evidence of one file"),
            Fact::Line(""),
            Fact::Line("The file"),
            Fact::Text("way", self.way.word()),
            Fact::Number("number", self.no),
            Fact::Text("dataset", name_text(&self.identity.dataset)),
            Fact::Text("date", digit_text(&self.identity.date)),
            Fact::Text("time", digit_text(&self.identity.time)),
            Fact::Text("originator", name_text(&self.identity.originator)),
            Fact::Text("destination", name_text(&self.identity.destination)),
            Fact::Text("format", format_letter(self.format)),
            Fact::Number("longest record", u64::from(self.longest)),
            Fact::Number("rows", self.rows),
            Fact::Number("octets", self.units),
            Fact::Text("description", self.description),
            Fact::Text("SHA-256 of its content", self.digest),
        ]
    }
}

// The two digits of a reason.
fn two_digits(alloc: Global, reason: Count<2>) -> Result<String, AllocError>
    ensures { IfOk result (λ text. string_bytes text ≡ two_digits reason) }
{
    let number = reason.get();
    format!(in alloc; "{}{}", number / 10, number % 10)
}

impl ResponseFacts<'_> {
    // Appends the lines of an End-to-End Response.
    fn add_receipt(&self, alloc: Global, text: &mut String) -> Result<(), AllocError>
        ensures { OnOk result (string_bytes text.new ≡ string_bytes text.old ++ seen_lines (kind_facts ResponseKind.EndResponse self.now)) }
    {
        let facts = [
            Fact::Line(""),
            Fact::Line("Its response"),
            Fact::Line("kind: EERP"),
            Fact::Text("moment", self.moment),
        ];
        add_facts(alloc, &facts, text)
    }

    // Appends the lines of a refusal.
    fn add_refusal(&self, alloc: Global, text: &mut String) -> Result<(), AllocError>
        ensures { OnOk result (string_bytes text.new ≡ string_bytes text.old ++ seen_lines (kind_facts ResponseKind.NegativeEndResponse self.now)) }
    {
        let reason = two_digits(alloc, self.reason)?;
        let facts = [
            Fact::Line(""),
            Fact::Line("Its response"),
            Fact::Line("kind: NERP"),
            Fact::Text("moment", self.moment),
            Fact::Text("reason", reason.as_str()),
            Fact::Text("text", self.text),
        ];
        add_facts(alloc, &facts, text)
    }
}

// Appends the lines of a response, if there is one.
fn add_response(
    alloc: Global,
    response: &Option<ResponseFacts<'_>>,
    text: &mut String,
) -> Result<(), AllocError>
    ensures { OnOk result (string_bytes text.new ≡ string_bytes text.old ++ seen_lines (response_facts response.now)) }
{
    match response {
        None => add_facts(
            alloc,
            &[
                Fact::Line(""),
                Fact::Line("Its response"),
                Fact::Line("none"),
            ],
            text,
        ),
        Some(response) => match response.kind {
            ResponseKind::EndResponse => response.add_receipt(alloc, text),
            ResponseKind::NegativeEndResponse => response.add_refusal(alloc, text),
        },
    }
}

// Appends the parts behind the first.
fn add_parts(parts: &[Part], text: &mut String) -> Result<(), AllocError>
    ensures { OnOk result (string_bytes text.new ≡ string_bytes text.old ++ more_parts parts.now) }
{
    match parts {
        [] => Ok(()),
        [first, rest @ ..] => {
            write!(text, ", {}", first.word())?;
            add_parts(rest, text)
        }
    }
}

// The parts of a side.
fn parts_text(alloc: Global, parts: &[Part]) -> Result<String, AllocError>
    ensures { IfOk result (λ text. string_bytes text ≡ parts_text parts.now) }
{
    match parts {
        [] => String::from_str(alloc, "nothing"),
        [first, rest @ ..] => {
            let mut text = String::from_str(alloc, first.word())?;
            add_parts(rest, &mut text)?;
            Ok(text)
        }
    }
}

impl SessionFacts<'_> {
    // With whom it was, and when.
    fn head(&self, alloc: Global) -> Result<String, AllocError>
        ensures { IfOk result (λ text. string_bytes text ≡ session_head self.now) }
    {
        format!(in alloc;
            "session {}: with {} at {}, from {} to {}",
            self.no, self.partner, self.peer, self.begun, self.ended
        )
    }

    // What it is, and what its sides say of the file.
    fn fact(&self, alloc: Global) -> Result<String, AllocError>
        ensures { IfOk result (λ text. string_bytes text ≡ session_fact self.now) }
    {
        let head = self.head(alloc)?;
        let heard = parts_text(alloc, self.heard)?;
        let said = parts_text(alloc, self.said)?;
        format!(in alloc; "{head}; heard: {heard}; said: {said}")
    }
}

// Appends a line for each session.
fn add_each_session(
    alloc: Global,
    sessions: &[SessionFacts<'_>],
    text: &mut String,
) -> Result<(), AllocError>
    ensures { OnOk result (string_bytes text.new ≡ string_bytes text.old ++ seen_lines (session_facts sessions.now)) }
{
    match sessions {
        [] => Ok(()),
        [first, rest @ ..] => {
            let line = first.fact(alloc)?;
            add_line(alloc, line.as_str(), text)?;
            add_each_session(alloc, rest, text)
        }
    }
}

// The heading of the sessions.
fn sessions_head() -> [Fact<'static>; 2]
    ensures { fact_texts result ≡ sessions_head }
{
    [Fact::Line(""), Fact::Line("Its sessions")]
}

// Appends the sessions.
fn add_sessions(
    alloc: Global,
    sessions: &[SessionFacts<'_>],
    text: &mut String,
) -> Result<(), AllocError>
    ensures { OnOk result (string_bytes text.new ≡ string_bytes text.old ++ sessions_lines sessions.now) }
{
    add_facts(alloc, &sessions_head(), text)?;
    add_each_session(alloc, sessions, text)
}

impl StationFacts<'_> {
    // The program, its sources and the book.
    fn facts(&self) -> [Fact<'_>; 5]
        ensures { fact_texts result ≡ station_facts self.now }
    {
        [
            Fact::Line(""),
            Fact::Line("The station"),
            Fact::Text("program", self.version),
            Fact::Text("SHA-256 of its sources", self.sources),
            Fact::Text("SHA-256 of its book", self.book),
        ]
    }
}

// What a state proves, and what it doesn't.
fn standing_facts(standing: Standing) -> [Fact<'static>; 11]
    ensures { fact_texts result ≡ standing_facts standing }
{
    [
        Fact::Line(""),
        Fact::Line("What its state proves"),
        Fact::Text("state", standing.word()),
        Fact::Text(
            "between two such stations this proves",
            proof_text(standing),
        ),
        Fact::Line(""),
        Fact::Line("What this folder doesn't prove"),
        Fact::Line(
            "Nothing here is signed: the folder shows what came over the wire and what went, and not who sent it.",
        ),
        Fact::Line(
            "Who can change SHA256SUMS can change each file with it: keep its sum elsewhere.",
        ),
        Fact::Line(""),
        Fact::Line("How it is checked"),
        Fact::Line(
            "sh verify.sh BOOK compares the sums, and plays the sessions over a new database by the station's book, which has the passwords.",
        ),
    ]
}

// Appends which file it is, and its response.
fn add_file(
    alloc: Global,
    file: &FileFacts<'_>,
    response: &Option<ResponseFacts<'_>>,
    text: &mut String,
) -> Result<(), AllocError>
    ensures { OnOk result (string_bytes text.new
        ≡ string_bytes text.old ++ (seen_lines (file_facts file.now) ++ seen_lines (response_facts response.now))) }
{
    add_facts(alloc, &file.facts(), text)?;
    add_response(alloc, response, text)
}

// Appends what the station is, and what the file's state proves.
fn add_station(
    alloc: Global,
    station: &StationFacts<'_>,
    standing: Standing,
    text: &mut String,
) -> Result<(), AllocError>
    ensures { OnOk result (string_bytes text.new
        ≡ string_bytes text.old ++ (seen_lines (station_facts station.now) ++ seen_lines (standing_facts standing))) }
{
    add_facts(alloc, &station.facts(), text)?;
    add_facts(alloc, &standing_facts(standing), text)
}

/// The text of a folder's `README`: which file it is, its response if there is one, and the sessions that say something of it. Then come the
/// station, what the file's state proves and what it doesn't, and how the folder is checked. Characters that can't be seen are escapes, and a
/// line that is too long is cut.
///
/// # Errors
///
/// Out of memory.
pub fn readme(
    alloc: Global,
    file: &FileFacts<'_>,
    response: &Option<ResponseFacts<'_>>,
    sessions: &[SessionFacts<'_>],
    station: &StationFacts<'_>,
    standing: Standing,
) -> Result<String, AllocError>
    ensures { IfOk result (λ text. string_bytes text ≡ readme_of file.now response.now sessions.now station.now standing) }
{
    let mut text = String::new(alloc);
    add_file(alloc, file, response, &mut text)?;
    add_sessions(alloc, sessions, &mut text)?;
    add_station(alloc, station, standing, &mut text)?;
    Ok(text)
}
