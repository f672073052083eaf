//! What is printed of a rule that is broken.

ghost use Rattle.std.specs.Prelude.{◌≡◌, ◌++◌, Some, codes};
ghost use Rattle.std.specs.Fmt.{DisplaysOnOk};
ghost use Rattle.oftp_telling.specs.Fields.{seen};
ghost use Rattle.oftp_conformance.specs.Places.{found_seen, spot_seen};
ghost use Rattle.oftp_conformance.specs.Lines.{place_text, says_text, expected_octets, expected_words, expected_count, expected_text, one_departure, departure_of, departure_text, advice_text, finding_text};

use crate::departure::Departure;
use crate::finding::{Finding, Place};
use crate::order_rule::OrderRule;
use crate::rule::Rule;
use oftp_codec::FRAME_HEADER;
use oftp_telling::{
    CommandKind, NamedField, front_of, rest_of, write_end_spot, write_evidence,
    write_field_evidence, write_field_spot, write_rule,
};
use std::fmt;

// Writes what octets have at a place.
#[tactic(auto, unfolding(crate::specs::Lines::place_text))]
fn write_place<W: fmt::Write>(f: &mut fmt::Formatter<W>, place: Place, octets: &[u8]) -> fmt::Result
    ensures { DisplaysOnOk W.write_str_gives f.old result (Some (place_text (spot_seen place) octets.now)) f.new }
{
    match place {
        Place::Header => {
            f.write_str("stream header: ")?;
            write_evidence(f, front_of(octets, FRAME_HEADER))
        }
        Place::Beginning => {
            f.write_str("first octet: ")?;
            write_evidence(f, front_of(octets, 1))
        }
        Place::Field(kind, field) => {
            write_field_spot(f, kind, field)?;
            write_field_evidence(f, field, octets)
        }
        Place::Behind(kind, end) => {
            write_end_spot(f, kind, end)?;
            write_evidence(f, rest_of(octets, end))
        }
        Place::Whole(kind) => f.write_str(kind.word()),
    }
}

// Writes what the standard says.
#[tactic(auto, unfolding(crate::specs::Lines::says_text))]
fn write_says<W: fmt::Write>(f: &mut fmt::Formatter<W>, rule: Rule) -> fmt::Result
    ensures { DisplaysOnOk W.write_str_gives f.old result (Some (says_text rule)) f.new }
{
    write!(
        f,
        "\n  {} (RFC 5024, section {}): {}",
        rule.bearing().text(),
        rule.section(),
        rule.says()
    )
}

// Writes what a field may have by its form.
#[tactic(auto, unfolding(crate::specs::Lines::expected_octets))]
fn write_expected_octets<W: fmt::Write>(f: &mut fmt::Formatter<W>, field: NamedField) -> fmt::Result
    ensures { DisplaysOnOk W.write_str_gives f.old result (Some (expected_octets (seen field))) f.new }
{
    f.write_str("\n  expected: ")?;
    write_rule(f, field.form)
}

// Writes what is expected by a rule.
#[tactic(auto, unfolding(crate::specs::Lines::expected_words))]
fn write_expected_words<W: fmt::Write>(f: &mut fmt::Formatter<W>, rule: Rule) -> fmt::Result
    ensures { DisplaysOnOk W.write_str_gives f.old result (Some (expected_words rule)) f.new }
{
    write!(f, "\n  expected: {}", rule.wanted())
}

// Writes which number is expected.
#[tactic(auto, unfolding(crate::specs::Lines::expected_count))]
fn write_expected_count<W: fmt::Write>(f: &mut fmt::Formatter<W>, count: u64) -> fmt::Result
    ensures { DisplaysOnOk W.write_str_gives f.old result (Some (expected_count count)) f.new }
{
    write!(f, "\n  expected: {count}")
}

// Writes what is expected.
fn write_expected<W: fmt::Write>(f: &mut fmt::Formatter<W>, rule: Rule, place: Place) -> fmt::Result
    ensures { DisplaysOnOk W.write_str_gives f.old result (Some (expected_text rule (spot_seen place))) f.new }
{
    match (rule, place) {
        (Rule::Form(_), Place::Field(_, field)) => write_expected_octets(f, field),
        (Rule::Order(OrderRule::Records(count)), _) => write_expected_count(f, count),
        (Rule::Order(OrderRule::Units(count)), _) => write_expected_count(f, count),
        _ => write_expected_words(f, rule),
    }
}

// Writes a departure.
#[tactic(auto, unfolding(crate::specs::Lines::one_departure))]
fn write_one_departure<W: fmt::Write>(
    f: &mut fmt::Formatter<W>,
    departure: Departure,
) -> fmt::Result
    ensures { DisplaysOnOk W.write_str_gives f.old result (Some (one_departure departure)) f.new }
{
    write!(
        f,
        "\n  this station {} (a departure from section {})",
        departure.does(),
        departure.section()
    )
}

// The departure that takes part in a finding, if one does.
fn departure_of(finding: Finding) -> Option<Departure>
    ensures { result ≡ departure_of finding.rule (spot_seen finding.place) }
{
    match (finding.rule, finding.place) {
        (Rule::Form(_), Place::Field(CommandKind::Sfid, _)) => Some(Departure::BadOffers),
        (rule, _) => rule.departure(),
    }
}

// Writes the departure that takes part, if one does.
fn write_departure<W: fmt::Write>(
    f: &mut fmt::Formatter<W>,
    departure: Option<Departure>,
) -> fmt::Result
    ensures { DisplaysOnOk W.write_str_gives f.old result (Some (departure_text departure)) f.new }
{
    match departure {
        Some(departure) => write_one_departure(f, departure),
        None => Ok(()),
    }
}

// Writes what to tell the partner.
#[tactic(auto, unfolding(crate::specs::Lines::advice_text))]
fn write_advice<W: fmt::Write>(f: &mut fmt::Formatter<W>, rule: Rule) -> fmt::Result
    ensures { DisplaysOnOk W.write_str_gives f.old result (Some (advice_text rule)) f.new }
{
    write!(f, "\n  tell the partner: {}", rule.advice())
}

// Writes a finding.
#[tactic(auto, unfolding(crate::specs::Lines::finding_text))]
fn write_finding<W: fmt::Write>(
    f: &mut fmt::Formatter<W>,
    finding: Finding,
    octets: &[u8],
) -> fmt::Result
    ensures { DisplaysOnOk W.write_str_gives f.old result (Some (finding_text (found_seen finding) octets.now)) f.new }
{
    write_place(f, finding.place, octets)?;
    write_says(f, finding.rule)?;
    write_expected(f, finding.rule, finding.place)?;
    write_departure(f, departure_of(finding))?;
    write_advice(f, finding.rule)
}

/// A finding as it is printed: where and by which octets a rule is broken, and what the standard says. Then come what is expected, what
/// this station does if one of its departures takes part, and what to tell the partner. It has several lines, and no line break at its end.
#[derive(Clone, Copy)]
pub struct Explanation<'f> {
    /// The finding.
    pub finding: Finding,
    /// The octets in which it was found: a stream header, or those of a frame without it.
    pub octets: &'f [u8],
}

impl fmt::Display for Explanation<'_> {
    ghost use Rattle.std.specs.Prelude.{Some};
    ghost use Rattle.oftp_conformance.specs.Places.{found_seen};
    ghost use Rattle.oftp_conformance.specs.Lines.{finding_text};

    ghost output = { λ e. Some (finding_text (found_seen e.finding) e.octets.now) };

    fn fmt<W: fmt::Write>(&self, f: &mut fmt::Formatter<W>) -> fmt::Result {
        write_finding(f, self.finding, self.octets)
    }
}
