//! Which rules the octets of one command break, and the octets of a stream header.

ghost use Rattle.std.specs.Prelude.{◌≡◌, ◌++◌, OnOk, IfOk, option_map};
ghost use Rattle.std.specs.List.{flat_map};
ghost use Rattle.oftp_telling.specs.Fields.{seen, all_seen, sheet_seen};
ghost use Rattle.oftp_conformance.specs.Places.{all_found, found_seen, spot_seen};
ghost use Rattle.oftp_conformance.specs.Findings.{field_findings, field_rule, found_at, end_findings, sheet_findings, findings_in, is_bad_length, broken_header, header_finding};
ghost use Rattle.oftp_conformance.specs.Forms.{broken_form};

use crate::finding::{Finding, Place};
use crate::form_rule::FormRule;
use crate::forms::{broken_form, is_long};
use crate::frame_rule::FrameRule;
use crate::rule::Rule;
use crate::values::broken_value;
use oftp_codec::{LONGEST_FRAME, SHORTEST_FRAME};
use oftp_telling::{CommandKind, FieldSheet, NamedField, fields_of, kind_in};
use std::alloc::{AllocError, Global};

// The rule that a field of a command with these fields breaks, if it does.
fn field_rule(
    kind: CommandKind,
    fields: &[NamedField],
    field: NamedField,
    frame: &[u8],
) -> Option<Rule>
    ensures { result ≡ field_rule (all_seen fields.now) (seen field) frame.now (broken_form kind (seen field) frame.now) }
{
    if let Some(rule) = broken_form(kind, field, frame) {
        return Some(Rule::Form(rule));
    }
    if frame.len() < field.at || frame.len() - field.at < field.form.size() {
        return None;
    }
    match broken_value(fields, field, frame) {
        Some(rule) => Some(Rule::Value(rule)),
        None => None,
    }
}

// Adds a finding, if a rule is broken.
fn add(found: &mut Vec<Finding>, place: Place, rule: Option<Rule>) -> Result<(), AllocError>
    ensures { OnOk result (all_found found.new.items ≡ all_found found.old.items ++ found_at (spot_seen place) rule) }
{
    if let Some(rule) = rule {
        found.push(Finding { rule, place })?;
    }
    Ok(())
}

// Adds what is found in these fields of a command that has them all.
fn add_fields(
    found: &mut Vec<Finding>,
    kind: CommandKind,
    all: &[NamedField],
    fields: &[NamedField],
    frame: &[u8],
) -> Result<(), AllocError>
    ensures { OnOk result (all_found found.new.items
        ≡ all_found found.old.items ++ flat_map (field_findings kind (all_seen all.now) frame.now) (all_seen fields.now)) }
{
    match fields {
        [] => Ok(()),
        [first, rest @ ..] => {
            let rule = field_rule(kind, all, *first, frame);
            add(found, Place::Field(kind, *first), rule)?;
            add_fields(found, kind, all, rest, frame)
        }
    }
}

// Adds what is found behind the last field.
fn add_end(
    found: &mut Vec<Finding>,
    kind: CommandKind,
    end: usize,
    frame: &[u8],
) -> Result<(), AllocError>
    ensures { OnOk result (all_found found.new.items ≡ all_found found.old.items ++ end_findings kind end frame.now) }
{
    if is_long(kind, end, frame) {
        return add(
            found,
            Place::Behind(kind, end),
            Some(Rule::Form(FormRule::Long)),
        );
    }
    Ok(())
}

// Adds what is found in a command of a kind.
fn add_sheet(
    found: &mut Vec<Finding>,
    kind: CommandKind,
    sheet: &FieldSheet,
    frame: &[u8],
) -> Result<(), AllocError>
    ensures { OnOk result (all_found found.new.items ≡ all_found found.old.items ++ sheet_findings kind (sheet_seen sheet.now) frame.now) }
{
    let fields = sheet.fields.as_slice();
    add_fields(found, kind, fields, fields, frame)?;
    add_end(found, kind, sheet.end, frame)
}

/// The rules that the octets of a frame break, without its stream header. First come those on its fields from left to right, at most
/// one each, and then that on its end. A command that ends within a field has no fields behind that.
///
/// # Errors
///
/// Out of memory.
#[tactic(auto, unfolding(crate::specs::Findings::findings_in))]
pub fn findings_in(alloc: Global, frame: &[u8]) -> Result<Vec<Finding>, AllocError>
    ensures { IfOk result (λ found. all_found found.items ≡ findings_in frame.now) }
{
    let mut found = Vec::new(alloc);
    match kind_in(frame) {
        None => add(
            &mut found,
            Place::Beginning,
            Some(Rule::Form(FormRule::Beginning)),
        )?,
        Some(kind) => {
            let sheet = fields_of(alloc, kind, frame)?;
            add_sheet(&mut found, kind, &sheet, frame)?;
        }
    }
    Ok(found)
}

// Whether the three octets of a length say less or more than a frame may have.
fn is_bad_length(octets: &[u8]) -> bool
    ensures { result ≡ is_bad_length octets.now }
{
    match octets {
        [high, middle, low, ..] => {
            let len = usize::from(*high) * 65_536 + usize::from(*middle) * 256 + usize::from(*low);
            len < SHORTEST_FRAME || LONGEST_FRAME < len
        }
        _ => false,
    }
}

// The rule that a stream header breaks, if it does.
#[tactic(auto, unfolding(crate::specs::Findings::broken_header))]
fn broken_header(octets: &[u8]) -> Option<FrameRule>
    ensures { result ≡ broken_header octets.now }
{
    let [first, rest @ ..] = octets else {
        return None;
    };
    if *first / 16 != 1 {
        return Some(FrameRule::Version);
    }
    if *first % 16 != 0 {
        return Some(FrameRule::Flags);
    }
    if is_bad_length(rest) {
        return Some(FrameRule::Length);
    }
    None
}

/// The rule that the octets at the beginning of a frame break, if they do. They are a stream header, or as much of it as has come.
pub fn header_finding(octets: &[u8]) -> Option<Finding>
    ensures { option_map found_seen result ≡ header_finding octets.now }
{
    match broken_header(octets) {
        Some(rule) => Some(Finding {
            rule: Rule::Frame(rule),
            place: Place::Header,
        }),
        None => None,
    }
}
