//! What is found in each command of a session, and whose command is heard next.

ghost use Rattle.std.specs.Prelude.{◌≡◌, ◌++◌, OnOk, IfOk, option_map, Some};
ghost use Rattle.std.specs.List.{flat_map};
ghost use Rattle.oftp_telling.specs.Fields.{all_seen};
ghost use Rattle.oftp_conformance.specs.Places.{all_found, spot_seen};
ghost use Rattle.oftp_conformance.specs.Orders.{order_rules};
ghost use Rattle.oftp_conformance.specs.Hearing.{spot_named, order_found, order_findings, heard_findings, after_frame, may_come, is_next, next_side};

use crate::finding::{Finding, Place};
use crate::findings::findings_in;
use crate::order_rule::OrderRule;
use crate::orders::{order_field, place_rule, said_rules};
use crate::rule::Rule;
use crate::session::{Phase, Session, other, takes};
use oftp_codec::parse;
use oftp_telling::{CommandKind, NamedField, Sender, fields_of, kind_in};
use oftp_wire::Command;
use std::alloc::{AllocError, Global};

// The field of a command with this name, or the command as a whole if it has none.
fn place_named(kind: CommandKind, fields: &[NamedField], name: &str) -> Place
    ensures { spot_seen result ≡ spot_named kind (all_seen fields.now) name.now }
{
    match fields {
        [] => Place::Whole(kind),
        [first, rest @ ..] => {
            if first.name == name {
                Place::Field(kind, *first)
            } else {
                place_named(kind, rest, name)
            }
        }
    }
}

// Adds what is found by a rule on the order of commands, if it is broken.
fn add_order(
    found: &mut Vec<Finding>,
    kind: CommandKind,
    fields: &[NamedField],
    rule: Option<OrderRule>,
) -> Result<(), AllocError>
    ensures { OnOk result (all_found found.new.items ≡ all_found found.old.items ++ order_found kind (all_seen fields.now) rule) }
{
    if let Some(rule) = rule {
        let place = place_named(kind, fields, order_field(kind, rule));
        found.push(Finding {
            rule: Rule::Order(rule),
            place,
        })?;
    }
    Ok(())
}

// Adds what is found by these rules.
fn add_orders(
    found: &mut Vec<Finding>,
    kind: CommandKind,
    fields: &[NamedField],
    rules: &[Option<OrderRule>],
) -> Result<(), AllocError>
    ensures { OnOk result (all_found found.new.items
        ≡ all_found found.old.items ++ flat_map (order_found kind (all_seen fields.now)) rules.now) }
{
    match rules {
        [] => Ok(()),
        [first, rest @ ..] => {
            add_order(found, kind, fields, *first)?;
            add_orders(found, kind, fields, rest)
        }
    }
}

// Adds what is found of a command with these fields by its order, and by what it says if it could be read.
fn add_rules(
    found: &mut Vec<Finding>,
    session: &Session<'_>,
    who: Sender,
    kind: CommandKind,
    command: Option<&Command<'_>>,
    fields: &[NamedField],
) -> Result<(), AllocError>
    ensures { OnOk result (all_found found.new.items ≡ all_found found.old.items
        ++ flat_map (order_found kind (all_seen fields.now)) (order_rules session.now who kind (option_map (λ c. c.now) command.entry))) }
{
    let place = place_rule(session, who, kind, command);
    add_order(found, kind, fields, place)?;
    add_orders(found, kind, fields, &said_rules(session, who, command))
}

// Adds the same of a command that could be read.
fn add_read_rules(
    found: &mut Vec<Finding>,
    session: &Session<'_>,
    who: Sender,
    kind: CommandKind,
    command: &Command<'_>,
    fields: &[NamedField],
) -> Result<(), AllocError>
    ensures { OnOk result (all_found found.new.items ≡ all_found found.old.items
        ++ flat_map (order_found kind (all_seen fields.now)) (order_rules session.now who kind (Some command.now))) }
{
    add_rules(found, session, who, kind, Some(command), fields)
}

// Adds what is found of a command of a kind by its order.
fn add_order_findings(
    alloc: Global,
    found: &mut Vec<Finding>,
    session: &Session<'_>,
    who: Sender,
    kind: CommandKind,
    frame: &[u8],
) -> Result<(), AllocError>
    ensures { OnOk result (all_found found.new.items ≡ all_found found.old.items ++ order_findings session.now who kind frame.now) }
{
    let sheet = fields_of(alloc, kind, frame)?;
    let fields = sheet.fields.as_slice();
    match parse(frame) {
        Ok(command) => add_read_rules(found, session, who, kind, &command, fields),
        Err(_) => add_rules(found, session, who, kind, None, fields),
    }
}

/// What is found in the octets of a frame of a side, without its stream header. These are the rules on its fields that it breaks, and those
/// on the order of commands.
///
/// # Errors
///
/// Out of memory.
#[tactic(auto, unfolding(crate::specs::Hearing::heard_findings))]
pub fn heard_findings(
    alloc: Global,
    session: &Session<'_>,
    who: Sender,
    frame: &[u8],
) -> Result<Vec<Finding>, AllocError>
    ensures { IfOk result (λ found. all_found found.items ≡ heard_findings session.now who frame.now) }
{
    let mut found = findings_in(alloc, frame)?;
    if let Some(kind) = kind_in(frame) {
        add_order_findings(alloc, &mut found, session, who, kind, frame)?;
    }
    Ok(found)
}

/// Whether a command of a kind may be heard in a phase, from the side that owes one.
fn may_come(phase: Phase, kind: CommandKind) -> bool
    ensures { result ≡ may_come phase kind }
{
    match kind {
        CommandKind::Esid => true,
        _ => takes(phase, kind),
    }
}

/// Whether the next command of the side that owes one may be heard in a phase.
fn is_next(phase: Phase, kind: Option<CommandKind>) -> bool
    ensures { result ≡ is_next phase kind }
{
    match kind {
        Some(kind) => may_come(phase, kind),
        None => false,
    }
}

impl<'f> Session<'f> {
    /// Takes the octets of a frame of a side, without its stream header.
    #[tactic(auto, unfolding(crate::specs::Hearing::after_frame))]
    pub fn hear(&mut self, who: Sender, frame: &'f [u8])
        ensures { self.new ≡ after_frame self.old who frame.now }
    {
        let Some(kind) = kind_in(frame) else {
            return;
        };
        match parse(frame) {
            Ok(command) => self.take(who, &command),
            Err(_) => self.take_kind(who, kind),
        }
    }

    /// The side whose command is heard next, if no order between both sides is known. These are the octets of the next command of the side
    /// that owes one ([`Session::owing`]) and of the other side, without their stream headers. It is the side that owes one if its command
    /// may come now, or if the other side has none; else the other side.
    pub fn next_side(&self, own: Option<&[u8]>, others: Option<&[u8]>) -> Sender
        ensures { result ≡ next_side self.now (option_map (λ o. o.now) own.entry) (option_map (λ o. o.now) others.entry) }
    {
        let owing = self.owing();
        if others.is_none() {
            return owing;
        }
        match own {
            Some(frame) if is_next(self.phase, kind_in(frame)) => owing,
            _ => other(owing),
        }
    }
}
