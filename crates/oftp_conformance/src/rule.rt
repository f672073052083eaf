//! A rule of any group.

ghost use Rattle.std.specs.Prelude.{◌≡◌};
ghost use Rattle.oftp_conformance.specs.Rules.{rule_section, rule_says, rule_wanted, rule_advice, rule_bearing, rule_departure};

use crate::departure::{Bearing, Departure};
use crate::form_rule::FormRule;
use crate::frame_rule::FrameRule;
use crate::order_rule::OrderRule;
use crate::value_rule::ValueRule;

/// A rule of RFC 5024, by which octets are judged.
#[derive(Clone, Copy, Debug, Drop, PartialEq, Eq)]
pub enum Rule {
    /// On stream headers.
    Frame(FrameRule),
    /// On the form of a field.
    Form(FormRule),
    /// On the value of a field.
    Value(ValueRule),
    /// On the order of commands.
    Order(OrderRule),
}

impl Rule {
    /// The section of RFC 5024 that has it.
    pub fn section(self) -> &'static str
        ensures { result.now ≡ rule_section self }
    {
        match self {
            Rule::Frame(rule) => rule.section(),
            Rule::Form(rule) => rule.section(),
            Rule::Value(rule) => rule.section(),
            Rule::Order(rule) => rule.section(),
        }
    }

    /// What the standard says.
    pub fn says(self) -> &'static str
        ensures { result.now ≡ rule_says self }
    {
        match self {
            Rule::Frame(rule) => rule.says(),
            Rule::Form(rule) => rule.says(),
            Rule::Value(rule) => rule.says(),
            Rule::Order(rule) => rule.says(),
        }
    }

    /// What is expected.
    pub fn wanted(self) -> &'static str
        ensures { result.now ≡ rule_wanted self }
    {
        match self {
            Rule::Frame(rule) => rule.wanted(),
            Rule::Form(rule) => rule.wanted(),
            Rule::Value(rule) => rule.wanted(),
            Rule::Order(rule) => rule.wanted(),
        }
    }

    /// What to tell the partner.
    pub fn advice(self) -> &'static str
        ensures { result.now ≡ rule_advice self }
    {
        match self {
            Rule::Frame(rule) => rule.advice(),
            Rule::Form(rule) => rule.advice(),
            Rule::Value(rule) => rule.advice(),
            Rule::Order(rule) => rule.advice(),
        }
    }

    /// Whether the standard forbids what breaks it.
    pub fn bearing(self) -> Bearing
        ensures { result ≡ rule_bearing self }
    {
        match self {
            Rule::Frame(rule) => rule.bearing(),
            Rule::Form(rule) => rule.bearing(),
            Rule::Value(rule) => rule.bearing(),
            Rule::Order(rule) => rule.bearing(),
        }
    }

    /// The departure of this station that takes part, if one does.
    pub fn departure(self) -> Option<Departure>
        ensures { result ≡ rule_departure self }
    {
        match self {
            Rule::Frame(rule) => rule.departure(),
            Rule::Form(rule) => rule.departure(),
            Rule::Value(rule) => rule.departure(),
            Rule::Order(rule) => rule.departure(),
        }
    }
}
