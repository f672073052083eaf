//! What is wrong with the values of fields whose form is right.

ghost use Rattle.std.specs.Prelude.{◌≡◌, ◌<◌, ◌-◌, take, nat_lt};
ghost use Rattle.oftp_wire.specs.Octets.{part, number};
ghost use Rattle.oftp_codec.specs.Form.{size};
ghost use Rattle.oftp_telling.specs.Fields.{seen, all_seen, form_seen};
ghost use Rattle.oftp_conformance.specs.Values.{octets_of, has, is_plain_file, ends_with, breaks, is_broken, first_broken, broken_value};

use crate::value_rule::{ValueRule, value_rules};
use crate::walk::{first_walk, walk_over};
use oftp_telling::{NamedField, front_of, rest_of};

/// The least size of a Data Exchange Buffer, in octets (RFC 5024, section 5.3.2).
pub const LEAST_BUFFER: u32 = 128;

// The octets of the field with this name, none if there is none.
fn octets_of<'f>(name: &str, fields: &[NamedField], frame: &'f [u8]) -> &'f [u8]
    ensures { result.now ≡ octets_of name.now (all_seen fields.now) frame.now }
{
    match fields {
        [] => &[],
        [first, rest @ ..] => {
            if first.name == name {
                first.octets(frame)
            } else {
                octets_of(name, rest, frame)
            }
        }
    }
}

// Whether the field with this name has these octets.
fn has(name: &str, octets: &[u8], fields: &[NamedField], frame: &[u8]) -> bool
    ensures { result ≡ has name.now octets.now (all_seen fields.now) frame.now }
{
    octets_of(name, fields, frame) == octets
}

// Whether a file is sent as it is.
fn is_plain_file(fields: &[NamedField], frame: &[u8]) -> bool
    ensures { result ≡ is_plain_file (all_seen fields.now) frame.now }
{
    has("SFIDSEC", b"00", fields, frame)
        && has("SFIDCOMP", b"0", fields, frame)
        && has("SFIDENV", b"0", fields, frame)
}

// Whether octets end with others.
fn ends_with(octets: &[u8], end: &[u8]) -> bool
    ensures { result ≡ ends_with octets.now end.now }
{
    rest_of(octets, octets.len().saturating_sub(end.len())) == end
}

// The number that a digit stands for; other octets count as they stand behind `0`.
fn digit(octet: u8) -> u32
    ensures value { result ≡ octet - 48 }
    ensures small { result < 208 }
{
    u32::from(octet.saturating_sub(b'0'))
}

// The number that the first five digits stand for, or fewer where there are no more.
fn number_of(octets: &[u8]) -> u32
    ensures { result ≡ number (take 5 octets.now) }
{
    match front_of(octets, 5) {
        [a, b, c, d, e, ..] => {
            (((digit(*a) * 10 + digit(*b)) * 10 + digit(*c)) * 10 + digit(*d)) * 10 + digit(*e)
        }
        [a, b, c, d] => ((digit(*a) * 10 + digit(*b)) * 10 + digit(*c)) * 10 + digit(*d),
        [a, b, c] => (digit(*a) * 10 + digit(*b)) * 10 + digit(*c),
        [a, b] => digit(*a) * 10 + digit(*b),
        [a] => digit(*a),
        [] => 0,
    }
}

// Whether the octets of its field break a rule.
fn breaks(rule: ValueRule, octets: &[u8], fields: &[NamedField], frame: &[u8]) -> bool
    ensures { result ≡ breaks rule octets.now (all_seen fields.now) frame.now }
{
    match rule {
        ValueRule::Level => octets != b"5".as_slice(),
        ValueRule::Buffer => number_of(octets) < LEAST_BUFFER,
        ValueRule::Credit => octets == b"000".as_slice(),
        ValueRule::Authentication | ValueRule::SignedResponse => octets == b"Y".as_slice(),
        ValueRule::Counter => ends_with(octets, b"0000"),
        ValueRule::Sizes => {
            is_plain_file(fields, frame) && octets != octets_of("SFIDFSIZ", fields, frame)
        }
        ValueRule::Security | ValueRule::Cipher => octets != b"00".as_slice(),
        ValueRule::Compression | ValueRule::Envelope => octets != b"0".as_slice(),
        ValueRule::Overrun => walk_over(first_walk(), octets).due != 0,
        ValueRule::Compressed => walk_over(first_walk(), octets).compressed,
    }
}

// Whether a field breaks a rule.
fn is_broken(fields: &[NamedField], field: NamedField, frame: &[u8], rule: ValueRule) -> bool
    ensures { result ≡ is_broken (all_seen fields.now) (seen field) frame.now rule }
{
    field.name == rule.field() && breaks(rule, field.octets(frame), fields, frame)
}

// The first of these rules that a field breaks.
fn first_broken(
    rules: &[ValueRule],
    fields: &[NamedField],
    field: NamedField,
    frame: &[u8],
) -> Option<ValueRule>
    ensures { result ≡ first_broken (all_seen fields.now) (seen field) frame.now rules.now }
{
    match rules {
        [] => None,
        [first, rest @ ..] => {
            if is_broken(fields, field, frame, *first) {
                Some(*first)
            } else {
                first_broken(rest, fields, field, frame)
            }
        }
    }
}

/// The first rule on its value that a field breaks, in a command with these fields.
pub(crate) fn broken_value(
    fields: &[NamedField],
    field: NamedField,
    frame: &[u8],
) -> Option<ValueRule>
    ensures { result ≡ broken_value (all_seen fields.now) (seen field) frame.now }
{
    first_broken(&value_rules(), fields, field, frame)
}
