//! Runs the parser, and reads the values of the arguments.
ghost use Rattle.std.specs.Prelude.{◌≡◌, ℕ, IfErr, IfOk, IsSome, None, Some, map, option_map, true};
ghost use Rattle.std.specs.String.{string_bytes};
ghost use Rattle.clap.specs.Words.{app_of, first_of, is_simple_and_free, kind_of};
ghost use Rattle.oftp_command_line.specs.Arguments as spec;
ghost use Rattle.oftp_command_line.specs.Arguments.{HasValues, IsNumber, taken, values_in};
ghost use Rattle.oftp_command_line.specs.Fault.{is_bad};
ghost use Rattle.oftp_command_line.specs.Told.{names_in};
ghost use Rattle.oftp_command_line.specs.declared.line.arguments.TheConstants.{MOST_PORT};

use super::LineFault;
use clap::error::ErrorKind;
use clap::{ArgMatches, Command, Error};
use std::alloc::{AllocError, Global};

/// The fault for an error of the parser.
fn fault_from(alloc: Global, error: &Error) -> LineFault
    ensures { is_bad result ≡ true → kind_of error.now ≡ ErrorKind.OutOfMemory → ⊥ }
{
    if error.kind() == ErrorKind::OutOfMemory {
        return LineFault::Memory;
    }
    match error.to_string(alloc) {
        Ok(text) => LineFault::Bad(text),
        Err(_) => LineFault::Memory,
    }
}

/// Runs the parser over the words, of which the first is the command's name.
pub(super) fn matched<'a>(
    alloc: Global,
    command: Command<'a>,
    words: &'a [String],
) -> Result<ArgMatches<'a>, LineFault>
    requires { is_simple_and_free (app_of command) ≡ true }
    ensures ok { IfOk result (λ m. taken (app_of command.entry) (map string_bytes words.entry.now)
        ≡ Some (values_in m)) }
    ensures bad { IfErr result (λ e. is_bad e ≡ true
        → taken (app_of command.entry) (map string_bytes words.entry.now) ≡ None) }
    ensures values { IfOk result (λ m. HasValues (app_of command.entry) (values_in m)) }
{
    match command.try_get_matches_from(words) {
        Ok(matches) => Ok(matches),
        Err(error) => Err(fault_from(alloc, &error)),
    }
}

/// The value of an optional option.
pub(super) fn value_of<'a>(matches: &ArgMatches<'a>, id: &str) -> Option<&'a str>
    ensures { option_map (λ s. s.now) result ≡ first_of id.now (values_in matches.now) }
{
    matches.get_str(id)
}

/// The value of an argument that is required or has a default.
pub(super) fn given<'a>(matches: &ArgMatches<'a>, id: &str) -> &'a str
    requires { IsSome (first_of id.now (values_in matches.now)) }
    ensures { result.now ≡ spec.given id.now (values_in matches.now) }
{
    value_of(matches, id).unwrap()
}

/// Whether an option without a value was given.
pub(super) fn has_flag(matches: &ArgMatches<'_>, id: &str) -> bool
    ensures { result ≡ spec.has_flag id.now (values_in matches.now) }
{
    match value_of(matches, id) {
        Some(value) => value == "true",
        None => false,
    }
}

/// The value of an argument that takes numbers, and is required or has a default.
pub(super) fn number(matches: &ArgMatches<'_>, id: &str) -> u64
    requires { (low : ℕ) × ((high : ℕ) × IsNumber low high id.now (values_in matches.now)) }
    ensures { result ≡ spec.number id.now (values_in matches.now) }
{
    matches.get_one::<u64>(id).unwrap()
}

/// The value of an argument that takes numbers, if it has one.
pub(super) fn optional_number(matches: &ArgMatches<'_>, id: &str) -> Option<u64>
    requires { IsSome (first_of id.now (values_in matches.now))
        → (low : ℕ) × ((high : ℕ) × IsNumber low high id.now (values_in matches.now)) }
    ensures { result ≡ spec.optional_number id.now (values_in matches.now) }
{
    match value_of(matches, id) {
        Some(_) => Some(number(matches, id)),
        None => None,
    }
}

/// The value of an argument that takes ports, and is required or has a default.
pub(super) fn port(matches: &ArgMatches<'_>, id: &str) -> u16
    requires { (low : ℕ) × IsNumber low MOST_PORT id.now (values_in matches.now) }
    ensures { result ≡ spec.number id.now (values_in matches.now) }
{
    number(matches, id) as u16
}

/// The value with this name.
fn named<T: Copy>(names: &[(&str, T)], text: &str) -> Option<T>
    ensures { result ≡ spec.named (names_in names.now) text.now }
{
    for (name, value) in names {
        if text == *name {
            return Some(*value);
        }
    }
    None
}

/// The text for a value that isn't one of these names. `argument` is the argument as texts show it.
fn unlisted<T>(
    alloc: Global,
    value: &str,
    argument: &str,
    names: &[(&str, T)],
) -> Result<String, AllocError> {
    let mut text = format!(in alloc; "error: invalid value '{value}' for '{argument}'\n")?;
    text.push_str("  [possible values: ")?;
    let mut between = "";
    for (name, _) in names {
        write!(text, "{between}{name}")?;
        between = ", ";
    }
    text.push_str("]\n\nFor more information, try '--help'.\n")?;
    Ok(text)
}

/// The value with the name that an argument has, which is required or has a default. `argument` is the argument as texts show it.
///
/// # Errors
/// `Bad` if there is no such name, else `Memory`.
pub(super) fn choice<T: Copy>(
    alloc: Global,
    matches: &ArgMatches<'_>,
    id: &str,
    argument: &str,
    names: &[(&str, T)],
) -> Result<T, LineFault>
    requires { IsSome (first_of id.now (values_in matches.now)) }
    ensures ok { IfOk result (λ x. spec.named (names_in names.now) (spec.given id.now (values_in matches.now)) ≡ Some x) }
    ensures bad { IfErr result (λ e. is_bad e ≡ true
        → spec.named (names_in names.now) (spec.given id.now (values_in matches.now)) ≡ None) }
{
    let value = given(matches, id);
    match named(names, value) {
        Some(chosen) => Ok(chosen),
        None => Err(LineFault::Bad(unlisted(alloc, value, argument, names)?)),
    }
}
