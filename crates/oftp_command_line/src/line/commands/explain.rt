//! The command `explain`, which tells what a partner did that RFC 5024 doesn't allow.
#![tactic(auto, unfolding(crate::specs::ExplainLine::explain_app))]

ghost use Rattle.std.specs.Prelude.{◌≡◌, IfErr, IfOk, None, Some, codes, option_map, true};
ghost use Rattle.oftp_command_line.specs.Arguments.{HasValues, values_in};
ghost use Rattle.oftp_command_line.specs.ExplainLine.{explain_app, explain_in, explain_said, explained_of};
ghost use Rattle.oftp_command_line.specs.Fault.{is_bad};

use crate::line::LineFault;
use crate::line::values::{optional_number, value_of};
use clap::ArgMatches;
use std::alloc::Global;

/// What a line says that names no one thing to explain.
const UNCLEAR: &str =
    "error: name either IN, with OUT or without, or --record <FOLDER>, with --session <NUMBER> or without\n\nFor more information, try '--help'.\n";

/// The command `explain`, which tells what the partner did in a session that RFC 5024 doesn't allow.
#[derive(Clone, Copy)]
pub enum Explain<'a> {
    /// The session of the partner's octets, in a file, and the station's, in another if there is one.
    Octets(&'a str, Option<&'a str>),
    /// The sessions with a number of the record in a folder; with `None`, each of them.
    Recorded(&'a str, Option<u64>),
}

// What is explained, if one thing is named.
fn explained<'a>(
    folder: Option<&'a str>,
    input: Option<&'a str>,
    output: Option<&'a str>,
    session: Option<u64>,
) -> Option<Explain<'a>>
    ensures { option_map explain_said result
        ≡ explained_of (option_map (λ s. s.now) folder.entry) (option_map (λ s. s.now) input.entry) (option_map (λ s. s.now) output.entry) session }
{
    match (folder, input, output, session) {
        (Some(folder), None, None, session) => Some(Explain::Recorded(folder, session)),
        (None, Some(input), output, None) => Some(Explain::Octets(input, output)),
        _ => None,
    }
}

/// Reads the values of the options and words of `explain`.
pub(super) fn explain_read<'a>(
    alloc: Global,
    matches: &ArgMatches<'a>,
) -> Result<Explain<'a>, LineFault>
    requires { HasValues explain_app (values_in matches.now) }
    ensures ok { IfOk result (λ e. explain_in (values_in matches.now) ≡ Some (explain_said e)) }
    ensures bad { IfErr result (λ e. is_bad e ≡ true → explain_in (values_in matches.now) ≡ None) }
{
    let folder = value_of(matches, "record");
    let input = value_of(matches, "in");
    let output = value_of(matches, "out");
    let session = optional_number(matches, "session");
    match explained(folder, input, output, session) {
        Some(explain) => Ok(explain),
        None => Err(LineFault::Bad(String::from_str(alloc, UNCLEAR)?)),
    }
}
