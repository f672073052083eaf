//! The command `evidence`, which writes a folder of what proves a file's delivery.
#![tactic(auto, using(crate::proofs::Values::has_text), unfolding(crate::specs::EvidenceLine::evidence_app))]

ghost use Rattle.std.specs.Prelude.{◌≡◌, IfErr, IfOk, None, Some, codes, true};
ghost use Rattle.oftp_command_line.specs.Arguments.{HasValues, values_in};
ghost use Rattle.oftp_command_line.specs.EvidenceLine.{evidence_app, evidence_in, evidence_said, evidence_with, side_of};
ghost use Rattle.oftp_command_line.specs.Fault.{is_bad};

use crate::line::LineFault;
use crate::line::values::{given, has_flag, number};
use clap::ArgMatches;
use oftp_register::Side;
use std::alloc::Global;

/// What a line says that doesn't say which way the file goes.
const UNCLEAR: &str = "error: give either --in or --out\n\nFor more information, try '--help'.\n";

/// The command `evidence`, which writes a folder of what proves a file's delivery.
#[derive(Clone, Copy)]
pub struct Evidence<'a> {
    /// The folder with the record.
    pub folder: &'a str,
    /// The database.
    pub database: &'a str,
    /// Whether it is an incoming or an outgoing file.
    pub side: Side,
    /// The file's number, 1 to 9,999,999.
    pub no: u64,
    /// The folder to write.
    pub to: &'a str,
}

// Which way the file goes, if one of the options `--in` and `--out` alone is given.
fn side_of(incoming: bool, outgoing: bool) -> Option<Side>
    ensures { result ≡ side_of incoming outgoing }
{
    match (incoming, outgoing) {
        (true, false) => Some(Side::Incoming),
        (false, true) => Some(Side::Outgoing),
        (true, true) | (false, false) => None,
    }
}

// The command with these values, for a file that goes this way.
fn evidence_with<'a>(matches: &ArgMatches<'a>, side: Side) -> Evidence<'a>
    requires { HasValues evidence_app (values_in matches.now) }
    ensures { evidence_said result ≡ evidence_with (values_in matches.now) side }
{
    Evidence {
        folder: given(matches, "record"),
        database: given(matches, "db"),
        side,
        no: number(matches, "no"),
        to: given(matches, "to"),
    }
}

/// Reads the values of the options and words of `evidence`.
pub(super) fn evidence_read<'a>(
    alloc: Global,
    matches: &ArgMatches<'a>,
) -> Result<Evidence<'a>, LineFault>
    requires { HasValues evidence_app (values_in matches.now) }
    ensures ok { IfOk result (λ e. evidence_in (values_in matches.now) ≡ Some (evidence_said e)) }
    ensures bad { IfErr result (λ e. is_bad e ≡ true → evidence_in (values_in matches.now) ≡ None) }
{
    match side_of(has_flag(matches, "in"), has_flag(matches, "out")) {
        Some(side) => Ok(evidence_with(matches, side)),
        None => Err(LineFault::Bad(String::from_str(alloc, UNCLEAR)?)),
    }
}
