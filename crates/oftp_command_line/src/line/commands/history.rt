//! The command `history`, which tells what the events say of a file.
#![tactic(auto, using(crate::proofs::Values::has_text), unfolding(crate::specs::HistoryLine::history_app))]

ghost use Rattle.std.specs.Prelude.{◌≡◌, codes};
ghost use Rattle.oftp_command_line.specs.Arguments.{HasValues, values_in};
ghost use Rattle.oftp_command_line.specs.HistoryLine.{history_app, history_said, history_with, ways_of};

use crate::line::values::{given, has_flag, number};
use clap::ArgMatches;

/// Which way the file goes that is asked for. Numbers are counted separately for each way.
#[derive(Clone, Copy, PartialEq, Eq)]
pub enum Ways {
    /// It comes in.
    In,
    /// It goes out.
    Out,
    /// The incoming file with the number and the outgoing one are both asked for.
    Both,
}

/// The command `history`, which tells what the events say of a file, and what its state proves.
#[derive(Clone, Copy)]
pub struct History<'a> {
    /// The file that has the events.
    pub events: &'a str,
    /// Which way the file goes.
    pub ways: Ways,
    /// Whether the events are told themselves.
    pub json: bool,
    /// The file's number, 1 to 9,999,999.
    pub no: u64,
}

/// The ways that the options `--in` and `--out` ask for. Both and none of them ask for both.
fn ways_of(incoming: bool, outgoing: bool) -> Ways
    ensures { result ≡ ways_of incoming outgoing }
{
    match (incoming, outgoing) {
        (true, false) => Ways::In,
        (false, true) => Ways::Out,
        (true, true) | (false, false) => Ways::Both,
    }
}

/// Reads the values of the options and words of `history`.
pub(super) fn history_read<'a>(matches: &ArgMatches<'a>) -> History<'a>
    requires { HasValues history_app (values_in matches.now) }
    ensures { history_said result ≡ history_with (values_in matches.now) }
{
    History {
        events: given(matches, "events"),
        ways: ways_of(has_flag(matches, "in"), has_flag(matches, "out")),
        json: has_flag(matches, "json"),
        no: number(matches, "no"),
    }
}
