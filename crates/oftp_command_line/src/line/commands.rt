//! The commands: how the values of each are read.
ghost use Rattle.std.specs.Prelude.{◌≡◌, IfErr, IfOk, None, Some, codes, true};
ghost use Rattle.oftp_command_line.specs.Arguments as spec;
ghost use Rattle.oftp_command_line.specs.Arguments.{HasValues, values_in};
ghost use Rattle.oftp_command_line.specs.Fault.{is_bad};
ghost use Rattle.oftp_command_line.specs.FileLines.{show_app};
ghost use Rattle.oftp_command_line.specs.Line.{app_named, said, said_by, said_show};

pub(super) mod audit;
pub(super) mod evidence;
pub(super) mod explain;
pub(super) mod feed;
pub(super) mod files;
pub(super) mod folders;
pub(super) mod history;
pub(super) mod operators;
pub(super) mod recording;
pub(super) mod registers;
pub(super) mod services;
pub(super) mod standings;
pub(super) mod terms;

use super::values::given;
use super::{Line, LineFault};
use audit::audit_read;
use clap::ArgMatches;
use evidence::evidence_read;
use explain::explain_read;
use feed::feed_read;
use folders::{collect_read, offer_read};
use history::history_read;
use operators::{refuse_read, release_read, resend_read, submit_read};
use recording::replay_read;
use registers::{backup_read, fetch_read, report_read};
use services::{call_read, http_read, listen_read, run_read, stop_read};
use standings::{health_read, status_read};
use std::alloc::Global;

/// The name of a command.
#[derive(Clone, Copy)]
pub(super) enum Name {
    Init,
    Migrate,
    Check,
    Submit,
    Offer,
    Resend,
    Release,
    Refuse,
    Fetch,
    Collect,
    Report,
    Status,
    Health,
    Settled,
    Backup,
    Stop,
    Reload,
    Show,
    Explain,
    Feed,
    Audit,
    History,
    Evidence,
    Run,
    Replay,
    Listen,
    Call,
    Http,
}

/// Reads the word of `show`.
#[tactic(auto, using(crate::proofs::Values::has_text))]
fn show_read<'a>(matches: &ArgMatches<'a>) -> Line<'a>
    requires { HasValues show_app (values_in matches.now) }
    ensures { said result ≡ said_show (spec.given (codes "in") (values_in matches.now)) }
{
    Line::Show {
        input: given(matches, "in"),
    }
}

impl Name {
    /// Reads the values of the command's options and words.
    #[tactic(auto, using(crate::proofs::Values::has_text))]
    pub(super) fn read<'a>(
        self,
        alloc: Global,
        matches: &ArgMatches<'a>,
    ) -> Result<Line<'a>, LineFault>
        requires { HasValues (app_named self) (values_in matches.now) }
        ensures ok { IfOk result (λ l. said_by self (values_in matches.now) ≡ Some (said l)) }
        ensures bad { IfErr result (λ e. is_bad e ≡ true → said_by self (values_in matches.now) ≡ None) }
    {
        match self {
            Name::Init => Ok(Line::Init {
                database: given(matches, "db"),
            }),
            Name::Migrate => Ok(Line::Migrate {
                database: given(matches, "db"),
            }),
            Name::Check => Ok(Line::Check {
                book: given(matches, "book"),
            }),
            Name::Submit => submit_read(alloc, matches).map(Line::Submit),
            Name::Offer => offer_read(alloc, matches).map(Line::Offer),
            Name::Resend => Ok(Line::Resend(resend_read(matches))),
            Name::Release => Ok(Line::Release(release_read(matches))),
            Name::Refuse => Ok(Line::Refuse(refuse_read(matches))),
            Name::Fetch => Ok(Line::Fetch(fetch_read(matches))),
            Name::Collect => Ok(Line::Collect(collect_read(matches))),
            Name::Report => report_read(alloc, matches).map(Line::Report),
            Name::Status => Ok(Line::Status(status_read(matches))),
            Name::Health => Ok(Line::Health(health_read(matches))),
            Name::Settled => Ok(Line::Settled {
                database: given(matches, "db"),
            }),
            Name::Backup => Ok(Line::Backup(backup_read(matches))),
            Name::Stop => Ok(Line::Stop(stop_read(matches))),
            Name::Reload => Ok(Line::Reload {
                database: given(matches, "db"),
            }),
            Name::Show => Ok(show_read(matches)),
            Name::Explain => explain_read(alloc, matches).map(Line::Explain),
            Name::Feed => feed_read(alloc, matches).map(Line::Feed),
            Name::Audit => Ok(Line::Audit(audit_read(matches))),
            Name::History => Ok(Line::History(history_read(matches))),
            Name::Evidence => evidence_read(alloc, matches).map(Line::Evidence),
            Name::Run => run_read(alloc, matches).map(Line::Run),
            Name::Replay => Ok(Line::Replay(replay_read(matches))),
            Name::Listen => Ok(Line::Listen(listen_read(matches))),
            Name::Call => Ok(Line::Call(call_read(matches))),
            Name::Http => Ok(Line::Http(http_read(matches))),
        }
    }
}
