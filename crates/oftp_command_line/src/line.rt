//! Parses the command line, given by the arguments after the program's name.
ghost use Rattle.std.specs.Prelude.{◌≡◌, IfErr, IfOk, None, Some, map, option_map, true};
ghost use Rattle.std.specs.String.{string_bytes};
ghost use Rattle.oftp_command_line.specs.Fault.{is_bad};
ghost use Rattle.oftp_command_line.specs.Line.{asked_by, line_named, line_of_words, only_prints, said};
ghost use Rattle.oftp_command_line.specs.declared.line.LineFault.TheVariants.{Memory};

mod arguments;
mod commands;
mod table;
mod usage;
mod values;

use arguments::command;
pub use arguments::{Argument, Kind};
use commands::Name;
pub use commands::audit::Audit;
pub use commands::evidence::Evidence;
pub use commands::explain::Explain;
pub use commands::feed::{Feed, FeedRole};
pub use commands::files::Files;
pub use commands::folders::{Collect, Offer};
pub use commands::history::{History, Ways};
pub use commands::operators::{Refuse, Release, Resend, Submit};
pub use commands::recording::{RecordSync, Replay};
pub use commands::registers::{Backup, Fetch, Report};
pub use commands::services::{Call, Http, Listen, Run, Stop};
pub use commands::standings::{Health, Status};
pub use commands::terms::{Entrance, SessionTerms};
use std::alloc::{AllocError, Global};
pub use table::{Declaration, declarations};
pub use usage::{VERSION, help};
use usage::{unknown_command, usage_after};
use values::matched;

/// A command with its options and words. The texts are borrowed from the arguments.
#[derive(Clone, Copy)]
pub enum Line<'a> {
    /// Prints what each command takes and does.
    Help,
    /// Prints the version.
    Version,
    /// Opens the database and creates its tables.
    Init {
        /// The database's file.
        database: &'a str,
    },
    /// Migrates a database of schema 1 to schema 2.
    Migrate {
        /// The database's file.
        database: &'a str,
    },
    /// Reads the book and counts its partners.
    Check {
        /// The book's file.
        book: &'a str,
    },
    /// Submits a file to be sent to a partner.
    Submit(Submit<'a>),
    /// Submits the files of a folder to be sent to a partner.
    Offer(Offer<'a>),
    /// Submits the content of an outgoing file again.
    Resend(Resend<'a>),
    /// Issues the End-to-End Response of an incoming file.
    Release(Release<'a>),
    /// Issues the Negative End Response of an incoming file.
    Refuse(Refuse<'a>),
    /// Writes an incoming file to a file.
    Fetch(Fetch<'a>),
    /// Writes the incoming files that are whole and have no response to a folder.
    Collect(Collect<'a>),
    /// Prints a report of the database.
    Report(Report<'a>),
    /// Tells how the station stands.
    Status(Status<'a>),
    /// Tells whether something is overdue.
    Health(Health<'a>),
    /// Tells which files are still open.
    Settled {
        /// The database's file.
        database: &'a str,
    },
    /// Copies the database to a file.
    Backup(Backup<'a>),
    /// Has the station that runs over the database end.
    Stop(Stop<'a>),
    /// Has the station that runs over the database read its book again.
    Reload {
        /// The database's file.
        database: &'a str,
    },
    /// Prints the commands that one side of a session sent.
    Show {
        /// The file with its octets.
        input: &'a str,
    },
    /// Tells what the partner did in a session that RFC 5024 doesn't allow.
    Explain(Explain<'a>),
    /// Runs one session from file to file.
    Feed(Feed<'a>),
    /// Tells what is unsound in the database, and what it has lost of an older one.
    Audit(Audit<'a>),
    /// Tells what the events say of a file.
    History(History<'a>),
    /// Writes a folder of what proves a file's delivery.
    Evidence(Evidence<'a>),
    /// Runs a resident station.
    Run(Run<'a>),
    /// Plays a record over a database.
    Replay(Replay<'a>),
    /// Serves sessions of partners that call.
    Listen(Listen<'a>),
    /// Runs one session with a partner that is called.
    Call(Call<'a>),
    /// Answers HTTP requests about the database.
    Http(Http<'a>),
}

impl Line<'_> {
    /// Whether the command changes nothing but what its output says.
    pub fn only_prints(&self) -> bool
        ensures { result ≡ only_prints (said self.now) }
    {
        match self {
            Line::Help | Line::Version => true,
            Line::Check { .. } | Line::Report(_) | Line::Show { .. } => true,
            Line::Audit(_) | Line::History(_) | Line::Explain(_) => true,
            Line::Status(_) | Line::Health(_) | Line::Settled { .. } => true,
            Line::Init { .. } | Line::Migrate { .. } | Line::Backup(_) => false,
            Line::Stop(_) | Line::Reload { .. } | Line::Resend(_) => false,
            Line::Submit(_) | Line::Release(_) | Line::Refuse(_) => false,
            Line::Offer(_) | Line::Collect(_) | Line::Fetch(_) => false,
            Line::Replay(_) | Line::Evidence(_) => false,
            Line::Feed(_) | Line::Run(_) | Line::Listen(_) | Line::Call(_) | Line::Http(_) => false,
        }
    }
}

/// Why a command line isn't parsed.
#[derive(Drop)]
pub enum LineFault {
    /// It is invalid. The text for standard error says why, and ends with a line end.
    Bad(String),
    /// Out of memory.
    Memory,
}

impl From<AllocError> for LineFault {
    ghost from_gives = { λ _ e. e ≡ Memory };

    fn from(_error: AllocError) -> LineFault {
        LineFault::Memory
    }
}

/// What the first word asks of the program itself, whatever words follow it.
fn asked<'a>(word: &str) -> Option<Line<'a>>
    ensures { option_map said result ≡ asked_by word.now }
{
    match word {
        "help" | "--help" | "-h" => Some(Line::Help),
        "version" | "--version" | "-V" => Some(Line::Version),
        _ => None,
    }
}

/// Parses a command line. The first word asks for the program's help or version, or names the command; the others are its options and words.
///
/// # Errors
///
/// - [`LineFault::Bad`]: the command line is invalid, or asks for a command's help by `--help`. It has the text for standard error.
/// - [`LineFault::Memory`]: out of memory.
pub fn line_of<'a>(alloc: Global, words: &'a [String]) -> Result<Line<'a>, LineFault>
    ensures ok { IfOk result (λ l. line_of_words (map string_bytes words.entry.now) ≡ Some (said l)) }
    ensures bad { IfErr result (λ e. is_bad e ≡ true
        → line_of_words (map string_bytes words.entry.now) ≡ None) }
{
    let Some(first) = words.first() else {
        return Err(LineFault::Bad(usage_after(alloc, "error: a command is missing")?));
    };
    if let Some(line) = asked(first.as_str()) {
        return Ok(line);
    }
    let Some(name) = Name::of(first.as_str()) else {
        return Err(LineFault::Bad(unknown_command(alloc, first.as_str())?));
    };
    read_command(alloc, name, words)
}

/// Parses the options and words of the command with this name. The parser takes the first word as the name.
fn read_command<'a>(alloc: Global, name: Name, words: &'a [String]) -> Result<Line<'a>, LineFault>
    ensures ok { IfOk result (λ l. line_named name (map string_bytes words.entry.now) ≡ Some (said l)) }
    ensures bad { IfErr result (λ e. is_bad e ≡ true
        → line_named name (map string_bytes words.entry.now) ≡ None) }
{
    let command = command(alloc, name.declaration())?;
    let matches = matched(alloc, command, words)?;
    name.read(alloc, &matches)
}
