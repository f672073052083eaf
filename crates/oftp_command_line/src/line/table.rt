//! The table of the commands: the name of each, what it does, and its options and words. The parser, the usage and the help take them from here.
ghost use Rattle.std.specs.Prelude.{◌≡◌, map};
ghost use Rattle.std.specs.List.{All};
ghost use Rattle.oftp_command_line.specs.Line.{app_named, command_names, name_of};
ghost use Rattle.oftp_command_line.specs.Told.{IsTold, app_told, with_name, word_of};

use super::arguments::{
    Argument, Kind, MOST_ADMISSION, MOST_CALLERS, MOST_DURATION, MOST_HOURS, MOST_INTERVAL,
    MOST_JOBS, MOST_LONGEST, MOST_NO, MOST_PATIENCE, MOST_PORT, MOST_REASON, MOST_SESSION,
};
use super::commands::Name;

/// A command of the table.
#[derive(Clone, Copy)]
pub struct Declaration {
    // Which command it is: this says how its values are read.
    pub(super) name: Name,
    /// The word that names it.
    pub word: &'static str,
    /// Its usage: a line, without its end.
    pub usage: &'static str,
    /// What it does, in a line without its end.
    pub about: &'static str,
    /// Its options and words, in their order in texts.
    pub arguments: &'static [Argument],
}

// An argument. The table has it as `KIND(ID, PLACEHOLDER, HELP)`, with its default if it has one, and with the least and the greatest number
// if it takes numbers; or as `Shared(..)`.
macro_rules! argument {
    (Shared($($shared:tt)*)) => { shared!(argument {} {} $($shared)*) };
    (Flag($id:literal, $help:literal)) => { argument!(Kind::Flag, $id, $id, $help) };
    (Defaulted($id:literal, $shown:literal, $help:literal, $value:literal $(, $low:literal, $high:ident)?)) => {
        argument!(Kind::Defaulted($value), $id, $shown, $help $(, $low, $high)?)
    };
    ($kind:ident($id:literal, $shown:literal, $help:literal $(, $low:literal, $high:ident)?)) => {
        argument!(Kind::$kind, $id, $shown, $help $(, $low, $high)?)
    };
    ($kind:expr, $id:literal, $shown:literal, $help:literal) => {
        Argument { id: $id, shown: $shown, help: $help, kind: $kind, numbers: None }
    };
    ($kind:expr, $id:literal, $shown:literal, $help:literal, $low:literal, $high:ident) => {
        Argument { id: $id, shown: $shown, help: $help, kind: $kind, numbers: Some(($low, $high)) }
    };
}

// The usage of a command: its beginning in brackets, followed by each argument.
macro_rules! usage {
    ([$($text:literal)*]) => { concat!($($text),*) };
    ([$($text:literal)*] Shared($($shared:tt)*) $($rest:tt)*) => { shared!(usage {[$($text)*]} {$($rest)*} $($shared)*) };
    ([$($text:literal)*] Word($id:literal, $shown:literal $($more:tt)*) $($rest:tt)*) => { usage!([$($text)* " <" $shown ">"] $($rest)*) };
    ([$($text:literal)*] Last($id:literal, $shown:literal $($more:tt)*) $($rest:tt)*) => { usage!([$($text)* " [" $shown "]"] $($rest)*) };
    ([$($text:literal)*] Needed($id:literal, $shown:literal $($more:tt)*) $($rest:tt)*) => {
        usage!([$($text)* " --" $id " <" $shown ">"] $($rest)*)
    };
    ([$($text:literal)*] Flag($id:literal $($more:tt)*) $($rest:tt)*) => { usage!([$($text)* " [--" $id "]"] $($rest)*) };
    ([$($text:literal)*] $kind:ident($id:literal, $shown:literal $($more:tt)*) $($rest:tt)*) => {
        usage!([$($text)* " [--" $id " <" $shown ">]"] $($rest)*)
    };
}

// An argument that several commands have, handed to the macro `to` between `head` and `tail`.
macro_rules! shared {
    ($to:ident $head:tt $tail:tt database) => { shared!($to $head $tail = Needed("db", "DATABASE", "The file that holds the database")) };
    ($to:ident $head:tt $tail:tt book) => { shared!($to $head $tail = Needed("book", "BOOK", "The file that holds the book")) };
    ($to:ident $head:tt $tail:tt number) => {
        shared!($to $head $tail = Word("no", "NO", "The incoming file's number, 1 to 9999999", 1, MOST_NO))
    };
    ($to:ident $head:tt $tail:tt port, $port:literal) => {
        shared!($to $head $tail = Defaulted("port", "PORT", "The port on which callers are awaited, 1 to 65535", $port, 1, MOST_PORT))
    };
    ($to:ident $head:tt $tail:tt address) => {
        shared!($to $head $tail = Defaulted("address", "ADDRESS", "The address on which callers are awaited", "127.0.0.1"))
    };
    ($to:ident $head:tt $tail:tt admission) => {
        shared!($to $head $tail = Defaulted("admission", "SECONDS", "How many seconds a caller has to be let in, 1 to 86400", "30", 1, MOST_ADMISSION))
    };
    ($to:ident $head:tt $tail:tt patience) => {
        shared!($to $head $tail = Defaulted("patience", "SECONDS", "How many seconds the partner may stay silent, 0 to 86400, 0 for ever", "300", 0, MOST_PATIENCE))
    };
    ($to:ident $head:tt $tail:tt duration) => {
        shared!($to $head $tail = Defaulted("longest", "SECONDS", "How many seconds a session may take, 1 to 86400", "86400", 1, MOST_DURATION))
    };
    ($to:ident $head:tt $tail:tt trace) => {
        shared!($to $head $tail = Optional("trace", "FILE", "The file to which each command that comes or goes is appended, in words"))
    };
    ($to:ident $head:tt $tail:tt events) => {
        shared!($to $head $tail = Optional("events", "FILE", "The file to which each event is appended, as a line of JSON"))
    };
    ($to:ident $head:tt $tail:tt record) => {
        shared!($to $head $tail = Optional("record", "FOLDER", "The folder to which what is heard, said and asked is recorded"))
    };
    ($to:ident {$($head:tt)*} {$($tail:tt)*} = $($argument:tt)*) => { $to!($($head)* $($argument)* $($tail)*) };
}

// A command with its arguments.
macro_rules! declaration {
    ($name:ident, $word:literal, $about:literal, [$($kind:ident $parts:tt),* $(,)?]) => {
        Declaration {
            name: Name::$name,
            word: $word,
            usage: usage!(["oftp_station " $word] $($kind $parts)*),
            about: $about,
            arguments: &[$(argument!($kind $parts)),*],
        }
    };
}

// The commands, in their order in texts.
const INIT: Declaration =
    declaration! { Init, "init", "Opens the database and makes its tables", [Shared(database)] };

const MIGRATE: Declaration =
    declaration! { Migrate, "migrate", "Brings a database of schema 1 to schema 2", [Shared(database)] };

const CHECK: Declaration =
    declaration! { Check, "check", "Reads the book and counts its partners", [Shared(book)] };

const SUBMIT: Declaration =
    declaration! { Submit, "submit", "Submits file FILE, to be sent to a partner", [
        Shared(database),
        Shared(book),
        Shared(events),
        Shared(record),
        Needed("dataset", "NAME", "The virtual file's dataset name"),
        Optional("date", "DATE", "Its date stamp, as 20240131; today's if it is missing"),
        Optional("time", "TIME", "Its time stamp, as 1015300001; that of this moment if it is missing"),
        Needed("to", "CODE", "The code of the partner that it goes to"),
        Needed("format", "FORMAT", "The format of its records: F, V, U or T"),
        Defaulted("longest", "OCTETS", "The length of its records in F, or of the longest in V, 1 to 16384", "0", 0, MOST_LONGEST),
        Defaulted("description", "TEXT", "What it is, in words", ""),
        Word("file", "FILE", "The file that holds it in its local form"),
    ] };

const OFFER: Declaration =
    declaration! { Offer, "offer", "Submits the files in folder FOLDER, to be sent to a partner", [
        Shared(database),
        Shared(book),
        Shared(events),
        Shared(record),
        Needed("to", "CODE", "The code of the partner that they go to"),
        Needed("from", "FOLDER", "The folder that holds them in their local form"),
        Optional("dataset", "NAME", "The dataset name of each; its own name if this is missing"),
        Defaulted("description", "TEXT", "What each is, in words", ""),
        Flag("describe", "Takes the name of each file as its description"),
        Defaulted("format", "FORMAT", "The format of their records: F, V, U or T", "U"),
        Defaulted("longest", "OCTETS", "The length of their records in F, or of the longest in V, 1 to 16384", "0", 0, MOST_LONGEST),
    ] };

const RESEND: Declaration =
    declaration! { Resend, "resend", "Submits the content of an outgoing file again, under another date and time", [
        Shared(database),
        Shared(book),
        Shared(events),
        Shared(record),
        Optional("date", "DATE", "The new date stamp, as 20240131; today's if it is missing"),
        Optional("time", "TIME", "The new time stamp, as 1015300001; that of this moment if it is missing"),
        Word("no", "NO", "The outgoing file's number, 1 to 9999999", 1, MOST_NO),
    ] };

const RELEASE: Declaration =
    declaration! { Release, "release", "Says that an incoming file was delivered", [
        Shared(database),
        Shared(book),
        Shared(events),
        Shared(record),
        Shared(number),
    ] };

const REFUSE: Declaration =
    declaration! { Refuse, "refuse", "Says that an incoming file wasn't delivered", [
        Shared(database),
        Shared(book),
        Shared(events),
        Shared(record),
        Shared(number),
        Word("reason", "REASON", "Why it wasn't, 0 to 99", 0, MOST_REASON),
        Word("text", "TEXT", "The reason in words"),
    ] };

const FETCH: Declaration =
    declaration! { Fetch, "fetch", "Writes an incoming file in its local form to file FILE", [
        Shared(database),
        Shared(number),
        Word("file", "FILE", "The file to write it to"),
    ] };

const COLLECT: Declaration =
    declaration! { Collect, "collect", "Writes the incoming files that are whole and unanswered to folder FOLDER", [
        Shared(database),
        Shared(book),
        Shared(events),
        Shared(record),
        Needed("to", "FOLDER", "The folder to write them to"),
        Optional("from", "CODE", "Only files of the partner with this code"),
        Optional("dataset", "PATTERN", "Only files whose dataset names match this: * is any text, ? any character"),
        Flag("release", "Releases each file once it is written"),
    ] };

const REPORT: Declaration =
    declaration! { Report, "report", "Tells what the database holds, as comma-separated values", [
        Shared(database),
        Optional("state", "STATE", "Only files in this state"),
        Optional("partner", "CODE", "Only files and responses of the partner with this code"),
        Optional("since", "DATE", "Only files and responses from this date on, as 20240131"),
        Flag("json", "Tells them as JSON"),
        Word("kind", "KIND", "What is reported: in, out, issued or received"),
    ] };

const STATUS: Declaration = declaration! { Status, "status", "Tells how the station stands", [
        Shared(database),
        Flag("json", "Tells it as JSON"),
    ] };

const HEALTH: Declaration =
    declaration! { Health, "health", "Tells in one line whether something is overdue, as a plugin of Nagios", [
        Shared(database),
        Defaulted("warn", "HOURS", "After how many hours something is overdue, 0 to 87600", "24", 0, MOST_HOURS),
        Defaulted("critical", "HOURS", "After how many hours that is critical, 0 to 87600", "48", 0, MOST_HOURS),
    ] };

const SETTLED: Declaration =
    declaration! { Settled, "settled", "Tells which files are still open", [Shared(database)] };

const BACKUP: Declaration =
    declaration! { Backup, "backup", "Copies the database as it stands to file TO", [
        Shared(database),
        Shared(events),
        Shared(record),
        Word("to", "TO", "The file to write the copy to"),
    ] };

const STOP: Declaration =
    declaration! { Stop, "stop", "Ends the station that runs over the database, once its session is over", [
        Shared(database),
        Flag("now", "Cuts the session off"),
    ] };

const RELOAD: Declaration =
    declaration! { Reload, "reload", "Makes the station that runs over the database read its book again", [
    Shared(database),
] };

const SHOW: Declaration =
    declaration! { Show, "show", "Prints the commands in file IN, a line each, up to the first fault", [
        Word("in", "IN", "The file that holds what one side of a session sent"),
    ] };

const EXPLAIN: Declaration =
    declaration! { Explain, "explain", "Tells what the partner did in a session that the standard doesn't allow", [
        Optional("record", "FOLDER", "The folder of a station's record, in the place of IN and OUT"),
        Optional("session", "NUMBER", "The session of the record, 0 to 999999999; each if it is missing", 0, MOST_SESSION),
        Last("in", "IN", "The file that holds what the partner sent"),
        Last("out", "OUT", "The file that holds what the station sent"),
    ] };

const FEED: Declaration =
    declaration! { Feed, "feed", "Plays one session from the octets of file IN to file OUT", [
        Optional("db", "DATABASE", "The file that holds the database"),
        Shared(book),
        Defaulted("role", "ROLE", "The side that the station plays: responder or initiator", "responder"),
        Optional("partner", "CODE", "The code of the partner that an initiator calls"),
        Shared(trace),
        Shared(record),
        Word("in", "IN", "The file that holds what the partner sends"),
        Word("out", "OUT", "The file to write what the station sends to"),
    ] };

const AUDIT: Declaration =
    declaration! { Audit, "audit", "Tells what is unsound in the database, and what it has lost of an older one", [
        Shared(database),
        Optional("old", "BACKUP", "The file that holds the older database"),
        Optional("record", "FOLDER", "The folder of the record whose last register the database has"),
    ] };

const HISTORY: Declaration =
    declaration! { History, "history", "Tells what the events say of a file, and what its state proves", [
        Needed("events", "FILE", "The file that holds the events"),
        Flag("in", "Tells of the incoming file alone"),
        Flag("out", "Tells of the outgoing file alone"),
        Flag("json", "Tells the events themselves"),
        Word("no", "NO", "The file's number, 1 to 9999999", 1, MOST_NO),
    ] };

const EVIDENCE: Declaration =
    declaration! { Evidence, "evidence", "Writes a folder of what proves a file's delivery", [
        Needed("record", "FOLDER", "The folder that holds the record"),
        Shared(database),
        Flag("in", "The file is an incoming one"),
        Flag("out", "The file is an outgoing one"),
        Needed("to", "FOLDER", "The folder to write, which isn't there yet"),
        Word("no", "NO", "The file's number, 1 to 9999999", 1, MOST_NO),
    ] };

const RUN: Declaration =
    declaration! { Run, "run", "Runs the station: serves partners and commands, one after another", [
        Shared(database),
        Shared(book),
        Shared(port, "3305"),
        Shared(address),
        Defaulted("http-port", "PORT", "The port on which requests by HTTP are awaited, 0 to 65535, 0 for none", "0", 0, MOST_PORT),
        Optional("host", "NAME", "A name by which browsers find this machine"),
        Defaulted("call-every", "SECONDS", "After how many seconds each partner for whom something waits is called, 0 to 86400, 0 for never", "0", 0, MOST_INTERVAL),
        Shared(admission),
        Shared(patience),
        Shared(duration),
        Shared(trace),
        Shared(events),
        Shared(record),
        Defaulted("record-sync", "SYNC", "Whether the record is synced before an answer goes out: yes or no", "yes"),
        Defaulted("jobs", "COUNT", "After how many jobs it ends, 0 to 1000000, 0 for never", "0", 0, MOST_JOBS),
    ] };

const REPLAY: Declaration =
    declaration! { Replay, "replay", "Plays a record over a database and compares what comes of it", [
        Needed("record", "FOLDER", "The folder that holds the record"),
        Shared(database),
        Optional("book", "BOOK", "The file that holds the book with the passwords"),
        Optional("from", "ENTRY", "The first entry to play, as YYYYMMDD:NUMBER"),
        Optional("to", "ENTRY", "The last entry to play, as YYYYMMDD:NUMBER"),
    ] };

const LISTEN: Declaration =
    declaration! { Listen, "listen", "Serves sessions of partners who call, one after another", [
        Shared(database),
        Shared(book),
        Shared(port, "3305"),
        Shared(address),
        Defaulted("sessions", "COUNT", "How many sessions are served, 1 to 1000000", "1", 1, MOST_CALLERS),
        Shared(admission),
        Shared(patience),
        Shared(duration),
        Shared(trace),
        Shared(events),
        Shared(record),
    ] };

const CALL: Declaration = declaration! { Call, "call", "Calls a partner for one session", [
    Shared(database),
    Shared(book),
    Needed("partner", "CODE", "The code of the partner that is called"),
    Flag("fail", "Ends with status 1 if the session ends otherwise than by 00"),
    Shared(patience),
    Shared(duration),
    Shared(trace),
    Shared(events),
    Shared(record),
] };

const HTTP: Declaration =
    declaration! { Http, "http", "Answers requests for what the database holds, one after another", [
        Shared(database),
        Shared(port, "8080"),
        Shared(address),
        Defaulted("requests", "COUNT", "How many requests are answered, 1 to 1000000", "1", 1, MOST_CALLERS),
    ] };

impl Name {
    /// The command with this name, as it is declared.
    #[tactic(auto, unfolding(crate::specs::Told::each_app))]
    pub(super) fn declaration(self) -> Declaration
        ensures name { result.name ≡ self }
        ensures word { result.word.now ≡ word_of self }
        ensures told { app_told result.word.now result.arguments.now ≡ app_named self }
    {
        match self {
            Name::Init => INIT,
            Name::Migrate => MIGRATE,
            Name::Check => CHECK,
            Name::Submit => SUBMIT,
            Name::Offer => OFFER,
            Name::Resend => RESEND,
            Name::Release => RELEASE,
            Name::Refuse => REFUSE,
            Name::Fetch => FETCH,
            Name::Collect => COLLECT,
            Name::Report => REPORT,
            Name::Status => STATUS,
            Name::Health => HEALTH,
            Name::Settled => SETTLED,
            Name::Backup => BACKUP,
            Name::Stop => STOP,
            Name::Reload => RELOAD,
            Name::Show => SHOW,
            Name::Explain => EXPLAIN,
            Name::Feed => FEED,
            Name::Audit => AUDIT,
            Name::History => HISTORY,
            Name::Evidence => EVIDENCE,
            Name::Run => RUN,
            Name::Replay => REPLAY,
            Name::Listen => LISTEN,
            Name::Call => CALL,
            Name::Http => HTTP,
        }
    }

    /// The command that this word names.
    pub(super) fn of(word: &str) -> Option<Name>
        ensures { result ≡ name_of word.now }
    {
        let all = declarations();
        for declaration in &all {
            if word == declaration.word {
                return Some(declaration.name);
            }
        }
        None
    }
}

/// All commands, in their order in texts.
pub fn declarations() -> [Declaration; 28]
    ensures names { map with_name result ≡ command_names }
    ensures told { All IsTold result }
{
    [
        Name::Init.declaration(),
        Name::Migrate.declaration(),
        Name::Check.declaration(),
        Name::Submit.declaration(),
        Name::Offer.declaration(),
        Name::Resend.declaration(),
        Name::Release.declaration(),
        Name::Refuse.declaration(),
        Name::Fetch.declaration(),
        Name::Collect.declaration(),
        Name::Report.declaration(),
        Name::Status.declaration(),
        Name::Health.declaration(),
        Name::Settled.declaration(),
        Name::Backup.declaration(),
        Name::Stop.declaration(),
        Name::Reload.declaration(),
        Name::Show.declaration(),
        Name::Explain.declaration(),
        Name::Feed.declaration(),
        Name::Audit.declaration(),
        Name::History.declaration(),
        Name::Evidence.declaration(),
        Name::Run.declaration(),
        Name::Replay.declaration(),
        Name::Listen.declaration(),
        Name::Call.declaration(),
        Name::Http.declaration(),
    ]
}
