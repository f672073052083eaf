//! Why a path, a database, an address or a number is none that a command can use.

ghost use Rattle.std.specs.Prelude.{Some};
ghost use Rattle.oftp_notes.specs.Causes.{address_cause_text, database_cause_text, path_cause_text, state_text};

use crate::system::SystemError;
use std::fmt;

/// Why a file or a folder can't be read or made.
#[derive(Clone, Copy, Debug, PartialEq, Eq, Drop)]
pub enum PathCause {
    /// An error of the system.
    System(SystemError),
    /// It is a folder.
    IsFolder,
    /// It is no folder.
    IsNoFolder,
    /// The command reads it, or the database has it.
    IsNeeded,
    /// A log or a journal of a database lies beside it.
    HasLog,
    /// It has more octets than a book may have.
    IsTooLong,
    /// Nothing is found now that says why.
    IsOther,
}

impl fmt::Display for PathCause {
    ghost output = { λ cause. Some (path_cause_text cause) };

    fn fmt<W: fmt::Write>(&self, f: &mut fmt::Formatter<W>) -> fmt::Result {
        match self {
            PathCause::System(error) => write!(f, "{error}"),
            PathCause::IsFolder => f.write_str("is a folder, and a file is needed"),
            PathCause::IsNoFolder => f.write_str("is no folder"),
            PathCause::IsNeeded => f.write_str(
                "the command or a database needs it: name another file",
            ),
            PathCause::HasLog => f.write_str(
                "has a log or a journal beside it (-wal, -journal): move it away",
            ),
            PathCause::IsTooLong => f.write_str("has more than 16777216 octets"),
            PathCause::IsOther => f.write_str("can't be read or made, and works now: try again"),
        }
    }
}

/// Why a database can't be used.
#[derive(Clone, Copy, Debug, PartialEq, Eq, Drop)]
pub enum DatabaseCause {
    /// An error of the system.
    System(SystemError),
    /// The process with this number has it open.
    IsHeld(u32),
    /// It is a folder.
    IsFolder,
    /// Its path is empty, or `:memory:`.
    IsUnkept,
    /// It doesn't begin as a database does.
    IsNoDatabase,
    /// It has other tables.
    IsOfOthers,
    /// It isn't there.
    IsMissing,
    /// Nothing else is found: the disk failed, or it is damaged.
    IsDamaged,
    /// A read or a write failed, or the station is gone.
    IsFailing,
    /// The register or a file is too large.
    IsFull,
}

impl fmt::Display for DatabaseCause {
    ghost output = { λ cause. Some (database_cause_text cause) };

    fn fmt<W: fmt::Write>(&self, f: &mut fmt::Formatter<W>) -> fmt::Result {
        match self {
            DatabaseCause::System(error) => write!(f, "{error}"),
            DatabaseCause::IsHeld(process) => write!(f, "process {process} has it open"),
            DatabaseCause::IsFolder => f.write_str("is a folder"),
            DatabaseCause::IsUnkept => f.write_str("an empty path and :memory: keep nothing"),
            DatabaseCause::IsNoDatabase => f.write_str("is no database of SQLite"),
            DatabaseCause::IsOfOthers => f.write_str(
                "has other tables than this station's: another program's, or those of schema 1 (migrate)",
            ),
            DatabaseCause::IsMissing => f.write_str("isn't there"),
            DatabaseCause::IsDamaged => f.write_str(
                "can't be opened: its disk failed, it is damaged, or it was locked till now",
            ),
            DatabaseCause::IsFailing => f.write_str(
                "a read or a write failed, or the station over it is gone; report shows what is done",
            ),
            DatabaseCause::IsFull => f.write_str(
                "has room for 1000000 files, each of 67108864 octets and 1000000 records at most",
            ),
        }
    }
}

/// Why an address can't be connected or bound.
#[derive(Clone, Copy, Debug, PartialEq, Eq, Drop)]
pub enum AddressCause {
    /// An error of the system.
    System(SystemError),
    /// It is no address.
    IsNoAddress,
    /// The name has no address.
    IsNoName,
    /// Nobody answered in time.
    IsLate,
    /// The connection broke, or nothing came in time.
    IsSilent,
    /// The station isn't there, or ended first.
    IsEnding,
    /// Nothing is found now that says why.
    IsOther,
}

impl fmt::Display for AddressCause {
    ghost output = { λ cause. Some (address_cause_text cause) };

    fn fmt<W: fmt::Write>(&self, f: &mut fmt::Formatter<W>) -> fmt::Result {
        match self {
            AddressCause::System(error) => write!(f, "{error}"),
            AddressCause::IsNoAddress => f.write_str(
                "has to be HOST:PORT with a port of 1 to 65535",
            ),
            AddressCause::IsNoName => f.write_str("the name has no address"),
            AddressCause::IsLate => f.write_str("nobody answered in time"),
            AddressCause::IsEnding => f.write_str(
                "isn't there, or ended before this command's turn: nothing was done",
            ),
            AddressCause::IsSilent => f.write_str(
                "the connection broke, or nothing came or went in time",
            ),
            AddressCause::IsOther => f.write_str("couldn't be reached, and can be now: try again"),
        }
    }
}

/// The state in which an incoming file can't be answered or fetched.
#[derive(Clone, Copy, Debug, PartialEq, Eq, Drop)]
pub enum FileState {
    /// It isn't whole yet.
    Incomplete,
    /// Its End-to-End Response was issued.
    Released,
    /// Its Negative End Response was issued.
    Refused,
    /// Its state is none of these now.
    Other,
}

impl fmt::Display for FileState {
    ghost output = { λ cause. Some (state_text cause) };

    fn fmt<W: fmt::Write>(&self, f: &mut fmt::Formatter<W>) -> fmt::Result {
        match self {
            FileState::Incomplete => f.write_str("isn't whole yet"),
            FileState::Released => f.write_str("was released already (EERP)"),
            FileState::Refused => f.write_str("was refused already (NERP)"),
            FileState::Other => f.write_str("was in another state: look at report in"),
        }
    }
}
