//! The results for the files of a folder, as they are printed.

ghost use Rattle.std.specs.Prelude.{Some};
ghost use Rattle.oftp_outcomes.specs.Printed.{carried_line, why_line};

use crate::outcome::Fault;
use oftp_engine::Refusal;
use std::fmt;

/// Why a file of a folder isn't carried.
#[derive(Clone, Copy, Debug, PartialEq, Eq, Drop)]
pub enum Why {
    /// It is refused.
    Refused(Refusal),
    /// It can't be read or written.
    Failed(Fault),
}

impl fmt::Display for Why {
    ghost output = { λ why. Some (why_line why) };

    fn fmt<W: fmt::Write>(&self, f: &mut fmt::Formatter<W>) -> fmt::Result {
        match self {
            Why::Refused(refusal) => write!(f, "{refusal}"),
            Why::Failed(fault) => write!(f, "{fault}"),
        }
    }
}

/// The result for a file of a folder: the line on standard output.
#[derive(Clone, Copy, Drop)]
pub enum Carried<'a> {
    /// An incoming file is in the folder, and was released if that was asked for.
    Collected {
        /// Its number.
        no: u64,
        /// Its name in the folder.
        name: &'a str,
    },
    /// A file of the folder was submitted.
    Offered {
        /// Its number as an outgoing file.
        no: u64,
        /// Its name in the folder, which is its dataset name.
        name: &'a str,
    },
    /// A file isn't carried.
    Left {
        /// The reason.
        why: Why,
        /// Its name in the folder, or the name that it would have there.
        name: &'a str,
    },
    /// A file stays in the folder, since its name is no dataset name.
    Unnamed {
        /// Its name in the folder, without characters that can't be seen.
        name: &'a str,
    },
}

impl fmt::Display for Carried<'_> {
    ghost output = { λ carried. Some (carried_line carried) };

    fn fmt<W: fmt::Write>(&self, f: &mut fmt::Formatter<W>) -> fmt::Result {
        match self {
            Carried::Collected { no, name } => write!(f, "done: collect {no} {name}"),
            Carried::Offered { no, name } => write!(f, "done: offer {no} {name}"),
            Carried::Left { why, name } => write!(f, "{why} {name}"),
            Carried::Unnamed { name } => write!(f, "left: {name}: no dataset name"),
        }
    }
}
