//! DATA summed up, from one answer to the next.

ghost use Rattle.std.specs.Prelude.{◌≡◌, Some};
ghost use Rattle.std.specs.Fmt.{DisplaysOnOk};
ghost use Rattle.oftp_telling.specs.Counting.{several_text, count_text, gathered};

use std::fmt;

/// Which side sent something.
#[derive(Clone, Copy, Debug, Drop, PartialEq, Eq)]
pub enum Sender {
    /// The partner.
    Partner,
    /// This station.
    Station,
}

/// How many DATA were sent one after another, and how many octets they had.
#[derive(Clone, Copy, Debug, Drop, PartialEq, Eq)]
pub struct DataCount {
    /// Who sent them.
    pub sender: Sender,
    /// How many DATA there were.
    pub commands: u64,
    /// How many octets they had, without their first ones.
    pub octets: u64,
}

// Writes how many DATA there were, where there were several.
fn write_several<W: fmt::Write>(f: &mut fmt::Formatter<W>, commands: u64) -> fmt::Result
    ensures { DisplaysOnOk W.write_str_gives f.old result (Some (several_text commands)) f.new }
{
    if commands == 1 {
        return f.write_str("");
    }
    write!(f, " in {commands} commands")
}

impl fmt::Display for DataCount {
    ghost output = { λ c. Some (count_text c) };

    fn fmt<W: fmt::Write>(&self, f: &mut fmt::Formatter<W>) -> fmt::Result {
        write!(f, "DATA of {} octets", self.octets)?;
        write_several(f, self.commands)
    }
}

/// What was counted and is told now, and what is counted from now on.
#[derive(Clone, Copy, Debug, Drop, PartialEq, Eq)]
pub struct Gathered {
    /// What is told now, since the other side sends.
    pub due: Option<DataCount>,
    /// What is counted now.
    pub now: DataCount,
}

/// One more DATA, of so many octets: it is added to those of its sender, and ends those of the other one.
pub fn gather(before: Option<DataCount>, sender: Sender, octets: u64) -> Gathered
    ensures { result ≡ gathered before sender octets }
{
    let first = DataCount {
        sender,
        commands: 1,
        octets,
    };
    match before {
        None => Gathered {
            due: None,
            now: first,
        },
        Some(count) if count.sender != sender => Gathered {
            due: before,
            now: first,
        },
        Some(count) => Gathered {
            due: None,
            now: DataCount {
                sender,
                commands: count.commands.saturating_add(1),
                octets: count.octets.saturating_add(octets),
            },
        },
    }
}
