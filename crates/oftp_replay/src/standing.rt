//! How the register of a database stands to those that a record has.

use crate::tape::{At, Tape};
use oftp_contents::{Likeness, RegisterStanding};
use oftp_outcomes::{Fault, write_line};
use oftp_recording::{Digest, RegisterDigests};
use oftp_register::Office;
use std::io::Write;

/// What came of comparing a register with a record.
#[derive(Clone, Copy, Debug, PartialEq, Eq)]
pub enum Compared {
    /// The record is whole, has the digest of the register, and behind it nothing that may have changed the register.
    Same,
    /// It isn't, which was told.
    Other,
}

/// Compares the register of an office with the digests of the record in a folder. Writes a line if it has none of them, or if behind its digest the
/// register may have become another one. A record that is cut off or was changed is told of.
///
/// # Errors
/// [`Fault::File`] if the record can't be read; [`Fault::Run`] if the office failed, or `out` returned an error; [`Fault::MEMORY`].
pub fn compare_with_record<O: Office>(
    rt: &HostRuntime,
    folder: &str,
    office: &mut O,
    out: &mut impl Write,
) -> Result<Compared, Fault> {
    let register = RegisterDigests::new(rt.alloc()).digest(office)?;
    let mut tape = Tape::open(rt, folder)?;
    let standing = standing_of(&mut tape, &register)?;
    if let At::Broken(damage) = tape.at() {
        let line = tape.told(damage.words())?;
        write_line(out, &line.as_str())?;
        return Ok(Compared::Other);
    }
    match standing {
        RegisterStanding::Last => return Ok(Compared::Same),
        RegisterStanding::Earlier => write_line(out, &"register: the record goes on behind it")?,
        RegisterStanding::Unknown => write_line(out, &"register: no entry of the record has it")?,
    }
    Ok(Compared::Other)
}

/// How a register stands to the digests of a record, which is read to its end or up to what is broken.
fn standing_of(tape: &mut Tape<'_>, register: &Digest) -> Result<RegisterStanding, Fault> {
    let mut standing = RegisterStanding::Unknown;
    for _ in 0..u64::MAX {
        let Some(kind) = tape.kind() else {
            break;
        };
        if let Some(likeness) = Likeness::at(kind, tape.register(), *register) {
            standing = standing.after(likeness);
        }
        tape.advance()?;
    }
    Ok(standing)
}
