//! Several changes in order, over any office.

ghost use Rattle.oftp_register.specs.Offices.{CommitsAll};

use crate::change::Change;
use crate::office::{Office, OfficeFault};

/// Commits changes in order, up to the first that fails. Wherever it ends, a crash leaves the register after a prefix of them, each one
/// made. Each change has to be fit when it is committed.
///
/// # Errors
///
/// That of the first change that failed:
///
/// - [`OfficeFault::Refused`] where the register refuses it, with its cause.
/// - [`OfficeFault::Store`] and [`OfficeFault::Memory`] as [`Office::commit`] returns them.
///
/// If the office is still open, it has the register after the changes before.
pub fn commit_all<O: Office>(office: &mut O, changes: Vec<Change<'_>>) -> Result<(), OfficeFault>
    ensures { CommitsAll changes.entry.items (O.view office.old) (O.view office.new) result }
{
    for change in changes {
        office.commit(change)?;
    }
    Ok(())
}
