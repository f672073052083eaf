//! The file that a change names by its number.

ghost use Rattle.std.specs.Prelude.{◌≡◌, IfErr, IfOk, false};
ghost use Rattle.oftp_store.specs.Commits.{EndsCommit, Finds, NeedsFile};

use super::Context;
use crate::queries::last_number::FIRST_FAR;
use crate::queries::progress::Progress;
use oftp_register::{Cause, OfficeFault};
use sqlite::{Alter, Connection};

/// Finds what a change needs to know of the file with this number. It refuses the change as `Unknown` where there is no such file.
pub(crate) fn known<P: Progress, S: Alter>(
    cx: Context,
    conn: &mut Connection<S>,
    no: u64,
) -> Result<P, OfficeFault>
    requires { conn.old.in_transaction ≡ false }
    ensures autocommit { conn.new.in_transaction ≡ false }
    ensures found { IfOk result (Finds S.Store P.told no conn.old conn.new) }
    ensures ends { IfErr result (EndsCommit S.Store cx.limits (NeedsFile P.told no) conn.old conn.new) }
{
    if no >= FIRST_FAR {
        return Err(OfficeFault::Refused(Cause::Unknown));
    }
    match P::find(cx.alloc, conn, no)? {
        None => Err(OfficeFault::Refused(Cause::Unknown)),
        Some(progress) => Ok(progress),
    }
}
