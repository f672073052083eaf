//! The commit of any change of the register to the database.

ghost use Rattle.std.specs.Prelude.{◌≡◌, false};
ghost use Rattle.oftp_store.specs.Commits.{MakesChange};

use super::Context;
use super::edit::{header, issued, received};
use super::incoming::{close, give_up, keep, start};
use super::outgoing::{begin_closing, hand_over, mark, refuse, reopen, submit};
use super::responses::{file, issue, send};
use oftp_register::{Change, OfficeFault};
use sqlite::{Alter, Connection};

/// Commits one change of the register, in one transaction. A change that names a file by a number of 2^63 or more is refused.
///
/// # Errors
///
/// - [`OfficeFault::Refused`] with the first cause that applies. Only look-ups were made.
/// - [`OfficeFault::Memory`]: out of memory.
/// - [`OfficeFault::Store`]: no number is left, or any other error of the database.
///
/// After an error the register is unchanged if the connection is still open.
pub(crate) fn commit_change<S: Alter>(
    cx: Context,
    conn: &mut Connection<S>,
    change: Change<'_>,
) -> Result<(), OfficeFault>
    requires { conn.old.in_transaction ≡ false }
    ensures { MakesChange S.Store cx.limits change.entry conn.old conn.new result }
{
    match &change {
        Change::Submit {
            identity,
            format,
            longest,
            description: text,
            rows,
        } => submit(cx, conn, &header(identity, *format, *longest, text), rows),
        Change::Start {
            identity,
            format,
            longest,
            description: text,
            count,
        } => start(cx, conn, &header(identity, *format, *longest, text), *count),
        Change::Keep { no, rows } => keep(cx, conn, *no, rows),
        Change::Close { no, rows } => close(cx, conn, *no, rows),
        Change::GiveUp { no } => give_up(cx, conn, *no),
        Change::File {
            kind,
            identity,
            reason,
            creator,
            text,
        } => file(cx, conn, &received(*kind, identity, *reason, creator, text)),
        Change::Issue {
            no,
            kind,
            reason,
            text,
        } => issue(cx, conn, *no, &issued(*kind, *reason, text)),
        Change::Mark { no, rows } => mark(cx, conn, *no, *rows),
        Change::BeginClosing { no } => begin_closing(cx, conn, *no),
        Change::HandOver { no } => hand_over(cx, conn, *no),
        Change::Refuse { no, reason } => refuse(cx, conn, *no, *reason),
        Change::Reopen { no } => reopen(cx, conn, *no),
        Change::Send { no } => send(cx, conn, *no),
    }
}
