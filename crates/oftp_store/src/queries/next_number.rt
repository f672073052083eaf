//! The number of what is sent next to a partner.

ghost use Rattle.std.specs.Prelude.{◌≡◌, ◌<◌, ◌^◌, IfOk, IfErr, IfSome};
ghost use Rattle.oftp_store.specs.Numbers.{next_number, next_text};
ghost use Rattle.oftp_store.specs.Tells.{OnlyLooks, TellsStored};
ghost use Rattle.oftp_store.specs.Causes.{HasCause};

use super::first_row::first_number;
use oftp_register::{Name, OfficeFault};
use oftp_tables::number;
use sqlite::types::ValueRef;
use sqlite::{Alter, Connection};

/// A kind of item that is sent to a partner.
#[derive(Clone, Copy, Debug, Drop, PartialEq, Eq)]
pub(crate) enum Sendable {
    /// A file that is waiting or closing.
    File,
    /// A response that is due. Its number is that of its file.
    Response,
}

// The SQL that selects the number of the next item.
fn next_text(what: Sendable) -> &'static str
    ensures { result.now ≡ next_text what }
{
    match what {
        Sendable::File =>
            "SELECT no FROM out_file WHERE no > ?1 AND (state = 'waiting' OR state = 'closing') AND destination = ?2 ORDER BY no LIMIT 1",
        Sendable::Response =>
            "SELECT issued.no FROM issued JOIN in_file ON in_file.no = issued.no WHERE issued.no > ?1 AND sent = 0 AND originator = ?2 ORDER BY issued.no LIMIT 1",
    }
}

/// The number of the first item for a partner, above `tried`.
pub(crate) fn next_number<S: Alter>(
    conn: &mut Connection<S>,
    what: Sendable,
    partner: &Name<25>,
    tried: u64,
) -> Result<Option<u64>, OfficeFault>
    requires { tried < 2 ^ 63 }
    ensures looks { OnlyLooks S.Store conn.old conn.new result }
    ensures answer { TellsStored S.Store (λ r no. no ≡ next_number r what partner.now tried) conn.old conn.new result }
    ensures small { IfOk result (λ found. IfSome found (λ no. no < 2 ^ 63)) }
    ensures told { IfErr result (HasCause S.Store conn.old conn.new) }
{
    first_number(
        conn,
        next_text(what),
        &[
            ValueRef::Int(number(tried)),
            ValueRef::Text(partner.octets()),
        ],
    )
}
