//! Files and received responses by identity.

ghost use Rattle.std.specs.Prelude.{◌≡◌, ◌<◌, ◌^◌, IfOk, IfSome, IfErr};
ghost use Rattle.sqlite.specs.Values.{bound};
ghost use Rattle.oftp_register.specs.Register.{has_received};
ghost use Rattle.oftp_tables.specs.Tables.{identity_values};
ghost use Rattle.oftp_store.specs.Numbers.{has_filed_text, file_number, file_number_text};
ghost use Rattle.oftp_store.specs.Tells.{OnlyLooks, TellsStored};
ghost use Rattle.oftp_store.specs.Causes.{HasCause};

use super::first_row::{first_number, first_row};
use oftp_register::{Identity, OfficeFault, ResponseKind, Side};
use sqlite::types::ValueRef;
use sqlite::{Alter, Connection};

// The SQL that selects the number of the file of an identity.
fn file_number_text(side: Side) -> &'static str
    ensures { result.now ≡ file_number_text side }
{
    match side {
        Side::Incoming =>
            "SELECT no FROM in_file WHERE dataset = ?1 AND date = ?2 AND time = ?3 AND originator = ?4 AND destination = ?5 ORDER BY no LIMIT 1",
        Side::Outgoing =>
            "SELECT no FROM out_file WHERE dataset = ?1 AND date = ?2 AND time = ?3 AND originator = ?4 AND destination = ?5 ORDER BY no LIMIT 1",
    }
}

// The SQL that selects the responses of a kind to the file of an identity.
fn has_filed_text(kind: ResponseKind) -> &'static str
    ensures { result.now ≡ has_filed_text kind }
{
    match kind {
        ResponseKind::EndResponse =>
            "SELECT no FROM received WHERE kind = 'EERP' AND dataset = ?1 AND date = ?2 AND time = ?3 AND originator = ?4 AND destination = ?5 ORDER BY no LIMIT 1",
        ResponseKind::NegativeEndResponse =>
            "SELECT no FROM received WHERE kind = 'NERP' AND dataset = ?1 AND date = ?2 AND time = ?3 AND originator = ?4 AND destination = ?5 ORDER BY no LIMIT 1",
    }
}

// The parameters of an identity.
fn identity_values(identity: &Identity) -> [ValueRef<'_>; 5]
    ensures { bound result ≡ identity_values identity.now }
{
    [
        ValueRef::Text(identity.dataset.octets()),
        ValueRef::Text(identity.date.octets()),
        ValueRef::Text(identity.time.octets()),
        ValueRef::Text(identity.originator.octets()),
        ValueRef::Text(identity.destination.octets()),
    ]
}

/// The number of the file with this identity.
pub(crate) fn file_number<S: Alter>(
    conn: &mut Connection<S>,
    side: Side,
    identity: &Identity,
) -> Result<Option<u64>, OfficeFault>
    ensures looks { OnlyLooks S.Store conn.old conn.new result }
    ensures answer { TellsStored S.Store (λ r no. no ≡ file_number r side identity.now) conn.old conn.new result }
    ensures small { IfOk result (λ found. IfSome found (λ no. no < 2 ^ 63)) }
    ensures told { IfErr result (HasCause S.Store conn.old conn.new) }
{
    first_number(conn, file_number_text(side), &identity_values(identity))
}

/// Whether a response of this kind was received for the file with this identity.
pub(crate) fn has_filed<S: Alter>(
    conn: &mut Connection<S>,
    kind: ResponseKind,
    identity: &Identity,
) -> Result<bool, OfficeFault>
    ensures looks { OnlyLooks S.Store conn.old conn.new result }
    ensures answer { TellsStored S.Store (λ r there. there ≡ has_received r kind identity.now) conn.old conn.new result }
    ensures told { IfErr result (HasCause S.Store conn.old conn.new) }
{
    let first = first_row(conn, has_filed_text(kind), &identity_values(identity))?;
    Ok(first.is_some())
}
