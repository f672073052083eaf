//! Files by identity, and the next file for a partner.

ghost use Rattle.std.specs.Prelude.{◌≡◌, ◌<◌, ◌^◌, IfOk, IfSome, IfErr};
ghost use Rattle.oftp_register.specs.LookUps.{IsIncomingWithin, IsOutgoingWithin, look_in, look_out, next_file};
ghost use Rattle.oftp_store.specs.Tells.{OnlyLooks, Tells, TellsStored};
ghost use Rattle.oftp_store.specs.Causes.{HasCause};

use super::file_by_number::{find_incoming_file, find_outgoing_file};
use super::identity::file_number;
use super::next_number::{Sendable, next_number};
use oftp_register::{Identity, IncomingEntry, Name, OfficeFault, OutgoingEntry, Side};
use sqlite::{Alter, Connection};
use std::alloc::Global;

/// The incoming file with this identity.
pub(crate) fn look_in<S: Alter>(
    alloc: Global,
    conn: &mut Connection<S>,
    identity: &Identity,
) -> Result<Option<IncomingEntry>, OfficeFault>
    ensures looks { OnlyLooks S.Store conn.old conn.new result }
    ensures answer { Tells S.Store (λ r found. found ≡ look_in r identity.now) conn.old conn.new result }
    ensures within { IfOk result (λ found. IfSome found IsIncomingWithin) }
    ensures told { IfErr result (HasCause S.Store conn.old conn.new) }
{
    match file_number(conn, Side::Incoming, identity)? {
        Some(no) => find_incoming_file(alloc, conn, no),
        None => Ok(None),
    }
}

/// The outgoing file with this identity.
pub(crate) fn look_out<S: Alter>(
    alloc: Global,
    conn: &mut Connection<S>,
    identity: &Identity,
) -> Result<Option<OutgoingEntry>, OfficeFault>
    ensures looks { OnlyLooks S.Store conn.old conn.new result }
    ensures answer { TellsStored S.Store (λ r found. found ≡ look_out r identity.now) conn.old conn.new result }
    ensures within { IfOk result (λ found. IfSome found IsOutgoingWithin) }
    ensures told { IfErr result (HasCause S.Store conn.old conn.new) }
{
    match file_number(conn, Side::Outgoing, identity)? {
        Some(no) => find_outgoing_file(alloc, conn, no),
        None => Ok(None),
    }
}

/// The first file for a partner that is waiting or closing, with a number above `tried`.
pub(crate) fn next_file<S: Alter>(
    alloc: Global,
    conn: &mut Connection<S>,
    partner: &Name<25>,
    tried: u64,
) -> Result<Option<OutgoingEntry>, OfficeFault>
    requires { tried < 2 ^ 63 }
    ensures looks { OnlyLooks S.Store conn.old conn.new result }
    ensures answer { TellsStored S.Store (λ r found. found ≡ next_file r partner.now tried) conn.old conn.new result }
    ensures within { IfOk result (λ found. IfSome found IsOutgoingWithin) }
    ensures told { IfErr result (HasCause S.Store conn.old conn.new) }
{
    match next_number(conn, Sendable::File, partner, tried)? {
        Some(no) => find_outgoing_file(alloc, conn, no),
        None => Ok(None),
    }
}
