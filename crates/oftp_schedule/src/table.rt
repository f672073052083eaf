//! The table of connections. Those that wait for the same are in the order in which they do.

ghost use Rattle.std.specs.Prelude.{◌≡◌, ◌++◌, ◌∷◌, [], map, filter, find, count_by, not, IsTrue, OnOk, OnErr};
ghost use Rattle.std.specs.List.{list_any};
ghost use Rattle.oftp_schedule.specs.Rules.{connection_at, is_there, became, owed, hurried, shared, is_other, is_at, is_late, is_ripe, concerns, is_orphan, is_to_tell, orphan_phase, asker_gone, told_phase, goes_on, in_phase, calls, room_left, at_office, in_session, is_between_phase, is_guest_phase, is_query_phase, is_update_phase, is_owed_phase, is_copying_phase, is_wanted_phase, is_connected_phase, is_up_phase, is_arriving_phase};
ghost use Rattle.oftp_schedule.specs.Machine.{earlier, first_due, first_ripe, ripe_time};

use crate::connection::{Asker, Call, Connection, Door, Millis, Phase, Status};
use crate::rules;
use std::alloc::AllocError;

/// The connection with a number.
pub fn at(connections: &[Connection], id: u64) -> Option<Connection>
    ensures { result ≡ connection_at id connections.now }
{
    connections
        .iter()
        .copied()
        .find(|connection| connection.id == id)
}

/// Whether the connection with a number is there.
pub fn is_there(connections: &[Connection], id: u64) -> bool
    ensures { result ≡ is_there id connections.now }
{
    connections.iter().any(|connection| connection.id == id)
}

fn in_phase(connection: Connection, id: u64, phase: Phase) -> Connection
    ensures { result ≡ became id phase connection }
{
    if connection.id == id {
        Connection {
            phase,
            ..connection
        }
    } else {
        connection
    }
}

/// Puts a connection into another phase.
#[tactic(auto, using(std::proofs::lemmas::List::Edits::map_over_more))]
pub fn set_phase(connections: &mut [Connection], id: u64, phase: Phase)
    ensures { connections.new ≡ map (became id phase) connections.old }
{
    for connection in connections.iter_mut() {
        *connection = in_phase(*connection, id, phase);
    }
}

fn owed(connection: Connection) -> Connection
    ensures { result ≡ owed connection }
{
    Connection {
        phase: rules::owed(connection.phase),
        ..connection
    }
}

/// Lets the requests that wait come before the next session.
#[tactic(auto, using(std::proofs::lemmas::List::Edits::map_over_more))]
pub fn owe_all(connections: &mut [Connection])
    ensures { connections.new ≡ map owed connections.old }
{
    for connection in connections.iter_mut() {
        *connection = owed(*connection);
    }
}

fn hurried(connection: Connection, latest: Millis) -> Connection
    ensures { result ≡ hurried latest connection }
{
    Connection {
        phase: rules::hurried(latest, connection.phase),
        ..connection
    }
}

/// Gives the answers that go out no more time than until this moment.
#[tactic(auto, using(std::proofs::lemmas::List::Edits::map_over_more))]
pub fn hurry_all(connections: &mut [Connection], latest: Millis)
    ensures { connections.new ≡ map (hurried latest) connections.old }
{
    for connection in connections.iter_mut() {
        *connection = hurried(*connection, latest);
    }
}

fn shared(connection: Connection, share: u32) -> Connection
    ensures { result ≡ shared share connection }
{
    Connection {
        phase: rules::shared(share, connection.phase),
        ..connection
    }
}

/// Lets a session hear so many octets until the next look-up has its turn.
#[tactic(auto, using(std::proofs::lemmas::List::Edits::map_over_more))]
pub fn share_all(connections: &mut [Connection], share: u32)
    ensures { connections.new ≡ map (shared share) connections.old }
{
    for connection in connections.iter_mut() {
        *connection = shared(*connection, share);
    }
}

/// Removes a connection.
pub fn remove(connections: &mut Vec<Connection>, id: u64)
    ensures { connections.new.items ≡ filter (is_other id) connections.old.items }
{
    connections.retain(|connection| connection.id != id);
}

/// How many connections came through a door.
pub fn count_at(connections: &[Connection], door: Door) -> usize
    ensures { result ≡ count_by (is_at door) connections.now }
{
    connections
        .iter()
        .filter(|connection| rules::same_door(door, connection.door))
        .count()
}

/// The first whose time is over.
pub fn first_late(connections: &[Connection], now: Millis) -> Option<Connection>
    ensures { result ≡ find (is_late now) connections.now }
{
    connections
        .iter()
        .copied()
        .find(|connection| rules::is_over(now, connection.phase))
}

/// The oldest stranger that may be closed for another.
pub fn first_ripe(connections: &[Connection], now: Millis) -> Option<Connection>
    ensures { result ≡ find (is_ripe now) connections.now }
{
    connections
        .iter()
        .copied()
        .find(|connection| rules::is_ripe(now, connection.phase))
}

/// Whether a stranger may be closed for another.
pub fn is_any_ripe(connections: &[Connection], now: Millis) -> bool
    ensures { result ≡ list_any (is_ripe now) connections.now }
{
    connections
        .iter()
        .any(|connection| rules::is_ripe(now, connection.phase))
}

/// The first that the end of the station concerns.
pub fn first_dismissed(connections: &[Connection], status: Status) -> Option<Connection>
    ensures { result ≡ find (concerns status) connections.now }
{
    connections
        .iter()
        .copied()
        .find(|connection| rules::is_dismissed(status, connection.phase))
}

/// Whether the command of a call is gone.
fn is_asker_gone(connections: &[Connection], call: Call) -> bool
    ensures { result ≡ asker_gone connections.now call.asker }
{
    match call.asker {
        Asker::ByClock => false,
        Asker::By(id) => !is_there(connections, id),
    }
}

/// Whether a phase is that of a call without a session whose command is gone.
fn is_orphan(connections: &[Connection], phase: Phase) -> bool
    ensures { result ≡ orphan_phase connections.now phase }
{
    match phase {
        Phase::Wanted(call) | Phase::Dialing(call, _) | Phase::Connected(call, _) => {
            is_asker_gone(connections, call)
        }
        _ => false,
    }
}

/// The first call without a session whose command is gone.
pub fn first_orphan(connections: &[Connection]) -> Option<Connection>
    ensures { result ≡ find (is_orphan connections.now) connections.now }
{
    connections
        .iter()
        .copied()
        .find(|connection| is_orphan(connections, connection.phase))
}

/// Whether the call with a number goes on: only its last octets go out else.
fn goes_on(connections: &[Connection], id: u64) -> bool
    ensures { result ≡ list_any (goes_on id) connections.now }
{
    connections.iter().any(|connection| connection.id == id && !rules::is_parting(connection.phase))
}

/// Whether a phase is that of a command whose call is over.
fn is_to_tell(connections: &[Connection], phase: Phase) -> bool
    ensures { result ≡ told_phase connections.now phase }
{
    match phase {
        Phase::Calling(id) => !goes_on(connections, id),
        _ => false,
    }
}

/// The first command whose call is over.
pub fn first_to_tell(connections: &[Connection]) -> Option<Connection>
    ensures { result ≡ find (is_to_tell connections.now) connections.now }
{
    connections
        .iter()
        .copied()
        .find(|connection| is_to_tell(connections, connection.phase))
}

/// The session that is between two steps.
pub fn session(connections: &[Connection]) -> Option<Connection>
    ensures { result ≡ find (in_phase is_between_phase) connections.now }
{
    connections
        .iter()
        .copied()
        .find(|connection| rules::is_between(connection.phase))
}

/// The first guest.
pub fn first_guest(connections: &[Connection]) -> Option<Connection>
    ensures { result ≡ find (in_phase is_guest_phase) connections.now }
{
    connections
        .iter()
        .copied()
        .find(|connection| rules::is_guest(connection.phase))
}

/// The first look-up that waits.
pub fn first_query(connections: &[Connection]) -> Option<Connection>
    ensures { result ≡ find (in_phase is_query_phase) connections.now }
{
    connections
        .iter()
        .copied()
        .find(|connection| rules::is_query(connection.phase))
}

/// The first change or backup that waits.
pub fn first_update(connections: &[Connection]) -> Option<Connection>
    ensures { result ≡ find (in_phase is_update_phase) connections.now }
{
    connections
        .iter()
        .copied()
        .find(|connection| rules::is_update(connection.phase))
}

/// The first change or backup that came within the last session.
pub fn first_owed(connections: &[Connection]) -> Option<Connection>
    ensures { result ≡ find (in_phase is_owed_phase) connections.now }
{
    connections
        .iter()
        .copied()
        .find(|connection| rules::is_owed(connection.phase))
}

/// The first call that isn't begun.
pub fn first_wanted(connections: &[Connection]) -> Option<Connection>
    ensures { result ≡ find (in_phase is_wanted_phase) connections.now }
{
    connections
        .iter()
        .copied()
        .find(|connection| rules::is_wanted(connection.phase))
}

/// The first call that is connected.
pub fn first_connected(connections: &[Connection]) -> Option<Connection>
    ensures { result ≡ find (in_phase is_connected_phase) connections.now }
{
    connections
        .iter()
        .copied()
        .find(|connection| rules::is_connected(connection.phase))
}

/// Whether a step or a request is with the office.
pub fn is_any_at_office(connections: &[Connection]) -> bool
    ensures { result ≡ list_any (in_phase at_office) connections.now }
{
    connections
        .iter()
        .any(|connection| rules::at_office(connection.phase))
}

/// Whether a session goes on.
pub fn is_any_in_session(connections: &[Connection]) -> bool
    ensures { result ≡ list_any (in_phase in_session) connections.now }
{
    connections
        .iter()
        .any(|connection| rules::in_session(connection.phase))
}

/// Whether a command copies the database's files.
pub fn is_any_copying(connections: &[Connection]) -> bool
    ensures { result ≡ list_any (in_phase is_copying_phase) connections.now }
{
    connections
        .iter()
        .any(|connection| rules::is_copying(connection.phase))
}

/// Whether a call is begun that has no session.
pub fn is_any_up(connections: &[Connection]) -> bool
    ensures { result ≡ list_any (in_phase is_up_phase) connections.now }
{
    connections
        .iter()
        .any(|connection| rules::is_up(connection.phase))
}

/// Whether a guest waits.
pub fn is_any_guest(connections: &[Connection]) -> bool
    ensures { result ≡ list_any (in_phase is_guest_phase) connections.now }
{
    connections
        .iter()
        .any(|connection| rules::is_guest(connection.phase))
}

/// Whether one is being accepted.
pub fn is_any_arriving(connections: &[Connection]) -> bool
    ensures { result ≡ list_any (in_phase is_arriving_phase) connections.now }
{
    connections
        .iter()
        .any(|connection| rules::is_arriving(connection.phase))
}

/// Whether the clock calls the partner with this number.
pub fn is_called_by_clock(connections: &[Connection], number: u32) -> bool
    ensures { result ≡ list_any (calls number) connections.now }
{
    connections
        .iter()
        .any(|connection| rules::calls(number, connection.phase))
}

/// How many octets of answers may still be held, of `most`.
pub fn room_left(connections: &[Connection], most: u64) -> u64
    ensures { result ≡ room_left most connections.now }
{
    let mut left = most;
    for connection in connections {
        left = left.saturating_sub(rules::answer_octets(connection.phase));
    }
    left
}

/// The earlier of two moments.
pub fn earlier(one: Option<Millis>, other: Option<Millis>) -> Option<Millis>
    ensures { result ≡ earlier one other }
{
    match one {
        Some(time) => match other {
            Some(later) => Some(time.min(later)),
            None => one,
        },
        None => other,
    }
}

/// The least of all deadlines.
pub fn first_deadline(connections: &[Connection]) -> Option<Millis>
    ensures { result ≡ first_due connections.now }
{
    let mut first = None;
    for connection in connections {
        first = earlier(first, rules::deadline(connection.phase));
    }
    first
}

/// From when on a stranger may be closed for another, if that is to come.
fn ripe_time(now: Millis, phase: Phase) -> Option<Millis>
    ensures { result ≡ ripe_time now phase }
{
    match phase {
        Phase::Stranger(_, from) if now < from => Some(from),
        _ => None,
    }
}

/// From when on a first stranger may be closed for another, of those moments that are to come.
pub fn first_ripe_time(connections: &[Connection], now: Millis) -> Option<Millis>
    ensures { result ≡ first_ripe now connections.now }
{
    let mut first = None;
    for connection in connections {
        first = earlier(first, ripe_time(now, connection.phase));
    }
    first
}
