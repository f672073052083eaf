//! How the files of a register stand, and what the end of a session is counted as.

ghost use Rattle.std.specs.Prelude.{◌≡◌};
ghost use Rattle.oftp_requests.specs.Standings.{counted_as, ending_of, reason_of, standing_in, standing_out};

use crate::ended::GONE;
use oftp_engine::End;
use oftp_listing::name_text;
use oftp_outcomes::{Fault, Trouble, Way};
use oftp_register::{Dispatch, Identity, IncomingEntry, IncomingState, Office, OutgoingState};
use oftp_status::{Ending, Standing, Subject, Tallies, moment_of};
use oftp_wire::Count;
use std::alloc::{AllocError, Global};

/// How an incoming file stands.
pub fn standing_in(entry: &IncomingEntry) -> Standing
    ensures { result ≡ standing_in entry.now }
{
    match (entry.state, &entry.response) {
        (IncomingState::Open, _) => Standing::Coming,
        (IncomingState::Whole, None) => Standing::Whole,
        (IncomingState::Whole, Some(response)) => match response.dispatch {
            Dispatch::Due => Standing::Due,
            Dispatch::Sent => Standing::Answered,
        },
    }
}

/// How an outgoing file in this state stands.
pub fn standing_out(state: OutgoingState) -> Standing
    ensures { result ≡ standing_out state }
{
    match state {
        OutgoingState::Waiting => Standing::Waiting,
        OutgoingState::Closing => Standing::Closing,
        OutgoingState::Handed => Standing::Handed,
        OutgoingState::Refused(_) => Standing::Refused,
        OutgoingState::Delivered => Standing::Delivered,
        OutgoingState::Returned => Standing::Returned,
    }
}

/// The reason that ESID has for what no other one says (RFC 5024, section 5.3.11).
const UNSPECIFIED: u64 = 99;

/// What the end of a session is counted as.
fn ending_of(ended: &Result<End, Trouble>) -> Ending
    ensures { result ≡ ending_of ended.now }
{
    match ended {
        Ok(End::Own(reason)) => Ending::Own(reason.number()),
        Ok(End::Partner(reason)) => Ending::Partner(*reason),
        Ok(End::Input) => Ending::Input,
        Err(_) => Ending::Failed,
    }
}

/// Why a caller wasn't let in: the reason of the ESID, or 99 where there was none.
fn reason_of(ended: &Result<End, Trouble>) -> Count<2>
    ensures { result ≡ reason_of ended.now }
{
    match ended {
        Ok(End::Own(reason)) => reason.number(),
        Ok(End::Partner(reason)) => *reason,
        Ok(End::Input) | Err(_) => Count::new(UNSPECIFIED),
    }
}

/// Whose connection it is.
#[derive(Clone, Copy)]
pub enum Whose {
    /// That of a partner, whose code is known.
    Partner,
    /// That of a caller who wasn't let in.
    Stranger,
}

/// What the end of a connection is counted as.
#[derive(Clone, Copy)]
pub enum Counting {
    /// A session that ended like this.
    Session(Ending),
    /// A caller that wasn't let in, for this reason of ESID.
    NotLetIn(Count<2>),
    /// A call that didn't connect.
    NotReached,
}

/// What the end of a connection is counted as, which this side called.
pub fn counted_as(whose: Whose, way: Way, ended: &Result<End, Trouble>) -> Counting
    ensures { result ≡ counted_as whose way ended.now }
{
    match (whose, way, ended) {
        (Whose::Stranger, _, _) => Counting::NotLetIn(reason_of(ended)),
        (Whose::Partner, Way::Out, Err(Trouble::OfJob(Fault::Socket))) => Counting::NotReached,
        (Whose::Partner, _, _) => Counting::Session(ending_of(ended)),
    }
}

/// Counts a file, at the moment that its stamp names.
fn count(
    alloc: Global,
    code: &str,
    standing: Standing,
    identity: &Identity,
    files: &mut Tallies,
) -> Result<(), AllocError> {
    let partner = String::from_str(alloc, code)?;
    let moment = moment_of(identity.date.octets(), identity.time.octets());
    files.note(Subject::File { partner, standing }, moment)
}

/// The files of a register by partner and by how they stand, with the moments of their stamps.
///
/// # Errors
/// [`Fault::Run`] if the office failed; [`Fault::MEMORY`].
pub fn files_in<O: Office>(alloc: Global, office: &mut O) -> Result<Tallies, Fault> {
    let mut files = Tallies::new(alloc);
    count_incoming(alloc, office, &mut files)?;
    count_outgoing(alloc, office, &mut files)?;
    Ok(files)
}

/// Counts the incoming files.
fn count_incoming<O: Office>(
    alloc: Global,
    office: &mut O,
    files: &mut Tallies,
) -> Result<(), Fault> {
    let Ok(entries) = office.list_in() else {
        return Err(GONE);
    };
    for entry in &entries {
        let identity = &entry.identity;
        count(
            alloc,
            name_text(&identity.originator),
            standing_in(entry),
            identity,
            files,
        )?;
    }
    Ok(())
}

/// Counts the outgoing files.
fn count_outgoing<O: Office>(
    alloc: Global,
    office: &mut O,
    files: &mut Tallies,
) -> Result<(), Fault> {
    let Ok(entries) = office.list_out() else {
        return Err(GONE);
    };
    for entry in &entries {
        let identity = &entry.identity;
        let standing = standing_out(entry.state);
        count(
            alloc,
            name_text(&identity.destination),
            standing,
            identity,
            files,
        )?;
    }
    Ok(())
}
