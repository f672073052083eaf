//! Which states may follow others, so that no answer of a partner is lost.

ghost use Rattle.std.specs.Prelude.{◌≡◌, not};
ghost use Rattle.oftp_audit.specs.Evidence.{may_become, may_dispatch, was_delivered, was_handed, was_refused, was_returned};
ghost use Rattle.oftp_audit.specs.Losses.{is_open, may_come};

use oftp_register::{Dispatch, IncomingState, OutgoingState};
use oftp_wire::Count;

/// Whether a file is incomplete.
pub(crate) fn is_open(state: IncomingState) -> bool
    ensures { result ≡ is_open state }
{
    match state {
        IncomingState::Open => true,
        IncomingState::Whole => false,
    }
}

/// Whether an incoming file of one state may have another later.
pub(crate) fn may_come(older: IncomingState, newer: IncomingState) -> bool
    ensures { result ≡ may_come older newer }
{
    match (older, newer) {
        (IncomingState::Open, _) | (IncomingState::Whole, IncomingState::Whole) => true,
        (IncomingState::Whole, IncomingState::Open) => false,
    }
}

/// Whether an issued response that was sent, or is due, may be so later.
pub(crate) fn may_dispatch(older: Dispatch, newer: Dispatch) -> bool
    ensures { result ≡ may_dispatch older newer }
{
    match (older, newer) {
        (Dispatch::Due, _) | (Dispatch::Sent, Dispatch::Sent) => true,
        (Dispatch::Sent, Dispatch::Due) => false,
    }
}

// Whether a file was handed over, and perhaps answered then.
fn was_handed(state: OutgoingState) -> bool
    ensures { result ≡ was_handed state }
{
    match state {
        OutgoingState::Handed | OutgoingState::Delivered | OutgoingState::Returned => true,
        OutgoingState::Waiting | OutgoingState::Closing | OutgoingState::Refused(_) => false,
    }
}

// Whether the partner refused a file with this reason.
fn was_refused(reason: Count<2>, state: OutgoingState) -> bool
    ensures { result ≡ was_refused reason state }
{
    match state {
        OutgoingState::Refused(other) => reason.get() == other.get(),
        OutgoingState::Waiting
        | OutgoingState::Closing
        | OutgoingState::Handed
        | OutgoingState::Delivered
        | OutgoingState::Returned => false,
    }
}

// Whether an End-to-End Response was received.
fn was_delivered(state: OutgoingState) -> bool
    ensures { result ≡ was_delivered state }
{
    match state {
        OutgoingState::Delivered => true,
        OutgoingState::Waiting
        | OutgoingState::Closing
        | OutgoingState::Handed
        | OutgoingState::Refused(_)
        | OutgoingState::Returned => false,
    }
}

// Whether a Negative End Response was received.
fn was_returned(state: OutgoingState) -> bool
    ensures { result ≡ was_returned state }
{
    match state {
        OutgoingState::Returned => true,
        OutgoingState::Waiting
        | OutgoingState::Closing
        | OutgoingState::Handed
        | OutgoingState::Refused(_)
        | OutgoingState::Delivered => false,
    }
}

/// Whether an outgoing file of one state may come to another, by any number of changes.
pub(crate) fn may_become(older: OutgoingState, newer: OutgoingState) -> bool
    ensures { result ≡ may_become older newer }
{
    match older {
        OutgoingState::Waiting | OutgoingState::Closing => true,
        OutgoingState::Handed => was_handed(newer),
        OutgoingState::Refused(reason) => was_refused(reason, newer),
        OutgoingState::Delivered => was_delivered(newer),
        OutgoingState::Returned => was_returned(newer),
    }
}
