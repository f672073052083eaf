//! The response that a register has to an outgoing file.

ghost use Rattle.std.specs.Prelude.{◌≡◌, find};
ghost use Rattle.std.specs.Option.{option_map};
ghost use Rattle.oftp_evidence.specs.Answers.{is_to, kind_told, response_in};

use oftp_register::{Identity, OutgoingEntry, OutgoingState, ReceivedEntry, ResponseKind};

/// The kind of the response to an outgoing file in this state, if that says that one was received.
fn kind_told(state: OutgoingState) -> Option<ResponseKind>
    ensures { result ≡ kind_told state }
{
    match state {
        OutgoingState::Delivered => Some(ResponseKind::EndResponse),
        OutgoingState::Returned => Some(ResponseKind::NegativeEndResponse),
        OutgoingState::Waiting
        | OutgoingState::Closing
        | OutgoingState::Handed
        | OutgoingState::Refused(_) => None,
    }
}

/// Whether it is a response of a kind to the file with an identity.
fn is_to(entry: &ReceivedEntry, kind: ResponseKind, identity: &Identity) -> bool
    ensures { result ≡ is_to kind identity.now entry.now }
{
    entry.response.kind == kind && entry.response.identity.is(identity)
}

/// The first response of a kind to the file with an identity.
fn first_to<'r>(
    received: &'r [ReceivedEntry],
    kind: ResponseKind,
    identity: &Identity,
) -> Option<&'r ReceivedEntry>
    ensures { option_map (λ entry. entry.now) result ≡ find (is_to kind identity.now) received.now }
{
    received.iter().find(|entry| is_to(entry, kind, identity))
}

/// The response to an outgoing file among those that were received: the first one for it of the kind that its state tells. A file that is neither
/// delivered nor returned has none.
pub fn response_in<'r>(
    received: &'r [ReceivedEntry],
    file: &OutgoingEntry,
) -> Option<&'r ReceivedEntry>
    ensures { option_map (λ entry. entry.now) result ≡ response_in received.now file.now }
{
    match kind_told(file.state) {
        Some(kind) => first_to(received, kind, &file.identity),
        None => None,
    }
}
