//! Outgoing files and the responses that partners sent.

ghost use Rattle.std.specs.Prelude.{◌≡◌, Some};
ghost use Rattle.std.specs.Option.{option_map};
ghost use Rattle.oftp_audit.specs.Losses.{lost_of_outgoing, lost_of_received, unsound_in_outgoing, unsound_in_received};

use crate::loss::{Loss, unless};
use crate::rows::allows;
use crate::said::may_say;
use crate::states::may_become;
use oftp_register::{OutgoingEntry, ReceivedResponse};
use oftp_vfile::MOST_ROWS;

// What is lost of an outgoing file that is still there.
fn outgoing_kept(older: &OutgoingEntry, newer: &OutgoingEntry) -> [Option<Loss>; 6]
    ensures { result ≡ lost_of_outgoing older.now (Some newer.now) }
{
    let texts = older.description.as_str() == newer.description.as_str();
    [
        unless(older.identity.is(&newer.identity), Loss::Identity),
        unless(may_become(older.state, newer.state), Loss::State),
        unless(older.format == newer.format, Loss::Format),
        unless(older.longest == newer.longest, Loss::Longest),
        unless(texts, Loss::Description),
        unless(older.rows == newer.rows, Loss::Count),
    ]
}

/// What is lost of an outgoing file in a newer register, where the file with the same number is the second, if there is one. Each place has
/// one kind of loss, if it is lost. Its rows are compared by [`lost_of_row`](crate::lost_of_row).
pub fn lost_of_outgoing(older: &OutgoingEntry, newer: Option<&OutgoingEntry>) -> [Option<Loss>; 6]
    ensures { result ≡ lost_of_outgoing older.now (option_map (λ y. y.now) newer.entry) }
{
    match newer {
        Some(newer) => outgoing_kept(older, newer),
        None => [Some(Loss::Missing), None, None, None, None, None],
    }
}

// What is lost of a received response that is still there.
fn received_kept(older: &ReceivedResponse, newer: &ReceivedResponse) -> [Option<Loss>; 5]
    ensures { result ≡ lost_of_received older.now (Some newer.now) }
{
    [
        unless(older.kind == newer.kind, Loss::Kind),
        unless(older.identity.is(&newer.identity), Loss::Identity),
        unless(older.reason.get() == newer.reason.get(), Loss::Reason),
        unless(older.creator.is(&newer.creator), Loss::Creator),
        unless(older.text.as_str() == newer.text.as_str(), Loss::Words),
    ]
}

/// What is lost of a response that a partner sent. The second is the one with the same number in the newer register, if there is one.
pub fn lost_of_received(
    older: &ReceivedResponse,
    newer: Option<&ReceivedResponse>,
) -> [Option<Loss>; 5]
    ensures { result ≡ lost_of_received older.now (option_map (λ y. y.now) newer.entry) }
{
    match newer {
        Some(newer) => received_kept(older, newer),
        None => [Some(Loss::Missing), None, None, None, None],
    }
}

/// What is unsound in an outgoing file, apart from its rows, which [`unsound_in_row`](crate::unsound_in_row) tells one by one.
pub fn unsound_in_outgoing(file: &OutgoingEntry) -> [Option<Loss>; 3]
    ensures { result ≡ unsound_in_outgoing file.now }
{
    [
        unless(allows(file.format, file.longest), Loss::UnfitLongest),
        unless(file.rows <= MOST_ROWS as u64, Loss::UnfitCount),
        unless(file.mark <= file.rows, Loss::UnfitMark),
    ]
}

/// What is unsound in a response that a partner sent.
pub fn unsound_in_received(response: &ReceivedResponse) -> Option<Loss>
    ensures { result ≡ unsound_in_received response.now }
{
    let creator = response.creator.octets();
    unless(
        may_say(
            response.kind,
            response.reason,
            creator,
            response.text.as_str(),
        ),
        Loss::UnfitWords,
    )
}
