//! Incoming files and the responses to them.

ghost use Rattle.std.specs.Prelude.{◌≡◌, Some};
ghost use Rattle.std.specs.Option.{option_map};
ghost use Rattle.oftp_audit.specs.Losses.{lost_of_incoming, lost_of_issued, unsound_in_incoming, unsound_in_issued};

use crate::loss::{Loss, unless};
use crate::rows::allows;
use crate::said::may_say;
use crate::states::{is_open, may_come, may_dispatch};
use oftp_register::{IncomingEntry, IssuedResponse};
use oftp_vfile::MOST_ROWS;

// What is lost of an incoming file that is still there.
fn incoming_kept(older: &IncomingEntry, newer: &IncomingEntry) -> [Option<Loss>; 6]
    ensures { result ≡ lost_of_incoming older.now (Some newer.now) }
{
    let open = is_open(older.state);
    let texts = older.description.as_str() == newer.description.as_str();
    [
        unless(older.identity.is(&newer.identity), Loss::Identity),
        unless(may_come(older.state, newer.state), Loss::State),
        unless(open || older.format == newer.format, Loss::Format),
        unless(open || older.longest == newer.longest, Loss::Longest),
        unless(open || texts, Loss::Description),
        unless(open || older.rows == newer.rows, Loss::Count),
    ]
}

/// What is lost of an incoming file in a newer register, where the file with the same number is the second, if there is one. Each place has
/// one kind of loss, if it is lost. Its rows are compared by [`lost_of_row`](crate::lost_of_row) if it is whole, and its response by
/// [`lost_of_issued`].
pub fn lost_of_incoming(older: &IncomingEntry, newer: Option<&IncomingEntry>) -> [Option<Loss>; 6]
    ensures { result ≡ lost_of_incoming older.now (option_map (λ y. y.now) newer.entry) }
{
    match newer {
        Some(newer) => incoming_kept(older, newer),
        None => [Some(Loss::Missing), None, None, None, None, None],
    }
}

// What is lost of a response that is still there.
fn issued_kept(older: &IssuedResponse, newer: &IssuedResponse) -> [Option<Loss>; 4]
    ensures { result ≡ lost_of_issued older.now (Some newer.now) }
{
    [
        unless(older.kind == newer.kind, Loss::Kind),
        unless(older.reason.get() == newer.reason.get(), Loss::Reason),
        unless(older.text.as_str() == newer.text.as_str(), Loss::Words),
        unless(may_dispatch(older.dispatch, newer.dispatch), Loss::Dispatch),
    ]
}

/// What is lost of a response that this station issued. The second is the response to the same file in the newer register, if there is one.
pub fn lost_of_issued(older: &IssuedResponse, newer: Option<&IssuedResponse>) -> [Option<Loss>; 4]
    ensures { result ≡ lost_of_issued older.now (option_map (λ y. y.now) newer.entry) }
{
    match newer {
        Some(newer) => issued_kept(older, newer),
        None => [Some(Loss::Missing), None, None, None],
    }
}

/// What is unsound in an incoming file, apart from its rows, which [`unsound_in_row`](crate::unsound_in_row) tells one by one.
pub fn unsound_in_incoming(file: &IncomingEntry) -> [Option<Loss>; 3]
    ensures { result ≡ unsound_in_incoming file.now }
{
    let is_early = is_open(file.state) && file.response.is_some();
    [
        unless(allows(file.format, file.longest), Loss::UnfitLongest),
        unless(file.rows <= MOST_ROWS as u64, Loss::UnfitCount),
        unless(!is_early, Loss::UnfitResponse),
    ]
}

/// What is unsound in a response that this station issued.
pub fn unsound_in_issued(response: &IssuedResponse) -> Option<Loss>
    ensures { result ≡ unsound_in_issued response.now }
{
    unless(
        may_say(response.kind, response.reason, &[], response.text.as_str()),
        Loss::UnfitWords,
    )
}
