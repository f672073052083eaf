//! An outgoing file that is submitted again, under another date and time.

ghost use Rattle.std.specs.Prelude.{◌≡◌, IfErr};
ghost use Rattle.oftp_register.specs.LookUps.{out_by_no};
ghost use Rattle.oftp_listing.specs.Texts.{Asks};
ghost use Rattle.oftp_requests.specs.LookedUp.{IsLookedUp};
ghost use Rattle.oftp_requests.specs.Resent.{IsAgain, sent_again};

use crate::asking::operate;
use crate::outgoing::write_outgoing;
use oftp_engine::{Operator, Refusal, RunFault, Submission};
use oftp_life::Life;
use oftp_listing::name_text;
use oftp_outcomes::{Fault, Outcome};
use oftp_partners::Book;
use oftp_register::{Office, OutgoingEntry, OutgoingState};
use std::alloc::Global;

/// What is submitted again.
#[derive(Clone, Copy)]
pub struct Again<'a> {
    /// The number of the outgoing file.
    pub no: u64,
    /// The date stamp of the new file, CCYYMMDD.
    pub date: &'a str,
    /// Its time stamp, HHMMSScccc.
    pub time: &'a str,
}

/// Submits the content of an outgoing file again, under another date and time. A file that is still to go is refused with
/// [`Refusal::State`], and an unknown number with [`Refusal::Unknown`]; else it is refused as a submission is.
///
/// # Errors
/// Those of [`operate`].
pub fn resend<O: Office>(
    alloc: Global,
    life: &mut Life<O>,
    book: &Book,
    again: &Again<'_>,
) -> Result<Outcome, Fault> {
    let entry = match entry_to_resend(life, again.no)? {
        Ok(entry) => entry,
        Err(refusal) => return Ok(Outcome::Refused(refusal)),
    };
    let mut content = Vec::new(alloc);
    write_outgoing(alloc, life, entry.no, &mut content).map_err(Fault::in_memory)?;
    let submission = submission_again(&entry, again.date, again.time, content.as_slice());
    operate(alloc, life, book, &Operator::Submit(submission))
}

/// Looks up the outgoing file with this number that isn't to go any more, or the refusal if there is none.
///
/// # Errors
/// [`Fault::Run`] with [`RunFault::Office`]: the office failed.
fn entry_to_resend<O: Office>(
    office: &mut O,
    no: u64,
) -> Result<Result<OutgoingEntry, Refusal>, Fault>
    ensures finds { IsLookedUp (λ r. sent_again (out_by_no r no)) (O.view office.old) (O.view office.new) result }
    ensures asks { Asks (O.view office.old) (O.view office.new) }
    ensures fails { IfErr result (λ fault. fault ≡ Fault.Run RunFault.Office) }
{
    match office.out_by_no(no) {
        Ok(found) => Ok(sent_again(found)),
        Err(_) => Err(Fault::Run(RunFault::Office)),
    }
}

/// What is submitted again of what is found under a number, or the refusal.
fn sent_again(found: Option<OutgoingEntry>) -> Result<OutgoingEntry, Refusal>
    ensures { result ≡ sent_again found }
{
    let Some(entry) = found else {
        return Err(Refusal::Unknown);
    };
    match entry.state {
        OutgoingState::Waiting | OutgoingState::Closing => Err(Refusal::State),
        OutgoingState::Handed | OutgoingState::Refused(_) => Ok(entry),
        OutgoingState::Delivered | OutgoingState::Returned => Ok(entry),
    }
}

/// The submission of a file's content under this date and time.
fn submission_again<'a>(
    entry: &'a OutgoingEntry,
    date: &'a str,
    time: &'a str,
    content: &'a [u8],
) -> Submission<'a>
    ensures { IsAgain entry.now date.now time.now content.now result }
{
    Submission {
        dataset: name_text(&entry.identity.dataset),
        date,
        time,
        to: name_text(&entry.identity.destination),
        format: entry.format,
        longest: entry.longest,
        description: entry.description.as_str(),
        content,
    }
}
