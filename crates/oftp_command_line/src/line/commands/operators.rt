//! The commands `submit`, `resend`, `release` and `refuse`, which are operator's calls.
#![tactic(auto, using(crate::proofs::Values::has_text), unfolding(crate::specs::OperatorLines::submit_app, crate::specs::OperatorLines::release_app, crate::specs::OperatorLines::refuse_app))]

ghost use Rattle.std.specs.Prelude.{◌≡◌, IfErr, IfOk, None, Some, codes, true};
ghost use Rattle.oftp_command_line.specs.Arguments.{HasValues, values_in};
ghost use Rattle.oftp_command_line.specs.Fault.{is_bad};
ghost use Rattle.oftp_command_line.specs.OperatorLines.{refuse_app, refuse_said, refuse_with, release_app, release_said, release_with, resend_app, resend_said, resend_with, submit_app, submit_in, submit_said};

use super::files::{Files, files_read};
use crate::line::LineFault;
use crate::line::values::{choice, given, number, value_of};
use clap::ArgMatches;
use oftp_vfile::Format;
use std::alloc::Global;

/// The formats, by their letters for `submit` and `offer`.
pub(super) const FORMATS: &[(&str, Format)] = &[
    ("F", Format::Fixed),
    ("V", Format::Variable),
    ("U", Format::Unstructured),
    ("T", Format::Text),
];

/// The command `submit`, which submits a file to be sent to a partner.
#[derive(Clone, Copy)]
pub struct Submit<'a> {
    /// The database and the book.
    pub files: Files<'a>,
    /// The virtual file's dataset name.
    pub dataset: &'a str,
    /// Its date, as CCYYMMDD. `None` is today's.
    pub date: Option<&'a str>,
    /// Its time, as HHMMSScccc. `None` is that of the moment.
    pub time: Option<&'a str>,
    /// The code of the partner that it goes to.
    pub to: &'a str,
    /// The format of its records.
    pub format: Format,
    /// Its longest record in octets, 0 to 99,999.
    pub longest: u32,
    /// Its description.
    pub description: &'a str,
    /// The file with its local form.
    pub file: &'a str,
}

/// Reads the values of the options and words of `submit`.
pub(super) fn submit_read<'a>(
    alloc: Global,
    matches: &ArgMatches<'a>,
) -> Result<Submit<'a>, LineFault>
    requires { HasValues submit_app (values_in matches.now) }
    ensures ok { IfOk result (λ s. submit_in (values_in matches.now) ≡ Some (submit_said s)) }
    ensures bad { IfErr result (λ e. is_bad e ≡ true → submit_in (values_in matches.now) ≡ None) }
{
    let format = choice(alloc, matches, "format", "--format <FORMAT>", FORMATS)?;
    Ok(Submit {
        files: files_read(matches),
        dataset: given(matches, "dataset"),
        date: value_of(matches, "date"),
        time: value_of(matches, "time"),
        to: given(matches, "to"),
        format,
        longest: number(matches, "longest") as u32,
        description: given(matches, "description"),
        file: given(matches, "file"),
    })
}

/// The command `resend`, which submits the content of an outgoing file again.
#[derive(Clone, Copy)]
pub struct Resend<'a> {
    /// The database and the book.
    pub files: Files<'a>,
    /// The date of the new file, as CCYYMMDD. `None` is today's.
    pub date: Option<&'a str>,
    /// Its time, as HHMMSScccc. `None` is that of the moment.
    pub time: Option<&'a str>,
    /// The outgoing file's number, 1 to 9,999,999.
    pub no: u64,
}

/// Reads the values of the options and words of `resend`.
#[tactic(auto, using(crate::proofs::Values::has_text), unfolding(crate::specs::OperatorLines::resend_app))]
pub(super) fn resend_read<'a>(matches: &ArgMatches<'a>) -> Resend<'a>
    requires { HasValues resend_app (values_in matches.now) }
    ensures { resend_said result ≡ resend_with (values_in matches.now) }
{
    let (date, time) = (value_of(matches, "date"), value_of(matches, "time"));
    Resend {
        files: files_read(matches),
        date,
        time,
        no: number(matches, "no"),
    }
}

/// The command `release`, which issues the End-to-End Response of an incoming file.
#[derive(Clone, Copy)]
pub struct Release<'a> {
    /// The database and the book.
    pub files: Files<'a>,
    /// The incoming file's number, 1 to 9,999,999.
    pub no: u64,
}

/// Reads the values of the options and words of `release`.
pub(super) fn release_read<'a>(matches: &ArgMatches<'a>) -> Release<'a>
    requires { HasValues release_app (values_in matches.now) }
    ensures { release_said result ≡ release_with (values_in matches.now) }
{
    Release {
        files: files_read(matches),
        no: number(matches, "no"),
    }
}

/// The command `refuse`, which issues the Negative End Response of an incoming file.
#[derive(Clone, Copy)]
pub struct Refuse<'a> {
    /// The database and the book.
    pub files: Files<'a>,
    /// The incoming file's number, 1 to 9,999,999.
    pub no: u64,
    /// The reason, 0 to 99.
    pub reason: u64,
    /// The reason as text.
    pub text: &'a str,
}

/// Reads the values of the options and words of `refuse`.
pub(super) fn refuse_read<'a>(matches: &ArgMatches<'a>) -> Refuse<'a>
    requires { HasValues refuse_app (values_in matches.now) }
    ensures { refuse_said result ≡ refuse_with (values_in matches.now) }
{
    Refuse {
        files: files_read(matches),
        no: number(matches, "no"),
        reason: number(matches, "reason"),
        text: given(matches, "text"),
    }
}
