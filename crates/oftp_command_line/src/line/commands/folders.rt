//! The commands `collect` and `offer`, which work on a folder of files.
#![tactic(auto, using(crate::proofs::Values::has_text), unfolding(crate::specs::FolderLines::collect_app, crate::specs::FolderLines::offer_app))]

ghost use Rattle.std.specs.Prelude.{◌≡◌, IfErr, IfOk, None, Some, codes, true};
ghost use Rattle.oftp_command_line.specs.Arguments.{HasValues, values_in};
ghost use Rattle.oftp_command_line.specs.Fault.{is_bad};
ghost use Rattle.oftp_command_line.specs.FolderLines.{collect_app, collect_said, collect_with, offer_app, offer_in, offer_said};

use super::files::{Files, files_read};
use super::operators::FORMATS;
use crate::line::LineFault;
use crate::line::values::{choice, given, has_flag, number, value_of};
use clap::ArgMatches;
use oftp_vfile::Format;
use std::alloc::Global;

/// The command `collect`, which writes the incoming files that are whole and have no response to a folder.
#[derive(Clone, Copy)]
pub struct Collect<'a> {
    /// The database and the book.
    pub files: Files<'a>,
    /// The folder to which their local forms are written.
    pub folder: &'a str,
    /// The code of the partner whose files alone are written, if there is one.
    pub from: Option<&'a str>,
    /// The pattern that their dataset names have to match, if there is one.
    pub dataset: Option<&'a str>,
    /// Whether each is released once it is there.
    pub releases: bool,
}

/// Reads the values of the options of `collect`.
pub(super) fn collect_read<'a>(matches: &ArgMatches<'a>) -> Collect<'a>
    requires { HasValues collect_app (values_in matches.now) }
    ensures { collect_said result ≡ collect_with (values_in matches.now) }
{
    Collect {
        files: files_read(matches),
        folder: given(matches, "to"),
        from: value_of(matches, "from"),
        dataset: value_of(matches, "dataset"),
        releases: has_flag(matches, "release"),
    }
}

/// The command `offer`, which submits the files of a folder, to be sent to a partner.
#[derive(Clone, Copy)]
pub struct Offer<'a> {
    /// The database and the book.
    pub files: Files<'a>,
    /// The code of the partner that they go to.
    pub to: &'a str,
    /// The folder with their local forms.
    pub folder: &'a str,
    /// The dataset name of each. `None` is the name of its file.
    pub dataset: Option<&'a str>,
    /// The description of each, unless they are described by the names of their files.
    pub description: &'a str,
    /// Whether each is described by the name of its file.
    pub describes: bool,
    /// The format of their records.
    pub format: Format,
    /// Their longest record in octets, 0 to 99,999.
    pub longest: u32,
}

/// Reads the values of the options of `offer`.
pub(super) fn offer_read<'a>(
    alloc: Global,
    matches: &ArgMatches<'a>,
) -> Result<Offer<'a>, LineFault>
    requires { HasValues offer_app (values_in matches.now) }
    ensures ok { IfOk result (λ o. offer_in (values_in matches.now) ≡ Some (offer_said o)) }
    ensures bad { IfErr result (λ e. is_bad e ≡ true → offer_in (values_in matches.now) ≡ None) }
{
    let format = choice(alloc, matches, "format", "--format <FORMAT>", FORMATS)?;
    Ok(Offer {
        files: files_read(matches),
        to: given(matches, "to"),
        folder: given(matches, "from"),
        dataset: value_of(matches, "dataset"),
        description: given(matches, "description"),
        describes: has_flag(matches, "describe"),
        format,
        longest: number(matches, "longest") as u32,
    })
}
