//! The command `offer`: the files of a folder are submitted, to be sent to a partner.
//!
//! A file is taken first: it is moved to a subfolder, under a name with the date and time that it is given. So after a crash the next call
//! knows under which name the register has it, if it does.

use crate::folders::{
    Folder, INSTEAD, Room, claim_name, is_safe, names_in, own_name_in, path_in, stamps_in,
};
use crate::judging::{FileName, Naming, Offering, offering_of};
use crate::stamps::Moment;
use crate::submitting::{Subfolders, Submitting, TAKEN, tell_left};
use oftp_command_line::Offer;
use oftp_files::file_fault;
use oftp_outcomes::{Carried, Fault, write_line};
use oftp_requests::Backend;
use oftp_wire::X;
use std::alloc::Global;
use std::fs;
use std::io::{ErrorKind, Write};

/// The greatest length of a dataset name.
const MOST_NAME: usize = 26;

/// Takes the files of a folder, and submits all that are taken, in the order of their times. Each gets a line in `out`, also one that can't be
/// moved or read, which stays where it is. Returns whether each was handed in.
///
/// # Errors
/// Those of the backend. [`Fault::File`] if a folder can't be read or synced, or a subfolder is a link or another user's. [`Fault::Run`] if
/// `out` returned an error; [`Fault::MEMORY`]. Taken files stay taken, and the next call continues with them.
pub fn offer<B: Backend + Drop>(
    rt: &HostRuntime,
    line: &Offer<'_>,
    folder: &Folder,
    book: &[u8],
    backend: B,
    out: &mut impl Write,
) -> Result<bool, Fault> {
    let files = offered(rt, line, &folder.room, out)?;
    let claims = claimed(rt, line, &folder.room)?;
    if files.is_empty() && claims.is_empty() {
        return Ok(true);
    }
    let subfolders = Subfolders::made(rt, &folder.room)?;
    let submitting = Submitting::new(rt, line, &subfolders, book, backend);
    take_and_hand_in(rt, &folder.room, submitting, files.as_slice(), claims, out)
}

/// Takes these files, and submits all that are taken. Returns whether each was handed in.
fn take_and_hand_in<B: Backend + Drop>(
    rt: &HostRuntime,
    folder: &Room,
    submitting: Submitting<'_, B>,
    files: &[String],
    claims: Vec<String>,
    out: &mut impl Write,
) -> Result<bool, Fault> {
    let mut submitting = submitting;
    let mut claims = claims;
    submitting.look_up(files, claims.as_slice())?;
    let are_taken = take_all(rt, folder, &mut submitting, files, &mut claims, out)?;
    let are_handed_in = hand_in(submitting, claims, out)?;
    Ok(are_taken && are_handed_in)
}

/// Submits the taken files. Returns whether each was handed in.
fn hand_in<B: Backend + Drop>(
    submitting: Submitting<'_, B>,
    claims: Vec<String>,
    out: &mut impl Write,
) -> Result<bool, Fault> {
    let mut submitting = submitting;
    let mut claims = claims;
    let mut is_done = true;
    claims.sort()?;
    submitting.begin(claims.len());
    for claim in claims {
        if !submitting.hand_in(claim, out)? {
            is_done = false;
        }
    }
    Ok(is_done)
}

/// The names of the files to submit: the regular files whose names are dataset names, or each if the command line has a dataset name. Hidden
/// files are left out. Writes the line of each file whose name is no dataset name.
fn offered(
    rt: &HostRuntime,
    line: &Offer<'_>,
    folder: &Room,
    out: &mut impl Write,
) -> Result<Vec<String>, Fault> {
    let mut names = Vec::new(rt.alloc());
    for name in names_in(rt, folder)? {
        if !is_file(rt, folder, name.as_str())? {
            continue;
        }
        match offering_of(kind_of(name.as_str()), naming_of(line)) {
            Offering::Take => names.push(name)?,
            Offering::Tell => tell_unnamed(rt.alloc(), name.as_str(), out)?,
            Offering::Pass => {}
        }
    }
    Ok(names)
}

/// Writes the line of a file whose name is no dataset name.
fn tell_unnamed(alloc: Global, name: &str, out: &mut impl Write) -> Result<(), Fault> {
    let name = shown_name(alloc, name)?;
    write_line(
        out,
        &Carried::Unnamed {
            name: name.as_str(),
        },
    )
}

/// A file's name without control characters, so that it stays within its line.
fn shown_name(alloc: Global, name: &str) -> Result<String, Fault> {
    let mut shown = String::new(alloc);
    for character in name.chars() {
        shown.push(if character.is_control() {
            INSTEAD
        } else {
            character
        })?;
    }
    Ok(shown)
}

/// What kind of name a file has.
fn kind_of(name: &str) -> FileName {
    if name.starts_with('.') {
        FileName::Hidden
    } else if is_dataset_name(name) {
        FileName::Dataset
    } else {
        FileName::Other
    }
}

/// Where the dataset names come from.
fn naming_of(line: &Offer<'_>) -> Naming {
    match line.dataset {
        Some(_) => Naming::Given,
        None => Naming::Own,
    }
}

/// Whether a name is a regular file's. One that is gone meanwhile isn't.
fn is_file(rt: &HostRuntime, folder: &Room, name: &str) -> Result<bool, Fault> {
    let path = path_in(rt, folder.path(), name)?;
    match fs::symlink_metadata(rt, path.as_str()) {
        Ok(about) => Ok(about.is_file()),
        Err(error) if error.kind() == ErrorKind::NotFound => Ok(false),
        Err(error) => Err(file_fault(&error)),
    }
}

/// Whether a file's name is a dataset name.
fn is_dataset_name(name: &str) -> bool {
    X::<MOST_NAME>::new(name.as_bytes()).is_some()
}

/// Whether a text can be the dataset name of each file that is offered: one that a file may have as its name.
pub fn names_files(dataset: &str) -> bool {
    !dataset.is_empty()
        && matches!(kind_of(dataset), FileName::Dataset)
        && dataset.chars().all(is_safe)
}

/// The names that an earlier call has given for the partner in `taken`, and has neither submitted nor moved away.
fn claimed(rt: &HostRuntime, line: &Offer<'_>, folder: &Room) -> Result<Vec<String>, Fault> {
    let mut claims = Vec::new(rt.alloc());
    let Some(taken) = folder.inner(rt, TAKEN)? else {
        return Ok(claims);
    };
    for name in names_in(rt, &taken)? {
        if is_for(rt, line.to, name.as_str())? {
            claims.push(name)?;
        }
    }
    Ok(claims)
}

/// Whether a file with this name was taken for the partner with a code.
fn is_for(rt: &HostRuntime, code: &str, name: &str) -> Result<bool, Fault> {
    match stamps_in(name) {
        Some(stamps) => {
            let claim = claim_name(rt.alloc(), stamps, code)?;
            Ok(claim.as_str() == name || own_name_in(name, claim.as_str()).is_some())
        }
        None => Ok(false),
    }
}

/// Takes files, and syncs the folders. Writes the line of each that can't be moved. Returns whether there is none.
fn take_all<B: Backend>(
    rt: &HostRuntime,
    folder: &Room,
    submitting: &mut Submitting<'_, B>,
    files: &[String],
    claims: &mut Vec<String>,
    out: &mut impl Write,
) -> Result<bool, Fault> {
    let mut are_taken = true;
    for name in files {
        let name = name.as_str();
        match take(rt, folder, submitting, name) {
            Ok(Some(claim)) => claims.push(claim)?,
            Ok(None) => {}
            Err(fault) => {
                tell_left(fault, name, out)?;
                are_taken = false;
            }
        }
    }
    submitting.subfolders.taken.keep()?;
    folder.keep()?;
    Ok(are_taken)
}

/// Takes a file, unless it is gone.
fn take<B: Backend>(
    rt: &HostRuntime,
    folder: &Room,
    submitting: &mut Submitting<'_, B>,
    name: &str,
) -> Result<Option<String>, Fault> {
    let path = path_in(rt, folder.path(), name)?;
    match fs::symlink_metadata(rt, path.as_str()) {
        Ok(about) => {
            let label = submitting.label_of(name);
            submitting.take(path.as_str(), label, Moment::of(&about))
        }
        Err(error) if error.kind() == ErrorKind::NotFound => Ok(None),
        Err(error) => Err(file_fault(&error)),
    }
}
