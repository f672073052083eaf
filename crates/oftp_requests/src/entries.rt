//! A list of files that was asked for, file by file.

use crate::asking::Backend;
use crate::ended::GONE;
use oftp_channel::{Ending, ListedFile, ReadFault, Request, read_request};
use oftp_engine::Port;
use oftp_outcomes::Fault;
use std::alloc::Global;

/// A list of files.
#[derive(Drop)]
pub struct FileList {
    alloc: Global,
    octets: Vec<u8>,
    // How many of the octets were read.
    read: usize,
}

/// A file of a list.
#[derive(Drop)]
pub struct FileEntry {
    words: Vec<Vec<u8>>,
}

impl FileList {
    /// The list that a request is for.
    ///
    /// # Errors
    /// Those of [`Backend::ask`].
    pub fn asked(
        alloc: Global,
        backend: &mut impl Backend,
        request: &Request<'_>,
    ) -> Result<FileList, Fault> {
        let mut octets = Vec::new(alloc);
        match backend.ask(request, &mut octets) {
            Ok(Ending::Listed) => Ok(FileList {
                alloc,
                octets,
                read: 0,
            }),
            Ok(_) => Err(GONE),
            Err(fault) => Err(fault.in_memory()),
        }
    }

    /// The next file; `None` at the end.
    ///
    /// # Errors
    /// [`Fault::Run`] if the list is none that a station sends; [`Fault::MEMORY`].
    pub fn next_file(&mut self) -> Result<Option<FileEntry>, Fault> {
        let rest = self.octets.get(self.read..).unwrap_or(&[]);
        if rest.is_empty() {
            return Ok(None);
        }
        let mut reader = Port::new(rest, rest.len() as u64);
        let words = read_request(self.alloc, &mut reader).map_err(fault_of)?;
        let left = reader.inner().len();
        self.read = self.octets.len().saturating_sub(left);
        Ok(Some(FileEntry { words }))
    }
}

impl FileEntry {
    /// The file.
    ///
    /// # Errors
    /// [`Fault::Run`] if it is none that a station lists.
    pub fn file(&self) -> Result<ListedFile<'_>, Fault> {
        match ListedFile::of(self.words.as_slice()) {
            Some(file) => Ok(file),
            None => Err(GONE),
        }
    }
}

/// The error for a file that can't be read.
fn fault_of(fault: ReadFault) -> Fault {
    match fault {
        ReadFault::Memory => Fault::MEMORY,
        ReadFault::Input | ReadFault::Form => GONE,
    }
}
