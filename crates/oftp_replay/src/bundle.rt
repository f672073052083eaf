//! A folder that is made, and the sums of its files.

use oftp_files::{file_fault, make_private, make_private_folder, open_input};
use oftp_outcomes::Fault;
use oftp_recording::{Digest, file_of, record_files};
use sha2::{Digest as Hashing, Sha256};
use std::alloc::{AllocError, Global};
use std::fs::{self, File};
use std::io::{self, Read, Write};

/// How many octets are copied at once.
const PIECE: usize = 16_384;

/// The name of the file that has the sums of the others.
const SUMS: &str = "SHA256SUMS";

/// A folder that is made. Only the user as whom the program runs may read it.
#[derive(Drop)]
pub(crate) struct Bundle<'a> {
    rt: &'a HostRuntime,
    folder: &'a str,
    // A line for each file that was written.
    sums: String,
}

/// A file that is written, and the sum of what was.
#[derive(Drop)]
pub(crate) struct Summed {
    file: File,
    hasher: Sha256,
}

impl Write for Summed {
    fn write(&mut self, octets: &[u8]) -> io::Result<usize> {
        let count = self.file.write(octets)?;
        self.hasher.update(octets.get(..count).unwrap_or(&[]));
        Ok(count)
    }

    fn flush(&mut self) -> io::Result<()> {
        self.file.flush()
    }
}

impl Summed {
    /// Writes octets.
    fn put(&mut self, octets: &[u8]) -> Result<(), Fault> {
        self.write_all(octets).map_err(|error| file_fault(&error))
    }

    /// Syncs what was written. Returns its sum.
    fn end(self) -> Result<Digest, Fault> {
        let Summed { file, hasher } = self;
        file.sync_all().map_err(|error| file_fault(&error))?;
        Ok(hasher.finalize())
    }
}

/// A digest in hexadecimal digits.
///
/// # Errors
/// Out of memory.
pub(crate) fn hex_text(alloc: Global, digest: &Digest) -> Result<String, AllocError> {
    let mut text = String::new(alloc);
    for octet in digest.iter() {
        let octet = *octet;
        write!(text, "{octet:02x}")?;
    }
    Ok(text)
}

impl<'a> Bundle<'a> {
    /// Makes a folder.
    ///
    /// # Errors
    /// [`Fault::File`] if it can't be made, or something is there; [`Fault::MEMORY`].
    pub(crate) fn make(rt: &'a HostRuntime, folder: &'a str) -> Result<Bundle<'a>, Fault> {
        make_private_folder(rt, folder).map_err(|error| file_fault(&error))?;
        Ok(Bundle {
            rt,
            folder,
            sums: String::new(rt.alloc()),
        })
    }

    /// Where its memory is from.
    pub(crate) fn alloc(&self) -> Global {
        self.rt.alloc()
    }

    /// Makes a folder in it.
    ///
    /// # Errors
    /// [`Fault::File`] if it can't be made; [`Fault::MEMORY`].
    pub(crate) fn make_inner(&self, name: &str) -> Result<(), Fault> {
        let path = self.path_of(name)?;
        make_private_folder(self.rt, path.as_str()).map_err(|error| file_fault(&error))
    }

    /// Removes the folder, which is empty. One that can't be removed stays.
    pub(crate) fn remove(&self) {
        let _ = fs::remove_dir(self.rt, self.folder);
    }

    /// Begins a file.
    ///
    /// # Errors
    /// [`Fault::File`] if it can't be made; [`Fault::MEMORY`].
    pub(crate) fn begin(&self, name: &str) -> Result<Summed, Fault> {
        let path = self.path_of(name)?;
        let file = make_private(self.rt, path.as_str()).map_err(|error| file_fault(&error))?;
        let hasher = Sha256::new();
        Ok(Summed { file, hasher })
    }

    /// Ends a file, and notes its sum. Returns that in hexadecimal digits.
    ///
    /// # Errors
    /// [`Fault::File`] if it can't be written; [`Fault::MEMORY`].
    pub(crate) fn end(&mut self, name: &str, file: Summed) -> Result<String, Fault> {
        let digest = file.end()?;
        let sum = hex_text(self.rt.alloc(), &digest)?;
        write!(self.sums, "{sum}  {name}\n")?;
        Ok(sum)
    }

    /// Writes a file.
    ///
    /// # Errors
    /// [`Fault::File`] if it can't be written; [`Fault::MEMORY`].
    pub(crate) fn put(&mut self, name: &str, octets: &[u8]) -> Result<(), Fault> {
        let mut file = self.begin(name)?;
        file.put(octets)?;
        self.end(name, file)?;
        Ok(())
    }

    /// Copies the file at a path.
    ///
    /// # Errors
    /// [`Fault::File`] if it can't be read or written; [`Fault::MEMORY`].
    pub(crate) fn copy(&mut self, path: &str, name: &str) -> Result<(), Fault> {
        let mut from = open_input(self.rt, path)?;
        let mut file = self.begin(name)?;
        copy_octets(&mut from, &mut file)?;
        self.end(name, file)?;
        Ok(())
    }

    /// Copies the first days of a record, this many.
    ///
    /// # Errors
    /// [`Fault::File`] if one can't be read or written; [`Fault::MEMORY`].
    pub(crate) fn copy_days(&mut self, record: &str, count: usize) -> Result<(), Fault> {
        self.make_inner("record")?;
        let days = record_files(self.rt, record)?;
        for day in days.iter().take(count) {
            let path = file_of(self.rt, record, day.as_str())?;
            let name = file_of(self.rt, "record", day.as_str())?;
            self.copy(path.as_str(), name.as_str())?;
        }
        Ok(())
    }

    /// Writes the sums. Behind this the folder is whole.
    ///
    /// # Errors
    /// [`Fault::File`] if they can't be written; [`Fault::MEMORY`].
    pub(crate) fn seal(&mut self) -> Result<(), Fault> {
        let mut file = self.begin(SUMS)?;
        file.put(self.sums.as_bytes())?;
        file.end()?;
        self.sync();
        Ok(())
    }

    /// Syncs the folder, so that the names in it are durable. File systems that don't sync folders are accepted.
    fn sync(&self) {
        if let Ok(folder) = fs::open(self.rt, self.folder) {
            let _ = folder.sync_all();
        }
    }

    /// The path of what has a name in it.
    fn path_of(&self, name: &str) -> Result<String, AllocError> {
        let folder = self.folder;
        format!(in self.rt.alloc(); "{folder}/{name}")
    }
}

/// Copies what there is to read.
fn copy_octets(from: &mut File, file: &mut Summed) -> Result<(), Fault> {
    let mut piece = [0; PIECE];
    for _ in 0..u64::MAX {
        let count = from.read(&mut piece).map_err(|error| file_fault(&error))?;
        if count == 0 {
            break;
        }
        file.put(piece.get(..count).unwrap_or(&[]))?;
    }
    Ok(())
}
