//! The last events, as a visitor is told them: from the file to which they are appended.

use crate::service::Shell;
use oftp_files::open_at_once;
use oftp_listing::{Method, OfficeState, Query};
use oftp_page::{MOST_OF_EVENTS, lines_told};
use oftp_requests::Made;
use oftp_status::{Media, reply_with};
use std::io::{self, ErrorKind};
use std::os::unix::fs::FileExt;

/// What a request for an unknown target asks for.
const UNKNOWN: Query = Query::Register(Method::Get, None);

impl Shell<'_> {
    /// The answer to a request for the last events: the one to an unknown target where none can be read.
    pub(crate) fn made_of_events(&self) -> Made {
        let alloc = self.rt.alloc();
        let made = match self.reply_of_events() {
            Ok(octets) => Some(Made::replied(octets, OfficeState::Working)),
            Err(error) if error.kind() == ErrorKind::OutOfMemory => None,
            Err(_) => Made::of_any(alloc, UNKNOWN),
        };
        match made {
            Some(made) => made,
            None => Made::nothing(alloc),
        }
    }

    /// The reply with the last events.
    fn reply_of_events(&self) -> io::Result<Vec<u8>> {
        let Some(path) = self.config.told else {
            return Err(io::Error::from(ErrorKind::NotFound));
        };
        let last = last_of(self.rt, path)?;
        let lines = lines_told(last.as_slice());
        Ok(reply_with(self.rt.alloc(), Media::Lines, lines)?)
    }
}

/// The last octets of a file: one more than are told at most, if there are so many.
fn last_of(rt: &HostRuntime, path: &str) -> io::Result<Vec<u8>> {
    let file = open_at_once(rt, path)?;
    let about = file.metadata()?;
    if !about.is_file() {
        return Err(io::Error::from(ErrorKind::InvalidInput));
    }
    let count = about.len().min(MOST_OF_EVENTS as u64 + 1);
    let mut last = vec![in rt.alloc(); 0u8; count as usize]?;
    file.read_exact_at(last.as_mut_slice(), about.len().saturating_sub(count))?;
    Ok(last)
}
