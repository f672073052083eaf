//! When what a command line names is read: a regular file in its turn, and what isn't one, such as a pipe, before anything else. It may take as
//! long as it likes, and the database must not be locked meanwhile.

use oftp_command_line::Submit;
use oftp_files::read_content;
use oftp_outcomes::Fault;
use std::{fs, mem};

/// The content of the file that is submitted.
#[derive(Drop)]
pub enum Content {
    /// It isn't read yet.
    Unread,
    /// It was read, or couldn't be. That error is told in its turn.
    Read(Result<Vec<u8>, Fault>),
}

impl Content {
    /// The content that a command line names. It is read now if it isn't that of a regular file.
    pub fn of(rt: &HostRuntime, submit: &Submit<'_>) -> Content {
        if is_awaited(rt, submit.file) {
            Content::Read(read_content(rt, submit))
        } else {
            Content::Unread
        }
    }

    /// Takes the content, which is read now if it wasn't yet.
    ///
    /// # Errors
    /// Those of [`read_content`].
    pub fn take(&mut self, rt: &HostRuntime, submit: &Submit<'_>) -> Result<Vec<u8>, Fault> {
        match mem::replace(self, Content::Unread) {
            Content::Unread => read_content(rt, submit),
            Content::Read(content) => content,
        }
    }
}

/// Whether a path leads to something that isn't a regular file, so that reading or writing it may wait for somebody.
pub(crate) fn is_awaited(rt: &HostRuntime, path: &str) -> bool {
    match fs::metadata(rt, path) {
        Ok(about) => !about.is_file(),
        Err(_) => false,
    }
}
