//! An output that remembers whether it is still read.

ghost use Rattle.std.specs.Prelude.{◌≡◌};
ghost use Rattle.oftp_outcomes.specs.Statuses.{reader_after};
ghost use Rattle.oftp_outcomes.specs.declared.output.Reader.TheVariants.{There};

use std::io::{self, ErrorKind, Write};

/// Whether somebody reads an output.
#[derive(Clone, Copy)]
pub enum Reader {
    /// Nobody is known to have gone.
    There,
    /// The output is a pipe or a connection whose reader has gone.
    Gone,
}

impl Reader {
    /// The same after an error of this kind.
    fn after(self, kind: ErrorKind) -> Reader
        ensures { result ≡ reader_after self kind }
    {
        match kind {
            ErrorKind::BrokenPipe => Reader::Gone,
            _ => self,
        }
    }
}

/// An output, and whether it is still read.
#[derive(Drop)]
pub struct Output<W> {
    writer: W,
    reader: Reader,
}

impl<W> Output<W> {
    /// An output that nobody has written to yet.
    pub fn new(writer: W) -> Output<W>
        ensures { result ≡ record { writer = writer; reader = There } }
    {
        Output {
            writer,
            reader: Reader::There,
        }
    }

    /// Whether it is still read.
    pub fn reader(&self) -> Reader
        ensures { result ≡ self.now.reader }
    {
        self.reader
    }
}

impl<W: Write> Write for Output<W> {
    fn write(&mut self, octets: &[u8]) -> io::Result<usize> {
        let written = self.writer.write(octets);
        if let Err(error) = &written {
            self.reader = self.reader.after(error.kind());
        }
        written
    }

    // Without this each piece of a line would reach the writer by `write`, which a buffer of lines passes on at once.
    fn write_all(&mut self, octets: &[u8]) -> io::Result<()> {
        let written = self.writer.write_all(octets);
        if let Err(error) = &written {
            self.reader = self.reader.after(error.kind());
        }
        written
    }

    fn flush(&mut self) -> io::Result<()> {
        let flushed = self.writer.flush();
        if let Err(error) = &flushed {
            self.reader = self.reader.after(error.kind());
        }
        flushed
    }
}
