//! The octets that a session handed out.

ghost use Rattle.std.specs.Prelude.{◌≡◌, ◌++◌, []};

use crate::octet_log::{OctetLog, Piece};
use std::alloc::Global;
use std::io::{self, Write};
use std::mem;

/// A writer that keeps the octets until they are taken.
#[derive(Drop)]
pub struct Outbox {
    // Those that were taken out of it.
    taken: OctetLog,
    waiting: Vec<u8>,
}

impl Outbox {
    /// An empty box.
    pub fn new(alloc: Global) -> Outbox
        ensures taken { result.taken.octets ≡ [] }
        ensures waiting { result.waiting.items ≡ [] }
    {
        Outbox {
            taken: OctetLog::new(),
            waiting: Vec::new(alloc),
        }
    }

    /// Takes the octets out that wait in it.
    pub fn take(&mut self, alloc: Global) -> Vec<u8>
        ensures handed { result.items ≡ self.old.waiting.items }
        ensures taken { self.new.taken.octets ≡ self.old.taken.octets ++ self.old.waiting.items }
        ensures waiting { self.new.waiting.items ≡ [] }
    {
        let taken = self.taken.then(&Piece {
            octets: self.waiting.as_slice(),
        });
        self.taken = taken;
        mem::replace(&mut self.waiting, Vec::new(alloc))
    }
}

impl Write for Outbox {
    ghost use Rattle.oftp_life.specs.Outboxes.{contents_of};

    ghost contents = { λ b. contents_of b };

    fn write(&mut self, buf: &[u8]) -> io::Result<usize> {
        self.waiting.write(buf)
    }

    fn flush(&mut self) -> io::Result<()> {
        Ok(())
    }
}
