//! Writing through a port.

ghost use Rattle.std.specs.Prelude.{◌<◌, length};
ghost use Rattle.oftp_io.specs.Ports.{Sent, Writes};

use super::Port;
use std::io::Write;

impl<W: Write> Port<W> {
    // Writes octets of a slice, and returns how many the writer took, or `None` where it returned an error.
    fn write(&mut self, piece: &[u8]) -> Option<usize>
        requires { 0 < length piece.now }
        ensures { Writes W.contents self.old self.new piece.now result }
    {
        match self.inner.write(piece) {
            Ok(n) => {
                if n == 0 {
                    self.faults = self.faults.wrapping_add(1);
                    return None;
                }
                self.moved = self.moved.wrapping_add(n as u64);
                Some(n)
            }
            Err(_) => {
                self.faults = self.faults.wrapping_add(1);
                None
            }
        }
    }

    /// Writes octets, and returns whether the writer took all of them. If it didn't, it returned an error, or took no octet, and has a
    /// beginning of them. Only what it took is counted.
    pub fn send(&mut self, octets: &[u8]) -> bool
        ensures { Sent W.contents self.old self.new octets.now result }
    {
        let mut at = 0;
        while at < octets.len() {
            match self.write(&octets[at..]) {
                None => return false,
                Some(n) => at += n,
            }
        }
        true
    }
}
