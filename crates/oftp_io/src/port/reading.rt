//! Reading through a port.

ghost use Rattle.std.specs.Prelude.{◌<◌, length};
ghost use Rattle.oftp_io.specs.Ports.{Reads};

use super::Port;
use std::io::Read;

impl<R: Read> Port<R> {
    /// Reads the next octets into the beginning of a slice, which must not be empty, and returns how many were read. 0 means the end of the
    /// input. `None` means that the reader returned an error. Then no octet is counted, and the error is.
    pub fn read(&mut self, piece: &mut [u8]) -> Option<usize>
        requires { 0 < length piece.old }
        ensures { Reads R.remaining self.old self.new piece.new result }
    {
        if self.moved >= self.most {
            self.ended = true;
            return Some(0);
        }
        let left = self.most - self.moved;
        let mut most = piece.len();
        if left < most as u64 {
            most = left as usize;
        }
        match self.inner.read(&mut piece[..most]) {
            Ok(n) => {
                self.moved += n as u64;
                if n == 0 {
                    self.ended = true;
                }
                Some(n)
            }
            Err(_) => {
                self.faults = self.faults.wrapping_add(1);
                None
            }
        }
    }
}
