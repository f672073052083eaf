//! A writer that sends its octets as pieces of an answer.

ghost use Rattle.std.specs.Prelude.{◌≡◌, ◌<◌, OnErr, IfOk, length, min, take};
ghost use Rattle.oftp_io.specs.Ports.{SentAll, SentPart};
ghost use Rattle.oftp_channel.specs.Answers.{spelled_piece};
ghost use Rattle.oftp_channel.specs.declared.answer.TheConstants.{LONGEST_PIECE};

use crate::answer::{LONGEST_PIECE, Outlet, write_piece};
use oftp_io::Port;
use std::io::{self, ErrorKind, Write};

/// A writer that sends its octets as pieces for one outlet.
#[derive(Drop)]
pub struct PieceWriter<W> {
    port: Port<W>,
    outlet: Outlet,
}

impl<W> PieceWriter<W> {
    /// The writer of pieces for this outlet.
    pub fn new(port: Port<W>, outlet: Outlet) -> PieceWriter<W>
        ensures { result ≡ record { port = port; outlet = outlet } }
    {
        PieceWriter { port, outlet }
    }
}

impl<W: Write> Write for PieceWriter<W> {
    // Each write is one piece, of at most `LONGEST_PIECE` octets. A write of no octets is none.
    fn write(&mut self, octets: &[u8]) -> io::Result<usize>
        ensures piece { IfOk result (λ n. (n ≡ min (length octets.now) LONGEST_PIECE)
            × (0 < n → SentAll W.contents self.old.port self.new.port (spelled_piece self.old.outlet (take n octets.now)))) }
        ensures fault { OnErr result (SentPart W.contents self.old.port self.new.port
            (spelled_piece self.old.outlet (take (min (length octets.now) LONGEST_PIECE) octets.now))) }
    {
        let count = octets.len().min(LONGEST_PIECE);
        if count > 0 && !write_piece(&mut self.port, self.outlet, &octets[..count]) {
            return Err(io::Error::from(ErrorKind::BrokenPipe));
        }
        Ok(count)
    }

    fn flush(&mut self) -> io::Result<()> {
        Ok(())
    }
}
