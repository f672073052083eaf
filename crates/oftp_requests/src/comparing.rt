//! Compares octets that arrive in pieces with a content that is expected.

ghost use Rattle.std.specs.Prelude.{◌≡◌, ◌++◌, ◌↔◌, [], List, ℕ, None, Ok, IsTrue, length};
ghost use Rattle.std.specs.Io.{WritesAtMost};
ghost use Rattle.std.specs.Io.KnownBytes.{WriteAppends};
ghost use Rattle.oftp_requests.specs.Compared.{Compares};

use std::io::{self, Write};

/// A writer that compares what is written with an expected content.
#[derive(Clone, Copy)]
pub struct Comparison<'a> {
    // What is expected behind the octets that were written, if the content begins with them.
    rest: Option<&'a [u8]>,
}

impl<'a> Comparison<'a> {
    /// A comparison with this content, before anything is written.
    pub fn with(expected: &'a [u8]) -> Comparison<'a>
        ensures { Compares expected.now [] result }
    {
        Comparison {
            rest: Some(expected),
        }
    }

    /// Whether what was written is the expected content.
    pub fn is_equal(&self) -> bool
        ensures { (content written : List ℕ) → Compares content written self.now → IsTrue result ↔ content ≡ written }
    {
        match self.rest {
            Some(rest) => rest.is_empty(),
            None => false,
        }
    }

    /// Compares the next octets.
    fn take(&mut self, octets: &[u8])
        ensures { (content written : List ℕ) → Compares content written self.old → Compares content (written ++ octets.now) self.new }
    {
        if let Some(rest) = self.rest {
            self.rest = rest.strip_prefix(octets);
        }
    }
}

impl Write for Comparison<'_> {
    fn write(&mut self, octets: &[u8]) -> io::Result<usize>
        ensures bound { WritesAtMost result octets.now }
        ensures bytes { WriteAppends None None result octets.now }
        ensures all { result ≡ Ok (length octets.now) }
        ensures compares { (content written : List ℕ) → Compares content written self.old → Compares content (written ++ octets.now) self.new }
    {
        self.take(octets);
        Ok(octets.len())
    }

    fn flush(&mut self) -> io::Result<()>
        ensures done { result ≡ Ok tt }
        ensures kept { self.new ≡ self.old }
    {
        Ok(())
    }
}
