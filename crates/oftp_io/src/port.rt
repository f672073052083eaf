//! A reader or a writer with its counts.

mod reading;
mod writing;

ghost use Rattle.std.specs.Prelude.{◌≡◌, false};

use std::mem;

/// A reader or a writer, with a count of the octets that it gave or took and a count of its errors. The counts run modulo 2^64.
#[derive(Drop)]
pub struct Port<X> {
    inner: X,
    most: u64,
    moved: u64,
    faults: u64,
    ended: bool,
}

impl<X> Port<X> {
    /// The port of a reader or a writer. A reader gives at most `most` octets, and then its end. For a writer `most` means nothing.
    pub fn new(inner: X, most: u64) -> Port<X>
        ensures { result ≡ record { inner = inner; most = most; moved = 0; faults = 0; ended = false } }
    {
        Port {
            inner,
            most,
            moved: 0,
            faults: 0,
            ended: false,
        }
    }

    /// How many octets it gave or took, modulo 2^64.
    pub fn moved(&self) -> u64
        ensures { result ≡ self.now.moved }
    {
        self.moved
    }

    /// How many errors it returned, modulo 2^64. A write that takes no octet of a slice that isn't empty counts as one.
    pub fn faults(&self) -> u64
        ensures { result ≡ self.now.faults }
    {
        self.faults
    }

    /// Whether the end of the input was read: the end of the reader, or the limit.
    pub fn has_ended(&self) -> bool
        ensures { result ≡ self.now.ended }
    {
        self.ended
    }

    /// Drops the port and returns the reader or the writer.
    pub fn into_inner(self) -> X
        ensures { result ≡ self.inner }
    {
        self.inner
    }

    /// The reader or the writer.
    pub fn inner(&self) -> &X
        ensures { result.now ≡ self.now.inner }
    {
        &self.inner
    }

    /// Replaces the reader or the writer, and returns the one that it was. The counts stay.
    pub fn replace(&mut self, inner: X) -> X
        ensures was { result ≡ self.old.inner }
        ensures now { self.new ≡ record self.old { inner = inner } }
    {
        mem::replace(&mut self.inner, inner)
    }
}
