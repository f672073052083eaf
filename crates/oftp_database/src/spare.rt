//! Descriptors that a service keeps for its database.

use std::alloc::Global;
use std::fs::{self, File, OpenFile};
use std::io;

/// How many there are: the files that are open at once while a database is opened, and one more.
const COUNT: usize = 4;

/// What is opened to hold one.
const NOTHING: &str = "/dev/null";

/// The errors of a system or a process that has no descriptor left, by Linux's numbers (ENFILE, EMFILE).
const WANTING: [i32; 2] = [23, 24];

/// Whether the descriptors are there.
#[derive(Clone, Copy, PartialEq, Eq)]
pub(crate) enum Supply {
    /// All are held, or it isn't for want of descriptors that they aren't.
    Enough,
    /// There are too few now.
    Wanting,
}

/// Descriptors that are held while the database is closed, so that callers who wait don't take the last ones.
#[derive(Drop)]
pub(crate) struct Spare {
    held: Vec<File>,
}

impl Spare {
    /// None yet.
    pub(crate) fn new(alloc: Global) -> Spare {
        Spare {
            held: Vec::new(alloc),
        }
    }

    /// Holds all of them, or as many as there are.
    pub(crate) fn hold(&mut self, rt: &HostRuntime) -> Supply {
        for _ in self.held.len()..COUNT {
            match fs::open(rt, NOTHING) {
                Ok(file) => {
                    let _ = self.held.push(file);
                }
                Err(error) if is_of_want(&error) => return Supply::Wanting,
                Err(_) => return Supply::Enough,
            }
        }
        Supply::Enough
    }

    /// Closes them, for the database.
    pub(crate) fn release(&mut self) {
        self.held.clear();
    }
}

/// Whether there was no descriptor.
fn is_of_want(error: &io::Error) -> bool {
    match error.raw_os_error() {
        Some(number) => WANTING.contains(&number),
        None => false,
    }
}
