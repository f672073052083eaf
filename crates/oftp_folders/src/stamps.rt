//! The date and time that a file is given, in UTC. They are those of its last change if it is offered, and else those of the moment.

use jiff::Timestamp;
use oftp_outcomes::Fault;
use std::alloc::{AllocError, Global};
use std::fs::Metadata;
use std::os::unix::fs::MetadataExt;

/// A tick in nanoseconds: a time has four digits after its seconds.
const TICK: i64 = 100_000;

/// The ticks of a second. They are the standard's counter, which begins at 1 (RFC 5024, section 5.3.3).
const FIRST_TICK: i64 = 1;

const LAST_TICK: i64 = 9_999;

/// The first second that isn't accepted: the last that jiff can represent, on 30 December 9999.
const LAST: i64 = 253_402_207_200;

/// The number of digits of a date.
const DATE: usize = 8;

/// A point in time, in ticks.
#[derive(Clone, Copy)]
pub struct Moment {
    second: i64,
    tick: i64,
}

impl Moment {
    /// The time of a file's last change.
    pub(super) fn of(about: &Metadata) -> Moment {
        Moment::at(about.mtime(), about.mtime_nsec())
    }

    /// The present time.
    ///
    /// # Errors
    /// [`Fault::File`]: the clock can't be read.
    pub fn now(rt: &HostRuntime) -> Result<Moment, Fault> {
        let Ok(now) = Timestamp::now(rt) else {
            return Err(Fault::File);
        };
        Ok(Moment::at(now.as_second(), i64::from(now.subsec_nanosecond())))
    }

    /// The time so many seconds and nanoseconds after the beginning of 1970. One before that or from [`LAST`] on counts as that beginning.
    fn at(second: i64, nanosecond: i64) -> Moment {
        if (0..LAST).contains(&second) {
            let tick = (nanosecond / TICK).clamp(FIRST_TICK, LAST_TICK);
            Moment { second, tick }
        } else {
            Moment::begin(0)
        }
    }

    /// The beginning of a second.
    fn begin(second: i64) -> Moment {
        let tick = FIRST_TICK;
        Moment { second, tick }
    }

    /// The time one tick later.
    pub fn next(self) -> Moment {
        if self.tick < LAST_TICK {
            Moment {
                second: self.second,
                tick: self.tick.saturating_add(1),
            }
        } else {
            Moment::begin(self.second.saturating_add(1))
        }
    }

    /// The date as CCYYMMDD, and the time as HHMMSScccc.
    ///
    /// # Errors
    /// [`Fault::File`] if it is none that has a date; [`Fault::MEMORY`].
    pub fn stamps(self, alloc: Global) -> Result<(String, String), Fault> {
        let Ok(second) = Timestamp::from_second(self.second) else {
            return Err(Fault::File);
        };
        let tick = self.tick;
        let text = format!(in alloc; "{second} {tick:04}")?;
        Ok(digits_of(alloc, text.as_str())?)
    }
}

/// The digits of a text: the first eight, and the others.
fn digits_of(alloc: Global, text: &str) -> Result<(String, String), AllocError> {
    let mut date = String::new(alloc);
    let mut time = String::new(alloc);
    for character in text.chars() {
        if character.is_ascii_digit() {
            if date.len() < DATE {
                date.push(character)?;
            } else {
                time.push(character)?;
            }
        }
    }
    Ok((date, time))
}
