//! An age in words.

ghost use Rattle.std.specs.Prelude.{Some};
ghost use Rattle.oftp_status.specs.Ages.{age_text};

use std::fmt;

/// The seconds of a minute, of an hour and of a day.
const MINUTE: u64 = 60;

const HOUR: u64 = 3_600;

const DAY: u64 = 86_400;

/// An age of so many seconds.
#[derive(Clone, Copy, Drop)]
pub(crate) struct Age {
    /// The seconds.
    pub(crate) seconds: u64,
}

impl fmt::Display for Age {
    ghost output = { λ age. Some (age_text age.seconds) };

    fn fmt<W: fmt::Write>(&self, f: &mut fmt::Formatter<W>) -> fmt::Result {
        let seconds = self.seconds;
        if seconds < MINUTE {
            write!(f, "{} s", seconds)
        } else if seconds < HOUR {
            write!(f, "{} min", seconds / MINUTE)
        } else if seconds < 2 * DAY {
            write!(f, "{} h {} min", seconds / HOUR, seconds % HOUR / MINUTE)
        } else {
            write!(f, "{} d {} h", seconds / DAY, seconds % DAY / HOUR)
        }
    }
}
