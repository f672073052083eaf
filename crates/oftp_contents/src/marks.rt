//! When the register is marked in a record.

ghost use Rattle.std.specs.Prelude.{◌≡◌};
ghost use Rattle.oftp_contents.specs.Marks.{left_until, mark_time};

/// The milliseconds between two marks of the register: an hour.
const BETWEEN_MARKS: u64 = 3_600_000;

/// What stands in the way of a mark.
#[derive(Clone, Copy, Debug, PartialEq, Eq, Drop)]
pub enum MarkBar {
    /// No record is written.
    NoRecord,
    /// A session goes on.
    Session,
    /// Nothing.
    Free,
}

/// When the register is marked.
#[derive(Clone, Copy, Debug, PartialEq, Eq, Drop)]
pub enum MarkTime {
    /// Not before something else happens.
    Unset,
    /// In so many milliseconds.
    After(u64),
    /// At once.
    Now,
}

impl MarkTime {
    /// When the register is marked, `passed` milliseconds after the last mark: once an hour has passed, if a record is written and no session goes on.
    pub fn at(bar: MarkBar, passed: u64) -> MarkTime
        ensures { result ≡ mark_time bar passed }
    {
        match bar {
            MarkBar::NoRecord | MarkBar::Session => MarkTime::Unset,
            MarkBar::Free if passed < BETWEEN_MARKS => MarkTime::After(BETWEEN_MARKS - passed),
            MarkBar::Free => MarkTime::Now,
        }
    }

    /// The milliseconds until then; `None` if nothing is waited for.
    pub fn left(self) -> Option<u64>
        ensures { result ≡ left_until self }
    {
        match self {
            MarkTime::Unset => None,
            MarkTime::After(left) => Some(left),
            MarkTime::Now => Some(0),
        }
    }
}
