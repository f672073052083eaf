//! The days of a record: in times, in the names of its files, and when a new one begins.

ghost use Rattle.std.specs.Prelude.{◌≡◌, ◌↔◌, Some, IsTrue, option_map};
ghost use Rattle.oftp_contents.specs.Days.{day_at, day_in, days_passed, last_before, last_day, number_of_day, turn_of};

/// How the name of a day's file ends. The day is before it, as YYYYMMDD.
pub const RECORD_ENDING: &str = ".record";

/// The number of digits of a day.
pub(crate) const DIGITS: usize = 8;

/// The microseconds of a day.
const DAY: u64 = 86_400_000_000;

/// What becomes of the last file of a record at a moment.
#[derive(Clone, Copy, Debug, PartialEq, Eq, Drop)]
pub enum DayTurn {
    /// It goes on.
    GoesOn,
    /// The file of a later day is begun.
    Turns,
}

/// The day that a text is, as the number with the digits YYYYMMDD; `None` if it isn't eight digits.
#[tactic(auto, unfolding(crate::specs::Days::number_of_day))]
pub fn number_of_day(text: &[u8]) -> Option<u64>
    ensures { result ≡ number_of_day text.now }
{
    if text.len() != DIGITS {
        return None;
    }
    let mut number: u64 = 0;
    for digit in text {
        if !digit.is_ascii_digit() {
            return None;
        }
        number = number * 10 + u64::from(*digit - b'0');
    }
    Some(number)
}

/// The day of a time that begins with its date, as 2024-02-01; `None` if it doesn't.
pub fn day_at(time: &[u8]) -> Option<u64>
    ensures { result ≡ day_at time.now }
{
    let [a, b, c, d, _, e, f, _, g, h, ..] = time else {
        return None;
    };
    number_of_day(&[*a, *b, *c, *d, *e, *f, *g, *h])
}

/// The day of whose entries a file with this name is; `None` if it is none of a record.
pub fn day_in(name: &[u8]) -> Option<u64>
    ensures { result ≡ day_in name.now }
{
    if name.len() < DIGITS {
        return None;
    }
    let (day, ending) = name.split_at(DIGITS);
    if ending == RECORD_ENDING.as_bytes() {
        number_of_day(day)
    } else {
        None
    }
}

// How many whole days have passed since 1970 began at a moment, in microseconds since then.
fn days_passed(moment: u64) -> u64
    ensures { result ≡ days_passed moment }
{
    moment / DAY
}

/// Whether a moment is on the day of another one, if that is known. Both are in microseconds since 1970 began.
pub fn is_same_day(known: Option<u64>, moment: u64) -> bool
    ensures { IsTrue result ↔ option_map days_passed known ≡ Some (days_passed moment) }
{
    match known {
        Some(known) => days_passed(known) == days_passed(moment),
        None => false,
    }
}

/// What becomes of the file of the last day of a record once it is the day `now`. A day that isn't later, since the clock was set back, goes on there.
pub fn turn_of(last: u64, now: u64) -> DayTurn
    ensures { result ≡ turn_of last now }
{
    if last < now {
        DayTurn::Turns
    } else {
        DayTurn::GoesOn
    }
}

/// The day whose file a record goes on with, where it has files of `days`: today, or a later one of them, since the clock was set back.
pub fn last_day(today: u64, days: &[u64]) -> u64
    ensures { result ≡ last_day today days.now }
{
    let mut last = today;
    for day in days {
        last = last.max(*day);
    }
    last
}

/// The last of `days` that is before this one, in whichever order they are; `None` if none is.
pub fn last_before(day: u64, days: &[u64]) -> Option<u64>
    ensures { result ≡ last_before day days.now }
{
    let mut last = None;
    for other in days {
        if *other < day {
            last = Some(last.map_or(*other, |last: u64| last.max(*other)));
        }
    }
    last
}
