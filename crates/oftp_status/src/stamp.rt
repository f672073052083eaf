//! The moment that a file's stamp names.

ghost use Rattle.std.specs.Prelude.{◌≡◌, ◌<◌, ◌^◌};
ghost use Rattle.oftp_status.specs.Stamps.{days_of, days_since, moment_of, seconds_of, two};

/// The days from the first of March of the year 0 to the first of January 1970.
const DAYS_BEFORE: u64 = 719_468;

/// The seconds of a day.
const DAY: u64 = 86_400;

// The number in two digits.
fn two(tens: u8, ones: u8) -> u64
    ensures value { result ≡ two tens ones }
    ensures low { result < 2 ^ 12 }
{
    u64::from(tens).saturating_sub(48) * 10 + u64::from(ones).saturating_sub(48)
}

// The days from 1970 on to a day, 0 before.
fn days_since(year: u64, month: u64, day: u64) -> u64
    requires year { year < 2 ^ 20 }
    requires month { month < 2 ^ 12 }
    requires day { day < 2 ^ 12 }
    ensures value { result ≡ days_since year month day }
    ensures low { result < 2 ^ 30 }
{
    let (year, month) = if month > 2 {
        (year, month - 3)
    } else {
        (year.saturating_sub(1), month + 9)
    };
    let days = 365 * year + year / 4 + year / 400 + (153 * month + 2) / 5 + day;
    days.saturating_sub(year / 100 + DAYS_BEFORE + 1)
}

// The days of a date stamp, CCYYMMDD; 0 for other octets.
fn days_of(date: &[u8]) -> u64
    ensures value { result ≡ days_of date.now }
    ensures low { result < 2 ^ 30 }
{
    match date {
        [c, d, y, z, m, n, t, u] => {
            days_since(two(*c, *d) * 100 + two(*y, *z), two(*m, *n), two(*t, *u))
        }
        _ => 0,
    }
}

// The seconds of a time stamp, HHMMSScccc, since midnight; 0 for other octets.
fn seconds_of(time: &[u8]) -> u64
    ensures value { result ≡ seconds_of time.now }
    ensures low { result < 2 ^ 30 }
{
    match time {
        [h, i, m, n, s, t, ..] => two(*h, *i) * 3_600 + two(*m, *n) * 60 + two(*s, *t),
        _ => 0,
    }
}

/// The seconds since 1970 at which a file's stamp says that it was made, read as UTC (RFC 5024, sections 5.3.3: SFIDDATE and SFIDTIME).
pub fn moment_of(date: &[u8], time: &[u8]) -> u64
    ensures { result ≡ moment_of date.now time.now }
{
    days_of(date) * DAY + seconds_of(time)
}
