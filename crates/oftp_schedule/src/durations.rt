//! How long things take, in milliseconds.

ghost use Rattle.std.specs.Prelude.{◌≡◌, ◌*◌, ◌^◌, ◌-◌, ◌==◌, min, if◌then◌else◌};
ghost use Rattle.oftp_schedule.specs.declared.durations.TheConstants.{SECOND, LESSER, GREATER};

/// The milliseconds of a second.
const SECOND: u64 = 1_000;

/// How long a caller waits for a call to give way if the station's code is less than that of the called partner.
const LESSER: u32 = 1_000;

/// The same if it isn't. In a circle of stations that wait for each other, some have to wait less than others.
const GREATER: u32 = 4_000;

/// A number of seconds in milliseconds; the greatest number if there are more.
pub fn millis(seconds: u64) -> u32
    ensures { result ≡ min (seconds * SECOND) (2 ^ 32 - 1) }
{
    seconds.saturating_mul(SECOND).min(u64::from(u32::MAX)) as u32
}

/// The longest wait of so many seconds, where 0 seconds are no limit.
pub fn wait_of(seconds: u64) -> u32
    ensures { result ≡ (if seconds == 0 then 2 ^ 32 - 1 else min (seconds * SECOND) (2 ^ 32 - 1)) }
{
    if seconds == 0 {
        u32::MAX
    } else {
        millis(seconds)
    }
}

/// How long a caller waits before a call gives way to it, by whether the station's code is less than that of the called partner.
pub fn pause_of(is_lesser: bool) -> u32
    ensures { result ≡ (if is_lesser then LESSER else GREATER) }
{
    if is_lesser { LESSER } else { GREATER }
}
