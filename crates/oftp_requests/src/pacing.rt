//! How long the clock waits between its calls of one partner.

ghost use Rattle.std.specs.Prelude.{◌≡◌};
ghost use Rattle.oftp_requests.specs.Pacing.{begun, called, ends_well, is_ripe, paced, pause_after, ripe_at, unpaced};

use oftp_engine::End;
use oftp_outcomes::{Trouble, Way, is_good};

/// The longest pause that is made longer, in milliseconds: an hour.
const LONGEST_PAUSE: u64 = 3_600_000;

/// Half of it.
const HALF_PAUSE: u64 = 1_800_000;

/// How the clock stands with a partner.
#[derive(Clone, Copy, Debug, PartialEq, Eq)]
pub struct Pace {
    // When the station called it last, in milliseconds.
    called: u64,
    // For how many milliseconds from then on the clock doesn't call it.
    pause: u64,
}

impl Pace {
    /// Before any session.
    pub fn new() -> Pace
        ensures { result ≡ unpaced }
    {
        Pace {
            called: 0,
            pause: 0,
        }
    }

    /// Whether the clock may call the partner at this moment.
    pub fn is_ripe(self, now: u64) -> bool
        ensures { result ≡ is_ripe self now }
    {
        now.saturating_sub(self.called) >= self.pause
    }

    /// From when on the clock may call the partner, in milliseconds.
    pub fn ripe_at(self) -> u64
        ensures { result ≡ ripe_at self }
    {
        self.called.saturating_add(self.pause)
    }

    /// After the clock has called the partner at this moment.
    pub fn call(self, now: u64) -> Pace
        ensures { result ≡ called self now }
    {
        Pace {
            called: now,
            pause: self.pause,
        }
    }

    /// After a session with the partner, or a try at one, that ended so. `interval` is that of the clock, in milliseconds.
    pub fn end(self, way: Way, ended: &Result<End, Trouble>, interval: u64) -> Pace
        ensures { result ≡ paced self way (ends_well ended.now) interval }
    {
        match (way, ends_well(ended)) {
            (_, true) => self.with_pause(0),
            (Way::Out, false) => self.with_pause(pause_after(self.pause, interval)),
            (Way::In, false) => self,
        }
    }

    // With this pause.
    fn with_pause(self, pause: u64) -> Pace
        ensures { result ≡ begun self pause }
    {
        Pace {
            called: self.called,
            pause,
        }
    }
}

// Whether a session ended by 00.
fn ends_well(ended: &Result<End, Trouble>) -> bool
    ensures { result ≡ ends_well ended.now }
{
    match ended {
        Ok(end) => is_good(*end),
        Err(_) => false,
    }
}

// The pause after this one, where a call ended otherwise than by 00.
fn pause_after(pause: u64, interval: u64) -> u64
    ensures { result ≡ pause_after pause interval }
{
    let last = pause.max(interval);
    if last <= HALF_PAUSE {
        last + last
    } else {
        interval.max(LONGEST_PAUSE)
    }
}
