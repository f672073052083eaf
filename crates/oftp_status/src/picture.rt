//! A station at one moment.

ghost use Rattle.std.specs.Prelude.{◌≡◌};
ghost use Rattle.oftp_status.specs.Pictures.{last_good, partner_of, unless_later};

use crate::subject::Subject;
use crate::tally::Tally;
use crate::way::Way;

/// A partner of the book.
#[derive(Clone, Copy)]
pub struct Partner<'a> {
    /// Its code.
    pub code: &'a str,
    /// When the clock calls it next, in seconds since 1970; `None` if it doesn't.
    pub next_call: Option<u64>,
}

/// The session that is going on.
#[derive(Clone, Copy)]
pub struct Going<'a> {
    /// The partner's code.
    pub partner: &'a str,
    /// In if the partner called.
    pub way: Way,
    /// The dataset name of the file that comes or goes, empty if there is none.
    pub dataset: &'a str,
    /// How many of a hundred parts of it came or went.
    pub share: u64,
}

/// A station at one moment. Times are seconds since 1970.
#[derive(Clone, Copy)]
pub struct Picture<'a> {
    /// The version of the program.
    pub version: &'a str,
    /// The moment.
    pub moment: u64,
    /// When the program began.
    pub since: u64,
    /// The database's file.
    pub database: &'a str,
    /// Its size in octets.
    pub octets: u64,
    /// The session that is going on, if there is one.
    pub going: Option<Going<'a>>,
    /// The partners of the book, in its order.
    pub partners: &'a [Partner<'a>],
    /// What was counted since the program began.
    pub counters: &'a [Tally],
    /// The files by how they stand, with the times of their stamps.
    pub files: &'a [Tally],
}

impl Subject {
    /// The code of the partner that it concerns, empty if it concerns none.
    pub fn partner(&self) -> &str
        ensures { result.now ≡ partner_of self.now }
    {
        match self {
            Subject::Session { partner, .. } | Subject::NotReached { partner } => partner.as_str(),
            Subject::File { partner, .. } => partner.as_str(),
            Subject::NotLetIn { .. } | Subject::EventLost | Subject::Backup => "",
        }
    }
}

// The later of a time and that of the last good session with a partner of which this is a counter.
fn later(code: &str, way: Way, time: u64, tally: &Tally) -> u64
    ensures { result ≡ unless_later code.now way time tally.now }
{
    match &tally.subject {
        Subject::Session {
            partner,
            way: other,
            end,
        } if partner.as_str() == code && way.is(*other) && end.is_good() => time.max(tally.last),
        _ => time,
    }
}

/// When the last good session with a partner ended that was called for this way, 0 if there was none.
pub fn last_good(counters: &[Tally], code: &str, way: Way) -> u64
    ensures { result ≡ last_good counters.now code.now way }
{
    let mut time = 0;
    for tally in counters {
        time = later(code, way, time, tally);
    }
    time
}
