//! The lines of events that are about no file and no session.

ghost use Rattle.std.specs.Prelude.{◌≡◌};
ghost use Rattle.oftp_watching.specs.Notices.{backup_line, dismissed_line, unreached_line};

use oftp_events::{Direction, Event, EventLine};

/// The line of a call that didn't connect: to a partner with this code, at this address, for this cause in words.
pub fn not_reached<'a>(
    at: &'a str,
    partner: Option<&'a str>,
    peer: &'a str,
    words: &'a str,
) -> EventLine<'a>
    ensures { result ≡ unreached_line at.entry partner.entry peer.entry words.entry }
{
    EventLine {
        partner,
        way: Some(Direction::Out),
        peer: Some(peer),
        words: Some(words),
        ..EventLine::new(at, Event::NotReached)
    }
}

/// Why a caller isn't let in.
#[derive(Clone, Copy, Drop)]
pub struct Dismissal<'a> {
    /// The two digits of the reason of ESID, if it was sent.
    pub reason: Option<&'a str>,
    /// The reason in words.
    pub words: Option<&'a str>,
    /// The line that the command prints.
    pub end: &'a str,
}

/// The line of a caller that isn't let in, from this address, with the code that it claimed if one came.
pub fn not_let_in<'a>(
    at: &'a str,
    claimed: Option<&'a str>,
    peer: Option<&'a str>,
    why: Dismissal<'a>,
) -> EventLine<'a>
    ensures { result ≡ dismissed_line at.entry claimed.entry peer.entry why.entry }
{
    EventLine {
        partner: claimed,
        way: Some(Direction::In),
        peer,
        reason: why.reason,
        words: why.words,
        end: Some(why.end),
        ..EventLine::new(at, Event::NotLetIn)
    }
}

/// The line of a backup, which has this path.
pub fn backed_up<'a>(at: &'a str, path: &'a str) -> EventLine<'a>
    ensures { result ≡ backup_line at.entry path.entry }
{
    EventLine {
        words: Some(path),
        ..EventLine::new(at, Event::Backup)
    }
}
