//! What the sessions of a record have of one file, one after another.

ghost use Rattle.std.specs.Prelude.{◌≡◌};
ghost use Rattle.oftp_evidence.specs.Findings.{answered_after, findings_after, later, no_findings, side_said};

use crate::part::Part;
use oftp_register::Side;

/// What one side of a session says of a file.
#[derive(Clone, Copy, Debug, Drop)]
pub struct SideFinding<'a> {
    /// That, in the order in which it came.
    pub parts: &'a [Part],
    /// When it last answered the file, in microseconds since 1970; `None` if it didn't.
    pub answered: Option<u64>,
}

/// What the sessions that were read have of a file.
#[derive(Clone, Copy, Debug, PartialEq, Eq, Drop)]
pub struct Findings {
    /// How many days of the record were begun when the last of them ended that says something of it.
    pub days: usize,
    /// When it was last answered, in microseconds since 1970; `None` if it wasn't.
    pub answered: Option<u64>,
}

/// When a side of a session last answered a file, by when it did before, and what it says of the file in octets of this moment.
pub fn answered_after(before: Option<u64>, parts: &[Part], moment: u64) -> Option<u64>
    ensures { result ≡ answered_after before parts.now moment }
{
    let mut answered = before;
    for part in parts {
        match part {
            Part::Offer => {}
            Part::Response | Part::Refusal => answered = Some(moment),
        }
    }
    answered
}

// The later one of two moments.
fn later(first: Option<u64>, second: Option<u64>) -> Option<u64>
    ensures { result ≡ later first second }
{
    match (first, second) {
        (Some(first), Some(second)) => Some(first.max(second)),
        (Some(moment), None) | (None, Some(moment)) => Some(moment),
        (None, None) => None,
    }
}

impl Findings {
    /// Nothing was found.
    pub fn none() -> Findings
        ensures { result ≡ no_findings }
    {
        Findings {
            days: 0,
            answered: None,
        }
    }

    /// What the sessions have of a file that goes this way once one more is over, in which this was heard and said of it. `days` are those that were
    /// begun then. `None` if it says nothing of the file, and so is none of these sessions.
    pub fn after(
        self,
        way: Side,
        heard: &SideFinding<'_>,
        said: &SideFinding<'_>,
        days: usize,
    ) -> Option<Findings>
        ensures { result ≡ findings_after way (side_said heard.now) (side_said said.now) days self }
    {
        if heard.parts.is_empty() && said.parts.is_empty() {
            return None;
        }
        let answered = match way {
            Side::Incoming => said.answered,
            Side::Outgoing => heard.answered,
        };
        Some(Findings {
            days,
            answered: later(self.answered, answered),
        })
    }
}
