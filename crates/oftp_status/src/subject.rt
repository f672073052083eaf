//! What is counted.

ghost use Rattle.std.specs.Prelude.{◌≡◌};
ghost use Rattle.oftp_status.specs.Subjects.{same_subject};

use crate::ending::Ending;
use crate::standing::Standing;
use crate::way::Way;
use oftp_wire::Count;

/// What is counted: each of these has a count of its own.
#[derive(Drop)]
pub enum Subject {
    /// Sessions with a partner that ended like this.
    Session {
        /// The partner's code.
        partner: String,
        /// In if the partner called.
        way: Way,
        /// How they ended.
        end: Ending,
    },
    /// Callers that weren't let in, for this reason of ESID.
    NotLetIn {
        /// The reason code.
        reason: Count<2>,
    },
    /// Calls of a partner that didn't connect.
    NotReached {
        /// The partner's code.
        partner: String,
    },
    /// Files of a partner that stand like this.
    File {
        /// The partner's code.
        partner: String,
        /// How they stand.
        standing: Standing,
    },
    /// Events that couldn't be written.
    EventLost,
    /// Backups that were made.
    Backup,
}

impl Subject {
    /// Whether both are counted as one.
    pub fn is(&self, other: &Subject) -> bool
        ensures { result ≡ same_subject self.now other.now }
    {
        match (self, other) {
            (
                Subject::Session { partner, way, end },
                Subject::Session {
                    partner: other,
                    way: other_way,
                    end: other_end,
                },
            ) => partner.as_str() == other.as_str() && way.is(*other_way) && end.is(*other_end),
            (Subject::NotLetIn { reason }, Subject::NotLetIn { reason: other }) => {
                reason.get() == other.get()
            }
            (Subject::NotReached { partner }, Subject::NotReached { partner: other }) => {
                partner.as_str() == other.as_str()
            }
            (
                Subject::File { partner, standing },
                Subject::File {
                    partner: other,
                    standing: other_standing,
                },
            ) => partner.as_str() == other.as_str() && standing.is(*other_standing),
            (Subject::EventLost, Subject::EventLost) | (Subject::Backup, Subject::Backup) => true,
            _ => false,
        }
    }
}
