//! How a request ended.

ghost use Rattle.std.specs.Prelude.{◌≡◌, IfSome, Some};
ghost use Rattle.oftp_channel.specs.Endings.{IsEnding, ending_label};
ghost use Rattle.oftp_channel.specs.declared.ending.Ending.{Ending};

use crate::labels::{Label, fault_at, fault_label, outcome_at, outcome_label};
use oftp_outcomes::{Fault, Outcome};

/// How a request ended.
#[derive(Clone, Copy, Debug, PartialEq, Eq, Drop)]
pub enum Ending {
    /// A list was sent, whole.
    Listed,
    /// The content that was asked about is that of the file.
    Same,
    /// The content that was asked about isn't that of the file, or there is no such file.
    Other,
    /// A command ended so.
    Outcome(Outcome),
    /// A command failed.
    Failed(Fault),
}

impl Ending {
    // Its kind and number.
    pub(crate) fn label(self) -> Label
        ensures { result ≡ ending_label self }
    {
        match self {
            Ending::Listed => Label::bare(1),
            Ending::Same => Label::bare(2),
            Ending::Other => Label::bare(3),
            Ending::Outcome(outcome) => outcome_label(outcome),
            Ending::Failed(fault) => fault_label(fault),
        }
    }

    // The ending with a kind and a number.
    pub(crate) fn of_label(label: Label) -> Option<Ending>
        ensures one { IfSome result (λ ending. IsEnding ending × (ending_label ending ≡ label)) }
        ensures found { (ending : Ending) → IsEnding ending → ending_label ending ≡ label → result ≡ Some ending }
    {
        if let Some(outcome) = outcome_at(label) {
            return Some(Ending::Outcome(outcome));
        }
        if let Some(fault) = fault_at(label) {
            return Some(Ending::Failed(fault));
        }
        match label.kind {
            1 if label.number == 0 => Some(Ending::Listed),
            2 if label.number == 0 => Some(Ending::Same),
            3 if label.number == 0 => Some(Ending::Other),
            _ => None,
        }
    }
}
