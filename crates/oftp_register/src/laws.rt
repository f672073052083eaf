//! Theorems about the changes.

ghost use Rattle.std.specs.Prelude.{◌≡◌, Ok};
ghost use Rattle.oftp_register.specs.Register.{Register};
ghost use Rattle.oftp_register.specs.Changes.{apply};
ghost use Rattle.oftp_register.specs.Soundness.{IsFit, IsSound};
ghost use Rattle.oftp_register.specs.ByIdentity.{AcceptedStarts, StartsAreFound, StaysElsewhere};
ghost use Rattle.oftp_register.specs.Units.{UnitsAreTold};
ghost use Rattle.oftp_register.specs.declared.change.Change.{Change};

/// A change that is fit keeps a register sound. Identities differ, rows fit their formats, marks are within the rows, and only whole files
/// have a response. The function does nothing; its contract is the theorem.
pub fn changes_keep()
    ensures { (r : Register) (k : Change) (s : Register) → IsSound r → IsFit r k → apply r k ≡ Ok s → IsSound s }
{}

/// A change concerns one identity: the files of all others, incoming and outgoing, are unchanged. The function does nothing; its contract
/// is the theorem.
pub fn changes_stay()
    ensures { (r : Register) (k : Change) (s : Register) → apply r k ≡ Ok s → StaysElsewhere r s k }
{}

/// An accepted start leaves the file under its number, with its new header and the rows that are kept. A look-up by its identity finds it.
/// The function does nothing; its contract is the theorem.
pub fn starts_are_found()
    ensures { StartsAreFound }
{}

/// If the answer to SFID accepts a file, the register starts it: the change is fit, and it isn't refused. The function does nothing; its
/// contract is the theorem.
pub fn accepted_starts()
    ensures { AcceptedStarts }
{}

/// The octets of rows that fit a format follow from it, the longest record, the number of rows and the last row, except in V. The function
/// does nothing; its contract is the theorem.
pub fn units_are_told()
    ensures { UnitsAreTold }
{}
