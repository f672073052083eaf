//! Theorems about evidence and about an audit.

ghost use Rattle.oftp_audit.specs.Evidence.{EvidenceStays};
ghost use Rattle.oftp_audit.specs.Passing.{AuditIsExact, ChangesPass, SoundnessIsExact};

/// Evidence only grows. A register may accept any changes, one after another. Each whole incoming file, each outgoing file and each response,
/// issued or received, is in the register after them, unaltered. The function does nothing; its contract is the theorem.
pub fn evidence_stays()
    ensures { EvidenceStays }
{}

/// An audit tells nothing of an entry of an older register exactly if a newer one has its evidence, unaltered. The function does nothing; its
/// contract is the theorem.
pub fn audit_is_exact()
    ensures { AuditIsExact }
{}

/// An audit tells nothing of an entry alone exactly if the register's own invariant holds of it. The function does nothing; its contract is
/// the theorem.
pub fn soundness_is_exact()
    ensures { SoundnessIsExact }
{}

/// An audit tells nothing of a register that came from a sound older one by changes that were fit. The function does nothing; its contract is
/// the theorem.
pub fn changes_pass()
    ensures { ChangesPass }
{}
