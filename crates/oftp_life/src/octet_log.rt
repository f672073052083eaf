//! The octets that went one way. They exist only in proofs.

ghost use Rattle.std.specs.Prelude.{◌≡◌, ◌++◌, List, ℕ, []};
ghost use Rattle.std.specs.Borrow.{ftrue};

use std::marker::Model;

// Octets, for a proof.
#[derive(Clone, Copy, Drop)]
pub(crate) struct Piece<'a> {
    pub(crate) octets: &'a [u8],
}

/// All octets that went one way so far: those that a caller has sent, or those that were taken out of a box. It takes no memory.
#[derive(Drop)]
pub struct OctetLog {
    pub ghost octets: { List ℕ },
}

impl Model for OctetLog {
    ghost also_owns = { λ _. ftrue };
}

impl OctetLog {
    // No octet.
    pub(crate) fn new() -> OctetLog
        ensures { result.octets ≡ [] }
    {
        OctetLog {}
    }

    // These octets too.
    pub(crate) fn then(&self, _more: &Piece<'_>) -> OctetLog
        ensures { result.octets ≡ self.now.octets ++ _more.now.octets.now }
    {
        OctetLog {}
    }
}
