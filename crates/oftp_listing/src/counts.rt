//! The numbers of octets of files that are remembered.

ghost use Rattle.oftp_listing.specs.Few.{AreFew};

use oftp_register::Side;
use std::alloc::Global;
use std::collections::BTreeMap;

/// The numbers of octets of files, by their sides and numbers.
#[derive(Drop)]
pub struct OctetCounts {
    incoming: BTreeMap<u64, u64>,
    outgoing: BTreeMap<u64, u64>,
    ghost few_in: { AreFew incoming },
    ghost few_out: { AreFew outgoing },
}

impl OctetCounts {
    ghost use Rattle.std.specs.Prelude.{◌≡◌, ◌≤◌, IfSome};
    ghost use Rattle.oftp_register.specs.declared.fit.TheConstants.{MOST_UNITS};
    ghost use Rattle.oftp_listing.specs.Remembering.{AddsCount, IsBlank, count_of};

    // No number.
    pub(crate) fn new(alloc: Global) -> OctetCounts
        ensures blank { IsBlank result }
    {
        OctetCounts {
            incoming: BTreeMap::new(alloc),
            outgoing: BTreeMap::new(alloc),
        }
    }

    // The number of octets that is remembered of the file with this number.
    pub(crate) fn find(&self, side: Side, no: u64) -> Option<u64>
        ensures told { result ≡ count_of self.now side no }
        ensures within { IfSome result (λ units. units ≤ MOST_UNITS) }
    {
        match side {
            Side::Incoming => self.incoming.get(&no).copied(),
            Side::Outgoing => self.outgoing.get(&no).copied(),
        }
    }

    // Remembers the number of octets of the file with this number, unless memory runs out.
    pub(crate) fn remember(&mut self, side: Side, no: u64, units: u64)
        requires { units ≤ MOST_UNITS }
        ensures adds { AddsCount self.old self.new side no units }
    {
        let _ = match side {
            Side::Incoming => self.incoming.insert(no, units),
            Side::Outgoing => self.outgoing.insert(no, units),
        };
    }
}
