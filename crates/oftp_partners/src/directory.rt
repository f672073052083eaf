//! An index of partners by their codes.

ghost use Rattle.std.specs.Prelude.{◌≡◌, ◌++◌, ◌∷◌, [], None, OnOk, OnErr, length, option_map};
ghost use Rattle.oftp_partners.specs.Book.{partner_at};

use crate::partner::Partner;
use std::alloc::{AllocError, Global};
use std::collections::BTreeMap;
use std::marker::Model;

/// Partners with different codes, in the order of the text. A look-up takes a logarithmic number of comparisons; no clause says this.
#[derive(Drop)]
pub(crate) struct Directory {
    partners: Vec<Partner>,
    places: BTreeMap<Vec<u8>, usize>,
}

impl Model for Directory {
    ghost use Rattle.std.specs.Prelude.{List};
    ghost use Rattle.oftp_partners.specs.declared.partner.Partner.{Partner};
    ghost use Rattle.oftp_partners.specs.Directory.{IsIndex};

    ghost Value = { List Partner };

    ghost view = { λ d. d.partners.items };

    ghost invariant = { λ d. IsIndex d.places d.partners.items };
}

impl Directory {
    /// No partners.
    pub(crate) fn new(alloc: Global) -> Directory
        ensures { result ≡ [] }
    {
        Directory {
            partners: Vec::new(alloc),
            places: BTreeMap::new(alloc),
        }
    }

    /// How many partners there are.
    pub(crate) fn len(&self) -> usize
        ensures { result ≡ length self.now }
    {
        self.partners.len()
    }

    /// The partner with a code.
    pub(crate) fn find(&self, code: &[u8]) -> Option<&Partner>
        ensures { option_map (λ p. p.now) result ≡ partner_at code.now self.now }
    {
        let place = *self.places.get(code)?;
        self.partners.get(place)
    }

    /// Adds a partner with a new code. After an error the partners are unchanged.
    pub(crate) fn add(&mut self, alloc: Global, partner: Partner) -> Result<(), AllocError>
        requires { partner_at partner.code self.old ≡ None }
        ensures ok { OnOk result (self.new ≡ self.old ++ partner ∷ []) }
        ensures err { OnErr result (self.new ≡ self.old) }
    {
        let code = Vec::from_slice(alloc, partner.code.as_str().as_bytes())?;
        self.partners.reserve(1)?;
        self.places.insert(code, self.partners.len())?;
        self.partners.push(partner).unwrap();
        Ok(())
    }
}
