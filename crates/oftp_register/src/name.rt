//! The names and digits in a register. They allocate nothing.

ghost use Rattle.std.specs.Prelude.{◌≡◌, ◌≤◌, length};
ghost use Rattle.std.specs.Str.{bytes_eq};
ghost use Rattle.oftp_wire.specs.Octets.{IsName, IsDigits};

use arrayvec::ArrayVec;
use oftp_wire::{Digits, X};
use std::marker::Model;

/// A name of 0 to N allowed characters that owns its octets. An [`X`] field borrows them from a frame.
#[derive(Drop)]
pub struct Name<const N: usize> {
    octets: ArrayVec<u8, N>,
}

impl<const N: usize> Model for Name<N> {
    ghost use Rattle.std.specs.Prelude.{ℕ, List};
    ghost use Rattle.oftp_wire.specs.Octets.{IsName};

    ghost Value = { List ℕ };

    ghost view = { λ x. x.octets.items };

    ghost invariant = { λ x. IsName N x.octets.items };
}

/// Exactly N digits that own their octets. A [`Digits`] field borrows them from a frame.
#[derive(Drop)]
pub struct DigitString<const N: usize> {
    octets: ArrayVec<u8, N>,
}

impl<const N: usize> Model for DigitString<N> {
    ghost use Rattle.std.specs.Prelude.{ℕ, List};
    ghost use Rattle.oftp_wire.specs.Octets.{IsDigits};

    ghost Value = { List ℕ };

    ghost view = { λ x. x.octets.items };

    ghost invariant = { λ x. IsDigits N x.octets.items };
}

// An array with these octets, which fit into it.
fn kept<const N: usize>(octets: &[u8]) -> ArrayVec<u8, N>
    requires { length octets.now ≤ N }
    ensures { result.items ≡ octets.now }
{
    let mut array = ArrayVec::new();
    let _ = array.try_extend_from_slice(octets);
    array
}

impl<const N: usize> Name<N> {
    /// The name in a field.
    pub fn of(field: &X<'_, N>) -> Name<N>
        ensures { result ≡ field.now }
    {
        Name {
            octets: kept(field.octets()),
        }
    }

    /// The characters of the name.
    pub fn octets(&self) -> &[u8]
        ensures value { result.now ≡ self.now }
        ensures name { IsName N self.now }
    {
        self.octets.as_slice()
    }

    /// A copy of the name.
    pub fn again(&self) -> Name<N>
        ensures { result ≡ self.now }
    {
        Name {
            octets: kept(self.octets()),
        }
    }

    /// Whether both have the same characters.
    pub fn is(&self, other: &Name<N>) -> bool
        ensures { result ≡ bytes_eq self.now other.now }
    {
        self.octets() == other.octets()
    }
}

impl<const N: usize> DigitString<N> {
    /// The digits in a field.
    pub fn of(field: &Digits<'_, N>) -> DigitString<N>
        ensures { result ≡ field.now }
    {
        DigitString {
            octets: kept(field.octets()),
        }
    }

    /// The digits.
    pub fn octets(&self) -> &[u8]
        ensures value { result.now ≡ self.now }
        ensures digits { IsDigits N self.now }
    {
        self.octets.as_slice()
    }

    /// A copy of the digits.
    pub fn again(&self) -> DigitString<N>
        ensures { result ≡ self.now }
    {
        DigitString {
            octets: kept(self.octets()),
        }
    }

    /// Whether both have the same digits.
    pub fn is(&self, other: &DigitString<N>) -> bool
        ensures { result ≡ bytes_eq self.now other.now }
    {
        self.octets() == other.octets()
    }
}
