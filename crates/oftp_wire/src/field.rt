//! The fields of commands, each within its range (RFC 5024, section 5.3).

ghost use Rattle.std.specs.Prelude.{◌≡◌, ◌<◌, ◌≤◌, ◌^◌, length, IfSome, IfNone};
ghost use Rattle.std.specs.Str.{IsUtf8};
ghost use Rattle.oftp_wire.specs.Octets.{IsName, IsDigits};

use crate::scan::{all_allowed, all_digits};
use std::marker::Model;

/// A value of a field X(N): 0 to N characters, of `0` to `9`, `A` to `Z`, `/`, `-`, `.`, `&`, `(` and `)`.
#[derive(Drop)]
pub struct X<'a, const N: usize> {
    pub(crate) text: &'a [u8],
}

impl<'a, const N: usize> Model for X<'a, N> {
    ghost use Rattle.std.specs.Prelude.{ℕ, List};
    ghost use Rattle.oftp_wire.specs.Octets.{IsName};

    ghost Value = { List ℕ };

    ghost view = { λ x. x.text.now };

    ghost invariant = { λ x. IsName N x.text.now };
}

impl<'a, const N: usize> PartialEq for X<'a, N> {
    ghost use Rattle.std.specs.Str.{bytes_eq};
    ghost use Rattle.std.specs.Cmp.Rules.{comparing};
    ghost use Rattle.std.proofs.Common.{rules};

    ghost eq = { bytes_eq };

    ghost laws = { Prim.search (comparing, rules) };

    fn eq(&self, other: &Self) -> bool {
        self.text == other.text
    }
}

impl<'a, const N: usize> X<'a, N> {
    /// The value, or `None` where it is longer than N octets or has a character that isn't allowed.
    pub fn new(text: &'a [u8]) -> Option<X<'a, N>>
        ensures none { IfNone result (IsName N text.now → ⊥) }
        ensures value { IfSome result (λ x. (x ≡ text.now) × IsName N text.now) }
    {
        if text.len() <= N && all_allowed(text) {
            Some(X { text })
        } else {
            None
        }
    }

    /// The characters, without the padding.
    pub fn octets(&self) -> &'a [u8]
        ensures value { result.now ≡ self.now }
        ensures name { IsName N self.now }
    {
        self.text
    }

    /// The characters as a `str`.
    pub fn text(&self) -> &'a str
        ensures { result.now ≡ self.now }
    {
        str::from_utf8(self.text).unwrap()
    }

    /// A copy of the value.
    pub fn again(&self) -> X<'a, N>
        ensures { result ≡ self.now }
    {
        X { text: self.text }
    }
}

/// A value of a field 9(N) that is kept as digits: exactly N digits, as a date or a time has.
#[derive(Drop)]
pub struct Digits<'a, const N: usize> {
    pub(crate) text: &'a [u8],
}

impl<'a, const N: usize> Model for Digits<'a, N> {
    ghost use Rattle.std.specs.Prelude.{ℕ, List};
    ghost use Rattle.oftp_wire.specs.Octets.{IsDigits};

    ghost Value = { List ℕ };

    ghost view = { λ x. x.text.now };

    ghost invariant = { λ x. IsDigits N x.text.now };
}

impl<'a, const N: usize> PartialEq for Digits<'a, N> {
    ghost use Rattle.std.specs.Str.{bytes_eq};
    ghost use Rattle.std.specs.Cmp.Rules.{comparing};
    ghost use Rattle.std.proofs.Common.{rules};

    ghost eq = { bytes_eq };

    ghost laws = { Prim.search (comparing, rules) };

    fn eq(&self, other: &Self) -> bool {
        self.text == other.text
    }
}

impl<'a, const N: usize> Digits<'a, N> {
    /// The value, or `None` where it isn't N digits.
    pub fn new(text: &'a [u8]) -> Option<Digits<'a, N>>
        ensures none { IfNone result (IsDigits N text.now → ⊥) }
        ensures value { IfSome result (λ x. (x ≡ text.now) × IsDigits N text.now) }
    {
        if text.len() == N && all_digits(text) {
            Some(Digits { text })
        } else {
            None
        }
    }

    /// The digits.
    pub fn octets(&self) -> &'a [u8]
        ensures value { result.now ≡ self.now }
        ensures digits { IsDigits N self.now }
    {
        self.text
    }

    /// The digits as a `str`.
    pub fn text(&self) -> &'a str
        ensures { result.now ≡ self.now }
    {
        str::from_utf8(self.text).unwrap()
    }

    /// A copy of the value.
    pub fn again(&self) -> Digits<'a, N>
        ensures { result ≡ self.now }
    {
        Digits { text: self.text }
    }
}

/// A value of a field 9(N) that is a number: 0 to 10^N - 1.
#[derive(Clone, Copy, Debug, PartialEq, Eq)]
pub struct Count<const N: usize> {
    pub(crate) value: u64,
}

impl<const N: usize> Model for Count<N> {
    ghost use Rattle.std.specs.Prelude.{ℕ, ◌<◌, ◌^◌};

    ghost Value = { ℕ };

    ghost view = { λ x. x.value };

    ghost invariant = { λ x. x.value < 10 ^ N };

    ghost inverse = { λ v. record { value = v } };
}

impl<const N: usize> Count<N> {
    /// A number of at most N digits: `value` must be below 10^N.
    pub fn new(value: u64) -> Count<N>
        requires { value < 10 ^ N }
        ensures { result ≡ value }
    {
        Count { value }
    }

    /// The number.
    pub fn get(self) -> u64
        ensures value { result ≡ self.entry }
        ensures fits { result < 10 ^ N }
    {
        self.value
    }
}

/// A value of a field T(n): a text of 0 to 999 octets of UTF-8.
#[derive(Drop)]
pub struct Text<'a> {
    pub(crate) text: &'a str,
}

impl<'a> Model for Text<'a> {
    ghost use Rattle.std.specs.Prelude.{ℕ, List, length, ◌≤◌};

    ghost Value = { List ℕ };

    ghost view = { λ x. x.text.now };

    ghost invariant = { λ x. length x.text.now ≤ 999 };
}

impl<'a> PartialEq for Text<'a> {
    ghost use Rattle.std.specs.Str.{bytes_eq};
    ghost use Rattle.std.specs.Cmp.Rules.{comparing};
    ghost use Rattle.std.proofs.Common.{rules};

    ghost eq = { bytes_eq };

    ghost laws = { Prim.search (comparing, rules) };

    fn eq(&self, other: &Self) -> bool {
        self.text == other.text
    }
}

impl<'a> Text<'a> {
    /// The text, or `None` where it has more than 999 octets.
    pub fn new(text: &'a str) -> Option<Text<'a>>
        ensures none { IfNone result (999 < length text.now) }
        ensures value { IfSome result (λ t. (t ≡ text.now) × (length text.now ≤ 999)) }
        ensures utf8 { IsUtf8 text.now }
    {
        let octets = text.as_bytes();
        if octets.len() <= 999 {
            Some(Text { text })
        } else {
            None
        }
    }

    /// The text.
    pub fn text(&self) -> &'a str
        ensures value { result.now ≡ self.now }
        ensures short { length self.now ≤ 999 }
        ensures utf8 { IsUtf8 self.now }
    {
        // The contract of `as_bytes` says that each text is UTF-8.
        let _octets = self.text.as_bytes();
        self.text
    }

    /// A copy of the text.
    pub fn again(&self) -> Text<'a>
        ensures { result ≡ self.now }
    {
        Text { text: self.text }
    }
}

/// A payload: octets of any content and number.
#[derive(Drop)]
pub struct Octets<'a> {
    pub(crate) octets: &'a [u8],
}

impl<'a> Model for Octets<'a> {
    ghost use Rattle.std.specs.Prelude.{ℕ, List};

    ghost Value = { List ℕ };

    ghost view = { λ x. x.octets.now };
}

impl<'a> PartialEq for Octets<'a> {
    ghost use Rattle.std.specs.Str.{bytes_eq};
    ghost use Rattle.std.specs.Cmp.Rules.{comparing};
    ghost use Rattle.std.proofs.Common.{rules};

    ghost eq = { bytes_eq };

    ghost laws = { Prim.search (comparing, rules) };

    fn eq(&self, other: &Self) -> bool {
        self.octets == other.octets
    }
}

impl<'a> Octets<'a> {
    /// These octets.
    pub fn new(octets: &'a [u8]) -> Octets<'a>
        ensures { result ≡ octets.now }
    {
        Octets { octets }
    }

    /// The octets.
    pub fn octets(&self) -> &'a [u8]
        ensures { result.now ≡ self.now }
    {
        self.octets
    }

    /// A copy of the octets.
    pub fn again(&self) -> Octets<'a>
        ensures { result ≡ self.now }
    {
        Octets {
            octets: self.octets,
        }
    }
}
