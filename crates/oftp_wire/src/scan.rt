//! Checks of a field's octets.

ghost use Rattle.std.specs.Prelude.{◌≡◌};
ghost use Rattle.std.specs.List.{list_all};
ghost use Rattle.oftp_wire.specs.Octets.{is_allowed, is_digit};

/// Whether a character is allowed in a field X(n).
#[tactic(auto, unfolding(crate::specs::Octets::is_allowed))]
pub fn is_allowed(c: u8) -> bool
    ensures { result ≡ is_allowed c }
{
    matches!(c, b'0'..=b'9' | b'A'..=b'Z' | b'/' | b'-' | b'.' | b'&' | b'(' | b')')
}

/// Whether each character is allowed in a field X(n).
pub(crate) fn all_allowed(text: &[u8]) -> bool
    ensures { result ≡ list_all is_allowed text.now }
{
    text.iter().all(|c| is_allowed(*c))
}

/// Whether all octets are digits.
pub fn all_digits(field: &[u8]) -> bool
    ensures { result ≡ list_all is_digit field.now }
{
    field.iter().all(|c| c.is_ascii_digit())
}
