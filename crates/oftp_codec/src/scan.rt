//! Checks and values of a field's octets.

ghost use Rattle.std.specs.Prelude.{◌≡◌, ℕ, ◌+◌, ◌*◌, ◌^◌, ◌<◌, ◌≤◌, ◌==◌, length, take, drop, true, false, IfOk, IfErr, MatchResult, IfSome, IfNone};
ghost use Rattle.std.specs.List.{list_all, prefix_len};
ghost use Rattle.oftp_wire.specs.Octets.{part, is_allowed, is_digit, is_padded, value_of, number, IsName};

use oftp_wire::{WireFault, is_allowed};

/// The octets of a field, or `WrongLength` where it extends past the end.
pub(crate) fn part_of(frame: &[u8], at: usize, len: usize) -> Result<&[u8], WireFault>
    requires { at + len < 2 ^ 63 }
    ensures value { IfOk result (λ w. w.now ≡ part at len frame.now) }
    ensures within { IfOk result (λ w. (at + len ≤ length frame.now) × (length w.now ≡ len)) }
    ensures err { IfErr result (λ e. (e ≡ WireFault.WrongLength) × (length frame.now < at + len)) }
{
    if frame.len() < at + len {
        return Err(WireFault::WrongLength);
    }
    Ok(&frame[at..at + len])
}

/// The number of allowed characters at the beginning.
fn front_len(field: &[u8]) -> usize
    ensures value { result ≡ prefix_len is_allowed field.now }
    ensures within { result ≤ length field.now }
{
    field.iter().take_while(|c| is_allowed(**c)).count()
}

/// Whether all octets are spaces.
fn all_spaces(field: &[u8]) -> bool
    ensures { result ≡ list_all (λ c. c == 32) field.now }
{
    field.iter().all(|c| *c == b' ')
}

/// The value of a padded field, or `None` where anything but spaces follows it.
#[tactic(auto, using(crate::proofs::Scans::value_allowed))]
pub(crate) fn value_of(field: &[u8]) -> Option<&[u8]>
    ensures none { IfNone result (is_padded field.now ≡ false) }
    ensures value { IfSome result (λ v. (is_padded field.now ≡ true) × (v.now ≡ value_of field.now)) }
    ensures name { IfSome result (λ v. IsName (length field.now) v.now) }
{
    let (text, rest) = field.split_at(front_len(field));
    if all_spaces(rest) { Some(text) } else { None }
}

/// The number that digits stand for.
pub(crate) fn number_of(field: &[u8]) -> u64
    requires digits { list_all is_digit field.now ≡ true }
    requires short { length field.now ≤ 19 }
    ensures value { result ≡ number field.now }
    ensures fits { result < 10 ^ length field.now }
{
    let mut n: u64 = 0;
    for c in field {
        n = n * 10 + u64::from(*c - b'0');
    }
    n
}
