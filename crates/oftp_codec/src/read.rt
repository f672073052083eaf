//! The readers of fields. Each gets the offset of a field, and returns its value or the fault.

ghost use Rattle.std.specs.Prelude.{◌≡◌, ℕ, ◌+◌, ◌*◌, ◌^◌, ◌<◌, ◌≤◌, ◌==◌, length, true, false, [], ◌∷◌, Some, None, IfOk, IfErr};
ghost use Rattle.std.specs.List.{list_all};
ghost use Rattle.oftp_wire.specs.Octets.{part, is_digit, is_padded, value_of, number};
ghost use Rattle.oftp_codec.specs.Form.{fault_of, Digits as digit_field, Return, Reserved};
ghost use Rattle.oftp_codec.specs.Reading.{name_at, digits_at, count_at, text_at, last_text_at, skipped_at, ends_at, flag_at, mode_at, format_at, layout_at, rest_at, zero16_form, ready_form};

use crate::format::Format;
use crate::scan::{number_of, part_of, value_of};
use oftp_wire::{Count, Digits, Layout, Mode, Octets, Text, WireFault, X, all_digits};

/// The value of a field X(N).
#[tactic(auto, unfolding(crate::specs::Reading::name_at, crate::specs::Form::fault_of))]
pub(crate) fn name_at<'a, const N: usize>(frame: &'a [u8], at: usize) -> Result<X<'a, N>, WireFault>
    requires { at + N < 2 ^ 63 }
    ensures { result ≡ name_at N at frame.now }
{
    let field = part_of(frame, at, N)?;
    let Some(text) = value_of(field) else {
        return Err(WireFault::BadField(at));
    };
    X::new(text).ok_or(WireFault::BadField(at))
}

/// The octets of a field of digits.
#[tactic(auto, unfolding(crate::specs::Form::fault_of))]
fn digits_of(frame: &[u8], at: usize, len: usize) -> Result<&[u8], WireFault>
    requires { at + len < 2 ^ 63 }
    ensures value { IfOk result (λ w. w.now ≡ part at len frame.now) }
    ensures digits { IfOk result (λ w. (list_all is_digit w.now ≡ true) × (length w.now ≡ len)) }
    ensures fine { IfOk result (λ w. fault_of (digit_field len) at frame.now ≡ None) }
    ensures fault { IfErr result (λ e. fault_of (digit_field len) at frame.now ≡ Some e) }
{
    let field = part_of(frame, at, len)?;
    if !all_digits(field) {
        return Err(WireFault::BadField(at));
    }
    Ok(field)
}

/// The digits of a field 9(N).
#[tactic(auto, unfolding(crate::specs::Reading::digits_at))]
pub(crate) fn digits_at<'a, const N: usize>(
    frame: &'a [u8],
    at: usize,
) -> Result<Digits<'a, N>, WireFault>
    requires { at + N < 2 ^ 63 }
    ensures { result ≡ digits_at N at frame.now }
{
    let text = digits_of(frame, at, N)?;
    Digits::new(text).ok_or(WireFault::BadField(at))
}

/// The number of a field 9(N).
#[tactic(auto, unfolding(crate::specs::Reading::count_at))]
pub(crate) fn count_at<const N: usize>(frame: &[u8], at: usize) -> Result<Count<N>, WireFault>
    requires short { N ≤ 19 }
    requires within { at + N < 2 ^ 63 }
    ensures { result ≡ count_at N at frame.now }
{
    let field = digits_of(frame, at, N)?;
    Ok(Count::new(number_of(field)))
}

/// A text of the length in the field before it.
#[tactic(auto, using(crate::proofs::Scans::utf8_test), unfolding(crate::specs::Reading::text_at, crate::specs::Form::fault_of))]
pub(crate) fn text_at(frame: &[u8], at: usize, len: Count<3>) -> Result<Text<'_>, WireFault>
    requires { at < 2 ^ 62 }
    ensures { result ≡ text_at len at frame.now }
{
    let field = part_of(frame, at, len.get() as usize)?;
    match str::from_utf8(field) {
        Ok(text) => Text::new(text).ok_or(WireFault::BadText),
        Err(_) => Err(WireFault::BadText),
    }
}

/// A text after its length field, as the last field of a command.
#[tactic(auto, unfolding(crate::specs::Reading::last_text_at))]
pub(crate) fn last_text_at(frame: &[u8], at: usize) -> Result<Text<'_>, WireFault>
    requires { at < 2 ^ 61 }
    ensures { result ≡ last_text_at at frame.now }
{
    let len = count_at::<3>(frame, at)?;
    let text = text_at(frame, at + 3, len)?;
    ends_at(frame, at + 3 + len.get() as usize)?;
    Ok(text)
}

/// A reserved field, with any octets.
#[tactic(auto, unfolding(crate::specs::Reading::skipped_at, crate::specs::Form::fault_of))]
pub(crate) fn reserved_at(frame: &[u8], at: usize, len: usize) -> Result<(), WireFault>
    requires { at + len < 2 ^ 63 }
    ensures { result ≡ skipped_at (Reserved len) at frame.now }
{
    part_of(frame, at, len)?;
    Ok(())
}

/// A carriage return, 0D or 8D.
#[tactic(auto, unfolding(crate::specs::Reading::skipped_at, crate::specs::Form::fault_of))]
pub(crate) fn return_at(frame: &[u8], at: usize) -> Result<(), WireFault>
    requires { at < 2 ^ 62 }
    ensures { result ≡ skipped_at Return at frame.now }
{
    match part_of(frame, at, 1)? {
        [0x0d] | [0x8d] => Ok(()),
        _ => Err(WireFault::BadField(at)),
    }
}

/// The end of the command: no octet is left.
#[tactic(auto, unfolding(crate::specs::Reading::ends_at, crate::specs::Form::end_fault))]
pub(crate) fn ends_at(frame: &[u8], at: usize) -> Result<(), WireFault>
    ensures { result ≡ ends_at at frame.now }
{
    if frame.len() != at {
        return Err(WireFault::WrongLength);
    }
    Ok(())
}

/// A length of two octets, of a hash or a signature, which must be 0.
#[tactic(auto, unfolding(crate::specs::Reading::skipped_at, crate::specs::Form::fault_of))]
pub(crate) fn zero_at(frame: &[u8], at: usize) -> Result<(), WireFault>
    requires { at < 2 ^ 62 }
    ensures { result ≡ skipped_at zero16_form at frame.now }
{
    match part_of(frame, at, 2)? {
        [0, 0] => Ok(()),
        _ => Err(WireFault::BadField(at)),
    }
}

/// Y or N.
#[tactic(auto, unfolding(crate::specs::Reading::flag_at, crate::specs::Form::fault_of))]
pub(crate) fn flag_at(frame: &[u8], at: usize) -> Result<bool, WireFault>
    requires { at < 2 ^ 62 }
    ensures { result ≡ flag_at at frame.now }
{
    match part_of(frame, at, 1)? {
        [b'Y'] => Ok(true),
        [b'N'] => Ok(false),
        _ => Err(WireFault::BadField(at)),
    }
}

/// S, R or B.
#[tactic(auto, unfolding(crate::specs::Reading::mode_at, crate::specs::Form::fault_of))]
pub(crate) fn mode_at(frame: &[u8], at: usize) -> Result<Mode, WireFault>
    requires { at < 2 ^ 62 }
    ensures { result ≡ mode_at at frame.now }
{
    match part_of(frame, at, 1)? {
        [b'S'] => Ok(Mode::Send),
        [b'R'] => Ok(Mode::Receive),
        [b'B'] => Ok(Mode::Both),
        _ => Err(WireFault::BadField(at)),
    }
}

/// F, V, U or T.
#[tactic(auto, unfolding(crate::specs::Reading::format_at, crate::specs::Form::fault_of))]
pub(crate) fn format_at(frame: &[u8], at: usize) -> Result<Format, WireFault>
    requires { at < 2 ^ 62 }
    ensures { result ≡ format_at at frame.now }
{
    match part_of(frame, at, 1)? {
        [b'F'] => Ok(Format::Fixed),
        [b'V'] => Ok(Format::Variable),
        [b'U'] => Ok(Format::Unstructured),
        [b'T'] => Ok(Format::Text),
        _ => Err(WireFault::BadField(at)),
    }
}

/// The longest record of a format, which is 0 in a format without records.
#[tactic(auto, unfolding(crate::specs::Reading::layout_at, crate::specs::Reading::count_at, crate::specs::Form::fault_of))]
pub(crate) fn layout_at(frame: &[u8], at: usize, format: Format) -> Result<Layout, WireFault>
    requires { at < 2 ^ 62 }
    ensures { result ≡ layout_at format at frame.now }
{
    let longest = count_at::<5>(frame, at)?;
    match format {
        Format::Fixed => Ok(Layout::Fixed(longest)),
        Format::Variable => Ok(Layout::Variable(longest)),
        _ if longest.get() != 0 => Err(WireFault::BadField(at)),
        Format::Unstructured => Ok(Layout::Unstructured),
        Format::Text => Ok(Layout::Text),
    }
}

/// The text of SSRM.
#[tactic(auto, unfolding(crate::specs::Reading::skipped_at, crate::specs::Form::fault_of))]
pub(crate) fn ready_at(frame: &[u8], at: usize) -> Result<(), WireFault>
    requires { at < 2 ^ 62 }
    ensures { result ≡ skipped_at ready_form at frame.now }
{
    if part_of(frame, at, 17)? != b"ODETTE FTP READY ".as_slice() {
        return Err(WireFault::BadField(at));
    }
    Ok(())
}

/// The octets up to the end.
#[tactic(auto, unfolding(crate::specs::Reading::rest_at, crate::specs::Form::fault_of))]
pub(crate) fn rest_at(frame: &[u8], at: usize) -> Result<Octets<'_>, WireFault>
    requires { at < 2 ^ 62 }
    ensures { result ≡ rest_at at frame.now }
{
    if frame.len() < at {
        return Err(WireFault::WrongLength);
    }
    let (_, octets) = frame.split_at(at);
    Ok(Octets::new(octets))
}
