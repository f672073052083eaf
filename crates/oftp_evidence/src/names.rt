//! Names and digits as texts.

ghost use Rattle.std.specs.Prelude.{◌≡◌};
ghost use Rattle.oftp_evidence.specs.Folders.{format_letter};

use oftp_register::{DigitString, Name};
use oftp_vfile::Format;

/// A name as a text.
pub(crate) fn name_text<const N: usize>(name: &Name<N>) -> &str
    ensures { result.now ≡ name.now }
{
    str::from_utf8(name.octets()).unwrap()
}

/// Digits as a text.
pub(crate) fn digit_text<const N: usize>(digits: &DigitString<N>) -> &str
    ensures { result.now ≡ digits.now }
{
    str::from_utf8(digits.octets()).unwrap()
}

/// The letter of a format.
pub(crate) fn format_letter(format: Format) -> &'static str
    ensures { result.now ≡ format_letter format }
{
    match format {
        Format::Fixed => "F",
        Format::Variable => "V",
        Format::Unstructured => "U",
        Format::Text => "T",
    }
}
