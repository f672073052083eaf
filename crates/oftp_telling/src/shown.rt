//! Octets of a partner as an operator reads them: what can be seen as it is, all else as an escape.

ghost use Rattle.std.specs.Prelude.{◌≡◌, Some, ◌<◌};
ghost use Rattle.std.specs.List.{flat_map};
ghost use Rattle.std.specs.Str.{chars};
ghost use Rattle.std.specs.Fmt.{DisplaysOnOk};
ghost use Rattle.oftp_telling.specs.Shown.{is_seen, shown_char, hex_octet, is_plain, shown_octet, hex_text, hexadecimal_text, shown_chars, shown, quoted};

use std::fmt;
use ucd_category::GeneralCategory;
use ucd_derived::is_default_ignorable_code_point;

/// Whether a character can be seen, by its general category in Unicode. Of the spaces only U+0020 can.
#[tactic(auto, unfolding(crate::specs::Shown::is_seen))]
fn is_seen(c: char) -> bool
    ensures { result ≡ is_seen c }
{
    let is_seen = match GeneralCategory::for_char(c) {
        GeneralCategory::SpaceSeparator => c == ' ',
        GeneralCategory::LineSeparator
        | GeneralCategory::ParagraphSeparator
        | GeneralCategory::Control
        | GeneralCategory::Format
        | GeneralCategory::Surrogate
        | GeneralCategory::PrivateUse
        | GeneralCategory::Unassigned => false,
        _ => true,
    };
    is_seen && !is_default_ignorable_code_point(c)
}

/// Writes a character between quotes.
#[tactic(auto, unfolding(crate::specs::Shown::shown_char))]
fn write_char<W: fmt::Write>(f: &mut fmt::Formatter<W>, c: char) -> fmt::Result
    ensures { DisplaysOnOk W.write_str_gives f.old result (Some (shown_char c)) f.new }
{
    if c == '"' || c == '\\' {
        return write!(f, "\\{c}");
    }
    if is_seen(c) {
        return f.write_char(c);
    }
    let code = c as u32;
    write!(f, "\\u{{{code:x}}}")
}

/// Writes an octet in hexadecimal.
#[tactic(auto, unfolding(crate::specs::Shown::hex_octet))]
fn write_hex_octet<W: fmt::Write>(f: &mut fmt::Formatter<W>, octet: u8) -> fmt::Result
    ensures { DisplaysOnOk W.write_str_gives f.old result (Some (hex_octet octet)) f.new }
{
    let high = octet / 16;
    let low = octet % 16;
    write!(f, "{high:x}{low:x}")
}

/// Whether an octet is a character of ASCII that stands for itself between quotes.
fn is_plain(octet: u8) -> bool
    ensures { result ≡ is_plain octet }
{
    32 <= octet && octet <= 126 && octet != b'"' && octet != b'\\'
}

/// Writes an octet between quotes.
#[tactic(auto, unfolding(crate::specs::Shown::shown_octet))]
fn write_octet<W: fmt::Write>(f: &mut fmt::Formatter<W>, octet: u8) -> fmt::Result
    ensures { DisplaysOnOk W.write_str_gives f.old result (Some (shown_octet octet)) f.new }
{
    if is_plain(octet) {
        return f.write_char(char::from(octet));
    }
    f.write_str("\\x")?;
    write_hex_octet(f, octet)
}

/// Writes octets in hexadecimal.
fn write_hex<W: fmt::Write>(f: &mut fmt::Formatter<W>, octets: &[u8]) -> fmt::Result
    ensures { DisplaysOnOk W.write_str_gives f.old result (Some (hex_text octets.now)) f.new }
{
    for octet in octets {
        write_hex_octet(f, *octet)?;
    }
    Ok(())
}

/// Writes octets in hexadecimal, in brackets.
#[tactic(auto, unfolding(crate::specs::Shown::hexadecimal_text))]
pub(crate) fn write_hexadecimal<W: fmt::Write>(
    f: &mut fmt::Formatter<W>,
    octets: &[u8],
) -> fmt::Result
    ensures { DisplaysOnOk W.write_str_gives f.old result (Some (hexadecimal_text octets.now)) f.new }
{
    f.write_str(" (hexadecimal ")?;
    write_hex(f, octets)?;
    f.write_str(")")
}

/// Writes octets that aren't UTF-8 between quotes.
fn write_octets<W: fmt::Write>(f: &mut fmt::Formatter<W>, octets: &[u8]) -> fmt::Result
    ensures { DisplaysOnOk W.write_str_gives f.old result (Some (flat_map shown_octet octets.now)) f.new }
{
    for octet in octets {
        write_octet(f, *octet)?;
    }
    Ok(())
}

/// Writes a text between quotes.
fn write_text<W: fmt::Write>(f: &mut fmt::Formatter<W>, text: &str) -> fmt::Result
    ensures { DisplaysOnOk W.write_str_gives f.old result (Some (shown_chars (chars text.now))) f.new }
{
    for c in text.chars() {
        write_char(f, c)?;
    }
    Ok(())
}

/// Writes octets between quotes.
#[tactic(auto, using(crate::proofs::Written::utf8_test), unfolding(crate::specs::Shown::shown))]
pub(crate) fn write_shown<W: fmt::Write>(f: &mut fmt::Formatter<W>, octets: &[u8]) -> fmt::Result
    ensures { DisplaysOnOk W.write_str_gives f.old result (Some (shown octets.now)) f.new }
{
    match str::from_utf8(octets) {
        Ok(text) => write_text(f, text),
        Err(_) => write_octets(f, octets),
    }
}

/// Writes octets in quotes.
#[tactic(auto, unfolding(crate::specs::Shown::quoted))]
pub(crate) fn write_quoted<W: fmt::Write>(f: &mut fmt::Formatter<W>, octets: &[u8]) -> fmt::Result
    ensures { DisplaysOnOk W.write_str_gives f.old result (Some (quoted octets.now)) f.new }
{
    f.write_str("\"")?;
    write_shown(f, octets)?;
    f.write_str("\"")
}
