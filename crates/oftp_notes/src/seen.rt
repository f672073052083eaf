//! Lines of which each character can be seen.

ghost use Rattle.std.specs.Prelude.{◌≡◌, ◌++◌, IfOk, OnOk, string_bytes};
ghost use Rattle.oftp_notes.specs.Seen.{IsOneLine, is_seen, seen_line, seen_of, with_seen};

use std::alloc::{AllocError, Global};

/// From how many octets on a line is cut.
const LONGEST: usize = 2_000;

/// Whether a character can be seen: the printable ones of ASCII but for the backslash, and the letters and digits of all scripts.
#[tactic(auto, unfolding(crate::specs::Seen::is_seen))]
fn is_seen(c: char) -> bool
    ensures { result ≡ is_seen c }
{
    match c {
        '\\' => false,
        ' '..='~' => true,
        _ => '\u{a0}' <= c && c.is_alphanumeric(),
    }
}

/// Appends a character that can be seen as it is, and another as an escape.
fn add_char(c: char, line: &mut String) -> Result<(), AllocError>
    ensures { OnOk result (string_bytes line.new ≡ string_bytes line.old ++ seen_of c) }
{
    if is_seen(c) {
        line.push(c)
    } else {
        write!(line, "\\u{{{:x}}}", c as u32)
    }
}

/// Appends a character to a line that isn't too long.
fn add_seen(c: char, line: &mut String) -> Result<(), AllocError>
    ensures { OnOk result (string_bytes line.new ≡ with_seen (string_bytes line.old) c) }
{
    if line.len() < LONGEST {
        add_char(c, line)?;
    }
    Ok(())
}

/// The line of a text: each character that can't be seen as an escape, a text that is too long cut, and a line end.
///
/// # Errors
///
/// Out of memory.
#[tactic(auto, using(crate::proofs::Lines::taken_more, crate::proofs::Lines::seen_more, crate::proofs::Lines::seen_all))]
pub(crate) fn line_of(alloc: Global, text: &str) -> Result<String, AllocError>
    ensures { IfOk result (λ line. string_bytes line ≡ seen_line text.now) }
{
    let mut line = String::new(alloc);
    for c in text.chars() {
        add_seen(c, &mut line)?;
    }
    line.push('\n')?;
    Ok(line)
}

/// The line of a text that may have any characters. Each that can't be seen is an escape, from 2,000 octets on the text is cut, and one line end
/// is behind it.
///
/// # Errors
///
/// Out of memory.
pub fn seen_line(alloc: Global, text: &str) -> Result<String, AllocError>
    ensures text { IfOk result (λ line. string_bytes line ≡ seen_line text.now) }
    ensures alone { IfOk result (λ line. IsOneLine (string_bytes line)) }
{
    line_of(alloc, text)
}
