//! The program of a station, as the text of an opening.

ghost use Rattle.std.specs.Prelude.{◌≡◌, IfOk, option_map, string_bytes};
ghost use Rattle.oftp_contents.specs.Programs.{program_text, sources_in, version_in};

use std::alloc::{AllocError, Global};

/// What stands before the sum of the sources in its line.
pub const SOURCES: &str = "sources ";

/// The text of an opening: the version of the program, a line end, and the line with the sum of its sources.
///
/// # Errors
/// Out of memory.
pub fn program_text(alloc: Global, version: &str, line: &str) -> Result<String, AllocError>
    ensures { IfOk result (λ text. string_bytes text ≡ program_text version.now line.now) }
{
    format!(in alloc; "{version}\n{line}")
}

/// The version of the program in the text of an opening: what is before the first line end.
pub fn version_in(text: &str) -> &str
    ensures { result.now ≡ version_in text.now }
{
    match text.split_once('\n') {
        Some((version, _)) => version,
        None => text,
    }
}

/// The sum of the sources in the text of an opening, as octets, if it has one.
#[tactic(auto, using(crate::proofs::ProgramLemmas::short_line))]
pub fn sources_in(text: &str) -> Option<&[u8]>
    ensures { option_map (λ sum. sum.now) result ≡ sources_in text.now }
{
    let (_, line) = text.split_once('\n')?;
    let (word, sum) = line.as_bytes().split_at_checked(SOURCES.len())?;
    if word == SOURCES.as_bytes() {
        Some(sum)
    } else {
        None
    }
}
