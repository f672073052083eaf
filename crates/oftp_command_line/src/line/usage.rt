//! The texts about the program: its version, and the usage of each command.

use super::table::declarations;
use std::alloc::{AllocError, Global};

/// The line of the program's version, which CHANGELOG.md has too, with the schema of its databases.
pub const VERSION: &str = "oftp_station 1.0.0, schema 2";

/// The usage of each command, and what it does: lines without the last line end.
///
/// # Errors
/// Out of memory.
pub fn help(alloc: Global) -> Result<String, AllocError> {
    let mut text = String::from_str(alloc, "Usage:\n")?;
    for command in declarations() {
        let usage = command.usage;
        let about = command.about;
        write!(text, "  {usage}\n      {about}\n")?;
    }
    text.push_str("  oftp_station help\n      Prints this\n")?;
    text.push_str("  oftp_station version\n      Prints the version\n\n")?;
    text.push_str("'oftp_station COMMAND --help' describes the options of a command.")?;
    Ok(text)
}

/// The text for an unknown command.
pub(super) fn unknown_command(alloc: Global, name: &str) -> Result<String, AllocError> {
    let error = format!(in alloc; "error: unknown command '{name}'")?;
    usage_after(alloc, error.as_str())
}

/// An error with the usage of each command.
pub(super) fn usage_after(alloc: Global, error: &str) -> Result<String, AllocError> {
    let mut text = format!(in alloc; "{error}\n\nUsage:\n")?;
    for command in declarations() {
        let usage = command.usage;
        write!(text, "  {usage}\n")?;
    }
    Ok(text)
}
