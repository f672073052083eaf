//! The errors of the system, by Linux's numbers, in the system's words.

ghost use Rattle.std.specs.Prelude.{◌≡◌, Some};
ghost use Rattle.oftp_notes.specs.System.{system_text, system_words};

use std::fmt;

/// An error of the system, by its number (errno).
#[derive(Clone, Copy, Debug, PartialEq, Eq, Drop)]
pub struct SystemError(pub u32);

/// The words of an error with this number, or nothing for a number that isn't in the table.
#[tactic(auto, unfolding(crate::specs::System::system_words))]
fn system_words(number: u32) -> &'static str
    ensures { result.now ≡ system_words number }
{
    match number {
        1 => "Operation not permitted",
        2 => "No such file or directory",
        5 => "Input/output error",
        6 => "No such device or address",
        11 => "Resource temporarily unavailable",
        12 => "Cannot allocate memory",
        13 => "Permission denied",
        16 => "Device or resource busy",
        17 => "File exists",
        18 => "Invalid cross-device link",
        19 => "No such device",
        20 => "Not a directory",
        21 => "Is a directory",
        22 => "Invalid argument",
        23 => "Too many open files in system",
        24 => "Too many open files",
        26 => "Text file busy",
        27 => "File too large",
        28 => "No space left on device",
        30 => "Read-only file system",
        32 => "Broken pipe",
        36 => "File name too long",
        40 => "Too many levels of symbolic links",
        97 => "Address family not supported by protocol",
        98 => "Address already in use",
        99 => "Cannot assign requested address",
        100 => "Network is down",
        101 => "Network is unreachable",
        103 => "Software caused connection abort",
        104 => "Connection reset by peer",
        105 => "No buffer space available",
        110 => "Connection timed out",
        111 => "Connection refused",
        112 => "Host is down",
        113 => "No route to host",
        122 => "Disk quota exceeded",
        _ => "",
    }
}

impl fmt::Display for SystemError {
    ghost output = { λ error. Some (system_text error) };

    fn fmt<W: fmt::Write>(&self, f: &mut fmt::Formatter<W>) -> fmt::Result {
        let words = system_words(self.0);
        if words.is_empty() {
            return write!(f, "error {} of the system", self.0);
        }
        f.write_str(words)
    }
}
