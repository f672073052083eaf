//! What RFC 5024 calls the reasons, and how an operator reads them.

ghost use Rattle.std.specs.Prelude.{◌≡◌, Some};
ghost use Rattle.std.specs.Fmt.{DisplaysOnOk};
ghost use Rattle.oftp_wire.specs.Reasons.{two_digits, start_phrase, end_phrase, session_phrase, negative_phrase, told_as, start_text, end_text, session_text, negative_text};

use crate::field::Count;
use std::fmt;

/// What a reason of SFNA is called (RFC 5024, section 5.3.5). Nothing for a number that isn't listed.
#[tactic(auto, unfolding(crate::specs::Reasons::start_phrase))]
pub fn start_phrase(number: Count<2>) -> &'static str
    ensures { result.now ≡ start_phrase number }
{
    match number.get() {
        1 => "invalid filename",
        2 => "invalid destination",
        3 => "invalid origin",
        4 => "storage record format not supported",
        5 => "maximum record length not supported",
        6 => "file size too big",
        10 => "invalid record count",
        11 => "invalid byte count",
        12 => "access method failure",
        13 => "duplicate file",
        14 => "file direction refused",
        15 => "cipher suite not supported",
        16 => "encrypted file not allowed",
        17 => "unencrypted file not allowed",
        18 => "compression not allowed",
        19 => "signed file not allowed",
        20 => "unsigned file not allowed",
        99 => "unspecified",
        _ => "",
    }
}

/// What a reason of EFNA is called: as one of SFNA, and three of its own (section 5.3.10).
#[tactic(auto, unfolding(crate::specs::Reasons::end_phrase))]
pub fn end_phrase(number: Count<2>) -> &'static str
    ensures { result.now ≡ end_phrase number }
{
    match number.get() {
        21 => "invalid file signature",
        22 => "file decryption failure",
        23 => "file decompression failure",
        _ => start_phrase(number),
    }
}

/// What a reason of ESID is called (section 5.3.11).
#[tactic(auto, unfolding(crate::specs::Reasons::session_phrase))]
pub fn session_phrase(number: Count<2>) -> &'static str
    ensures { result.now ≡ session_phrase number }
{
    match number.get() {
        0 => "normal",
        1 => "command not recognised",
        2 => "protocol violation",
        3 => "user code not known",
        4 => "invalid password",
        5 => "local site emergency close down",
        6 => "invalid data",
        7 => "buffer size error",
        8 => "resources not available",
        9 => "time out",
        10 => "mode or capabilities incompatible",
        11 => "invalid challenge response",
        12 => "secure authentication requirements incompatible",
        99 => "unspecified abort code",
        _ => "",
    }
}

/// What a reason of NERP is called (section 5.3.14).
#[tactic(auto, unfolding(crate::specs::Reasons::negative_phrase))]
pub fn negative_phrase(number: Count<2>) -> &'static str
    ensures { result.now ≡ negative_phrase number }
{
    match number.get() {
        3 => "user code not known",
        4 => "invalid password",
        9 => "unspecified reason",
        11 => "invalid file name",
        12 => "invalid destination",
        13 => "invalid origin",
        14 => "invalid storage record format",
        15 => "maximum record length not supported",
        16 => "file size too big",
        20 => "invalid record count",
        21 => "invalid byte count",
        22 => "access method failure",
        23 => "duplicate file",
        24 => "file direction refused",
        25 => "cipher suite not supported",
        26 => "encrypted file not allowed",
        27 => "unencrypted file not allowed",
        28 => "compression not allowed",
        29 => "signed file not allowed",
        30 => "unsigned file not allowed",
        31 => "file signature not valid",
        32 => "file decompression failed",
        33 => "file decryption failed",
        34 => "file processing failed",
        35 => "not delivered to recipient",
        36 => "not acknowledged by recipient",
        50 => "transmission stopped by the operator",
        90 => "file size incompatible with recipient's protocol version",
        99 => "unspecified reason",
        _ => "",
    }
}

/// Writes a number in two digits.
fn write_two_digits<W: fmt::Write>(f: &mut fmt::Formatter<W>, number: Count<2>) -> fmt::Result
    ensures { DisplaysOnOk W.write_str_gives f.old result (Some (two_digits number)) f.new }
{
    let number = number.get();
    write!(f, "{}{}", number / 10, number % 10)
}

/// Writes a number and what it is called.
fn write_told<W: fmt::Write>(
    f: &mut fmt::Formatter<W>,
    number: Count<2>,
    phrase: &str,
) -> fmt::Result
    ensures { DisplaysOnOk W.write_str_gives f.old result (Some (told_as number phrase.now)) f.new }
{
    if phrase.is_empty() {
        f.write_str("unknown reason ")?;
        return write_two_digits(f, number);
    }
    write_two_digits(f, number)?;
    write!(f, " {phrase}")
}

/// Writes a reason of SFNA.
#[tactic(auto, unfolding(crate::specs::Reasons::start_text))]
pub(crate) fn write_start_reason<W: fmt::Write>(
    f: &mut fmt::Formatter<W>,
    number: Count<2>,
) -> fmt::Result
    ensures { DisplaysOnOk W.write_str_gives f.old result (Some (start_text number)) f.new }
{
    write_told(f, number, start_phrase(number))
}

/// Writes a reason of EFNA.
#[tactic(auto, unfolding(crate::specs::Reasons::end_text))]
pub(crate) fn write_end_reason<W: fmt::Write>(
    f: &mut fmt::Formatter<W>,
    number: Count<2>,
) -> fmt::Result
    ensures { DisplaysOnOk W.write_str_gives f.old result (Some (end_text number)) f.new }
{
    write_told(f, number, end_phrase(number))
}

/// Writes a reason of ESID.
#[tactic(auto, unfolding(crate::specs::Reasons::session_text))]
pub(crate) fn write_session_reason<W: fmt::Write>(
    f: &mut fmt::Formatter<W>,
    number: Count<2>,
) -> fmt::Result
    ensures { DisplaysOnOk W.write_str_gives f.old result (Some (session_text number)) f.new }
{
    write_told(f, number, session_phrase(number))
}

/// Writes a reason of NERP.
#[tactic(auto, unfolding(crate::specs::Reasons::negative_text))]
pub(crate) fn write_negative_reason<W: fmt::Write>(
    f: &mut fmt::Formatter<W>,
    number: Count<2>,
) -> fmt::Result
    ensures { DisplaysOnOk W.write_str_gives f.old result (Some (negative_text number)) f.new }
{
    write_told(f, number, negative_phrase(number))
}
