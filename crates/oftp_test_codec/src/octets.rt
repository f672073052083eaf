//! Octets as text. A letter, a digit or another character stands for itself, and `\` with two hexadecimal digits for an octet. `N*` repeats
//! what follows N times, `+` joins such parts, and `
//! ` separates fields.

ghost use Rattle.std.specs.Prelude.{◌<◌};

use std::alloc::{AllocError, Global};
use std::io;

/// The octets of fields.
pub type Fields = Vec<Vec<u8>>;

/// The value of a hexadecimal digit, 0 for another octet.
fn digit(octet: u8) -> u8
    ensures { result < 16 }
{
    match octet {
        b'0'..=b'9' => octet - b'0',
        b'a'..=b'f' => octet - b'a' + 10,
        _ => 0,
    }
}

/// Adds an octet from two hexadecimal digits, and the characters after them.
fn add_spelled(octets: &mut Vec<u8>, text: &[u8]) -> Result<(), AllocError> {
    if let [high, low, rest @ ..] = text {
        octets.push(digit(*high) * 16 + digit(*low))?;
        octets.extend_from_slice(rest)?;
    }
    Ok(())
}

/// Adds a part without a count.
fn add_once(octets: &mut Vec<u8>, part: &str) -> Result<(), AllocError> {
    let mut pieces = part.split('\\');
    if let Some(first) = pieces.next() {
        octets.extend_from_slice(first.as_bytes())?;
    }
    for piece in pieces {
        add_spelled(octets, piece.as_bytes())?;
    }
    Ok(())
}

/// Adds a part as many times as its count says.
fn add(octets: &mut Vec<u8>, part: &str) -> Result<(), AllocError> {
    let Some((count, part)) = part.split_once('*') else {
        return add_once(octets, part);
    };
    for _ in 0..count.parse::<u32>().unwrap_or(0) {
        add_once(octets, part)?;
    }
    Ok(())
}

/// The octets of a field.
fn field_of(alloc: Global, text: &str) -> Result<Vec<u8>, AllocError> {
    let mut octets = Vec::new(alloc);
    for part in text.split('+') {
        add(&mut octets, part)?;
    }
    Ok(octets)
}

/// The fields of a text.
pub fn fields_of(alloc: Global, text: &str) -> Result<Fields, AllocError> {
    let mut fields = Vec::new(alloc);
    for field in text.split('|') {
        fields.push(field_of(alloc, field)?)?;
    }
    Ok(fields)
}

/// The octets of fields, one after another.
pub fn joined(alloc: Global, fields: &[Vec<u8>]) -> Result<Vec<u8>, AllocError> {
    let mut octets = Vec::new(alloc);
    for field in fields {
        octets.extend_from_slice(field)?;
    }
    Ok(octets)
}

/// Prints an octet.
fn print_octet(rt: &HostRuntime, octet: u8) -> io::Result<()> {
    if octet.is_ascii_alphanumeric() || octet == b' ' {
        print!(rt; "{}", char::from(octet))
    } else {
        print!(rt; "\\{octet:02x}")
    }
}

/// The number of equal octets at the front, or 1 if there are fewer than four.
fn run_of(octets: &[u8], first: u8) -> usize {
    let run = octets.iter().take_while(|octet| **octet == first).count();
    if run < 4 { 1 } else { run }
}

/// Prints an octet, with a count if it is repeated.
fn print_run(rt: &HostRuntime, octet: u8, run: usize) -> io::Result<()> {
    if run > 1 {
        print!(rt; "{run}*")?;
    }
    print_octet(rt, octet)
}

/// Prints octets as text, with a count for four or more equal ones.
pub fn print(rt: &HostRuntime, octets: &[u8]) -> io::Result<()> {
    let mut rest = octets;
    let mut before = 1;
    for _ in 0..octets.len() {
        let Some(first) = rest.first() else {
            break;
        };
        let run = run_of(rest, *first);
        if rest.len() < octets.len() && (run > 1 || before > 1) {
            print!(rt; "+")?;
        }
        print_run(rt, *first, run)?;
        rest = rest.get(run..).unwrap_or(&[]);
        before = run;
    }
    Ok(())
}

/// Prints octets in brackets.
pub fn print_whole(rt: &HostRuntime, octets: &[u8]) -> io::Result<()> {
    print!(rt; " (")?;
    print(rt, octets)?;
    print!(rt; ")")
}

/// Prints the rest of a line: a word, and octets.
pub fn print_line(rt: &HostRuntime, word: &str, octets: &[u8]) -> io::Result<()> {
    print!(rt; "{word}")?;
    print(rt, octets)?;
    println!(rt)
}
