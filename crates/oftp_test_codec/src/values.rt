//! The values of fields.

use crate::line::Line;
use crate::octets::print_line;
use oftp_wire::{Digits, Octets, Text, X};
use std::io;

/// Prints a name of at most five characters.
fn name(rt: &HostRuntime, octets: &[u8]) -> io::Result<()> {
    match X::<5>::new(octets) {
        Some(name) => println!(rt; "  {}, {:?}", name.again(), name.octets() == octets),
        None => println!(rt; "  none"),
    }
}

/// Prints eight digits.
fn digits(rt: &HostRuntime, octets: &[u8]) -> io::Result<()> {
    match Digits::<8>::new(octets) {
        Some(digits) => println!(rt; "  {}", digits.again()),
        None => println!(rt; "  none"),
    }
}

/// Prints a text as it is displayed.
fn text(rt: &HostRuntime, octets: &[u8]) -> io::Result<()> {
    match std::str::from_utf8(octets)
        .ok()
        .and_then(|text| Text::new(text))
    {
        Some(text) => println!(rt; "  {}", text.again()),
        None => println!(rt; "  none"),
    }
}

/// Prints each character that a name may contain.
fn characters(rt: &HostRuntime) -> io::Result<()> {
    print!(rt; "  ")?;
    for octet in 0..=255u8 {
        if X::<1>::new(&[octet]).is_some() {
            print!(rt; "{}", char::from(octet))?;
        }
    }
    println!(rt)
}

/// Prints the value of a field with these octets.
pub fn answer(rt: &HostRuntime, line: &mut Line) -> io::Result<()> {
    let kind = line.word();
    let octets = line.octets(rt.alloc())?;
    match kind {
        "name" => name(rt, &octets),
        "digits" => digits(rt, &octets),
        "text" => text(rt, &octets),
        "octets" => print_line(rt, "  ", Octets::new(&octets).again().octets()),
        _ => characters(rt),
    }
}
