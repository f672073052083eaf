//! Commands: parsed and encoded.

use crate::octets::{Fields, joined, print_line};
use oftp_codec::{encode, header, parse};
use oftp_wire::{Command, WireFault};
use std::io;

/// Encodes a command into a buffer of octets ff. Prints whether this gives the octets that it was parsed from and nothing more, or what it
/// gives.
fn write_again(rt: &HostRuntime, command: &Command, octets: &[u8]) -> io::Result<()> {
    let mut out = Vec::new(rt.alloc());
    out.resize(octets.len().saturating_add(1), 0xff)?;
    let count = encode(command, &mut out);
    if count == Ok(octets.len()) && out.starts_with(octets) && out.ends_with(&[0xff]) {
        return println!(rt; "  written as read");
    }
    print!(rt; "  written {count:?}:")?;
    print_line(rt, " ", &out)
}

/// Prints the encoding of the parsed command.
pub fn write(rt: &HostRuntime, octets: &[u8]) -> io::Result<()> {
    match parse(octets) {
        Ok(command) => write_again(rt, &command, octets),
        Err(fault) => println!(rt; "  {fault:?}"),
    }
}

/// Prints a parsed command as text, and its encoding, or the fault of the octets.
pub fn read(rt: &HostRuntime, octets: &[u8]) -> io::Result<()> {
    match parse(octets) {
        Ok(command) => {
            println!(rt; "  {command}")?;
            write_again(rt, &command, octets)
        }
        Err(fault) => println!(rt; "  {fault:?}"),
    }
}

/// More octets than a command has without its payload.
const BESIDE: usize = 99;

/// Prints a command with its header. `payload` is the length of its payload, if it has one.
pub fn print_frame(rt: &HostRuntime, command: &Command, payload: usize) -> io::Result<()> {
    let mut out = Vec::new(rt.alloc());
    out.resize(payload.saturating_add(BESIDE), 0)?;
    let count = encode(command, &mut out).unwrap_or(0);
    let Some(head) = header(count) else {
        return println!(rt; "  no frame");
    };
    let mut frame = Vec::from_slice(rt.alloc(), &head)?;
    frame.extend_from_slice(out.get(..count).unwrap_or(&[]))?;
    print_line(rt, "  ", &frame)
}

/// Encodes a command into a buffer of octets 9 that is one octet too short, and prints the result.
pub fn room(rt: &HostRuntime, octets: &[u8]) -> io::Result<()> {
    let Ok(command) = parse(octets) else {
        return Ok(());
    };
    let mut out = Vec::new(rt.alloc());
    out.resize(octets.len().saturating_sub(1), b'9')?;
    print!(rt; "  {:?}:", encode(&command, &mut out))?;
    print_line(rt, " ", &out)
}

/// Prints what `read` prints, and each field of the command. This includes the password, which the command's text leaves out.
pub fn show(rt: &HostRuntime, octets: &[u8]) -> io::Result<()> {
    read(rt, octets)?;
    let Ok(command) = parse(octets) else {
        return Ok(());
    };
    println!(rt; "  {command:?}")?;
    match &command {
        Command::Ssid(ssid) => println!(rt; "  password {}", ssid.password),
        _ => Ok(()),
    }
}

/// Prints a fault. For a field it is the offset.
fn print_fault(rt: &HostRuntime, octets: &[u8]) -> io::Result<()> {
    match parse(octets) {
        Ok(_) => print!(rt; " none"),
        Err(WireFault::BadField(at)) => print!(rt; " {at}"),
        Err(fault) => print!(rt; " {fault:?}"),
    }
}

/// Sets an octet.
fn put(octets: &mut [u8], at: usize, octet: u8) {
    if let Some(first) = octets.get_mut(at) {
        *first = octet;
    }
}

/// Sets the first octet of each field, from the last field to the first, and prints the fault after each.
fn spoil(rt: &HostRuntime, fields: &[Vec<u8>], octet: u8) -> io::Result<()> {
    let mut octets = joined(rt.alloc(), fields)?;
    let mut at = octets.len();
    print!(rt; "  {octet:02x} from the right:")?;
    for field in fields.iter().rev() {
        at = at.saturating_sub(field.len());
        put(&mut octets, at, octet);
        print_fault(rt, &octets)?;
    }
    println!(rt)
}

/// Prints the other lengths, up to one octet more, for which the fault isn't the length.
fn cut(rt: &HostRuntime, octets: &[u8]) -> io::Result<()> {
    let mut longer = octets.to_vec(rt.alloc())?;
    longer.push(b' ')?;
    print!(rt; "  of a wrong length but at")?;
    for len in 1..=longer.len() {
        if parse(&longer[..len]).err() != Some(WireFault::WrongLength) {
            print!(rt; " {len}")?;
        }
    }
    println!(rt)
}

/// Prints the parsed command field by field, the faults of its fields, and those of other lengths.
pub fn fields(rt: &HostRuntime, fields: &Fields) -> io::Result<()> {
    let octets = joined(rt.alloc(), fields)?;
    show(rt, &octets)?;
    spoil(rt, fields, b'\n')?;
    spoil(rt, fields, 0xff)?;
    cut(rt, &octets)
}
