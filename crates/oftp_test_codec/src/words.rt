//! Reasons and faults, by number and as text.

use oftp_codec::FrameFault;
use oftp_vfile::{LocalFault, TakeFault};
use oftp_wire::{Count, EndReason, SessionReason, StartReason, WireFault};
use std::io;

/// Prints the reasons of SFNA.
fn start_reasons(rt: &HostRuntime) -> io::Result<()> {
    for number in 0..100 {
        if let Some(reason) = StartReason::from_number(Count::new(number)) {
            println!(rt; "  {number} {reason:?} {}: {reason}", reason.number())?;
        }
    }
    Ok(())
}

/// Prints the reasons of EFNA.
fn end_reasons(rt: &HostRuntime) -> io::Result<()> {
    for number in 0..100 {
        if let Some(reason) = EndReason::from_number(Count::new(number)) {
            println!(rt; "  {number} {reason:?} {}: {reason}", reason.number())?;
        }
    }
    Ok(())
}

/// Prints the reasons of ESID.
fn session_reasons(rt: &HostRuntime) -> io::Result<()> {
    for number in 0..100 {
        if let Some(reason) = SessionReason::from_number(Count::new(number)) {
            println!(rt; "  {number} {reason:?} {}: {reason}", reason.number())?;
        }
    }
    Ok(())
}

/// Prints the faults of a command, with the reason in ESID for each.
fn wire_faults(rt: &HostRuntime) -> io::Result<()> {
    for fault in [
        WireFault::UnknownCommand,
        WireFault::WrongLength,
        WireFault::BadField(18),
        WireFault::BadText,
        WireFault::NoRoom,
    ] {
        println!(rt; "  {fault:?}: {fault}, {:?}", fault.reason())?;
    }
    Ok(())
}

/// Prints the faults of a stream.
fn frame_faults(rt: &HostRuntime) -> io::Result<()> {
    for fault in [
        FrameFault::BadHeader,
        FrameFault::BadLength,
        FrameFault::Memory,
    ] {
        println!(rt; "  {fault:?}: {fault}")?;
    }
    Ok(())
}

/// Prints the faults of a payload.
fn take_faults(rt: &HostRuntime) -> io::Result<()> {
    for fault in [
        TakeFault::Cut,
        TakeFault::Compressed,
        TakeFault::RecordSize,
        TakeFault::AfterEnd,
        TakeFault::TooBig,
        TakeFault::Memory,
    ] {
        println!(rt; "  {fault:?}: {fault}")?;
    }
    Ok(())
}

/// Prints the faults of a local form.
fn local_faults(rt: &HostRuntime) -> io::Result<()> {
    for fault in [LocalFault::NotLocal, LocalFault::Memory] {
        println!(rt; "  {fault:?}: {fault}")?;
    }
    Ok(())
}

/// Prints a list as text. Nothing for another call, such as a remark.
pub fn answer(rt: &HostRuntime, list: &str) -> io::Result<()> {
    match list {
        "start-reasons" => start_reasons(rt),
        "end-reasons" => end_reasons(rt),
        "session-reasons" => session_reasons(rt),
        "wire-faults" => wire_faults(rt),
        "frame-faults" => frame_faults(rt),
        "take-faults" => take_faults(rt),
        "local-faults" => local_faults(rt),
        _ => Ok(()),
    }
}
