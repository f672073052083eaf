//! The memory of a deframer, a stream in a million pieces, and one that is cut in one call.

use oftp_codec::{Deframer, FrameFault, cut};
use std::alloc::{AllocError, Global};
use std::process::Abort;
use std::test::Fail;

/// The greatest length of a frame.
const LIMIT: usize = 100_003;

/// The frames of RTR, CD and CDT.
const STREAM: [u8; 17] = [
    0x10, 0, 0, 5, 0x50, 0x10, 0, 0, 5, 0x52, 0x10, 0, 0, 7, 0x43, 0x20, 0x20,
];

/// Feeds a piece, and compares the whole commands with those of `STREAM`, of which `count` came before. Returns the count after it.
fn take_piece(
    rt: &impl Abort,
    deframer: &mut Deframer,
    piece: &[u8],
    mut count: usize,
) -> Result<usize, FrameFault> {
    let commands: [&[u8]; 3] = [&[0x50], &[0x52], &[0x43, 0x20, 0x20]];
    deframer.feed(piece)?;
    for _ in 0..commands.len() {
        if let Some(command) = deframer.next()? {
            assert!(rt; count < commands.len());
            assert!(rt; command == commands[count]);
            count += 1;
        }
    }
    Ok(count)
}

/// Feeds `STREAM` in pieces of two octets.
fn take_twos(rt: &impl Abort, deframer: &mut Deframer) -> Result<(), FrameFault> {
    let mut count = 0;
    for piece in STREAM.chunks(2) {
        count = take_piece(rt, deframer, piece, count)?;
    }
    assert!(rt; count == 3);
    Ok(())
}

/// Feeds `STREAM` as four octets, one and the rest.
fn take_three(rt: &impl Abort, deframer: &mut Deframer) -> Result<(), FrameFault> {
    let mut count = 0;
    for piece in [&STREAM[..4], &STREAM[4..5], &STREAM[5..]] {
        count = take_piece(rt, deframer, piece, count)?;
    }
    assert!(rt; count == 3);
    Ok(())
}

/// Feeds `STREAM` in one piece, in pieces of two octets, and as four octets, one and the rest.
fn take_cuts(rt: &impl Abort, deframer: &mut Deframer) -> Result<(), FrameFault> {
    assert!(rt; take_piece(rt, deframer, &STREAM, 0)? == 3);
    take_twos(rt, deframer)?;
    take_three(rt, deframer)
}

/// This is also run with each allocation refused from some number on. Either the reservation is refused, or the test passes, since nothing
/// is allocated after `with_room`. With a deframer of `new` it fails, since the first allocation is refused.
#[test]
fn no_memory_within_room(rt: HostRuntime) -> Result<(), Fail> {
    let Ok(mut deframer) = Deframer::with_room(rt.alloc(), LIMIT, 17) else {
        return Err("no memory was reserved")?;
    };
    assert!(rt; deframer.room() == 17);
    take_cuts(&rt, &mut deframer)?;
    assert!(rt; deframer.capacity() == 34);
    Ok(())
}

/// The longest frame.
fn long_frame(alloc: Global) -> Result<Vec<u8>, AllocError> {
    let mut frame = Vec::from_slice(alloc, &[0x10, 1, 0x86, 0xA3])?;
    frame.resize(LIMIT, b'D')?;
    Ok(frame)
}

/// Feeds it octet by octet.
fn take_octets(rt: &impl Abort, deframer: &mut Deframer, frame: &[u8]) -> Result<(), FrameFault> {
    for octet in frame {
        assert!(rt; matches!(deframer.next(), Ok(None)));
        deframer.feed(&[*octet])?;
    }
    assert!(rt; matches!(deframer.next(), Ok(Some(command)) if command.len() == 99_999));
    Ok(())
}

#[test]
fn million_pieces_of_one_octet(rt: HostRuntime) -> Result<(), Fail> {
    let frame = long_frame(rt.alloc())?;
    let mut deframer = Deframer::new(rt.alloc(), LIMIT);
    for _ in 0..10 {
        take_octets(&rt, &mut deframer, frame.as_slice())?;
    }
    Ok(())
}

#[test]
fn fault_behind_a_command(rt: HostRuntime) -> Result<(), Fail> {
    let read = cut(
        rt.alloc(),
        100_003,
        &[&[0x10, 0, 0], &[5, 0x50, 0x11], &[0x10]],
    )?;
    assert_eq!(rt; read.commands.len(), 1);
    assert!(rt; read.commands[0].as_slice() == [0x50].as_slice());
    assert!(rt; read.fault == Some(FrameFault::BadHeader));
    Ok(())
}
