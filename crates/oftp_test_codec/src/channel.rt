//! The channel: requests and answers, written and read.

use crate::line::Line;
use crate::octets::{print_line, print_whole};
use oftp_channel::{
    AnswerPart, Ending, Outlet, PieceWriter, ReadFault, Word, lacking, read_part, read_ready,
    read_request, words_fit, write_end, write_ready, write_words,
};
use oftp_io::Port;
use std::io::{self, Write};

/// The message that octets are read as.
#[derive(Clone, Copy, Drop)]
enum Heard {
    Ready,
    Request,
    Part,
}

/// A port that reads these octets.
fn port_of(octets: &[u8]) -> Port<&[u8]> {
    Port::new(octets, u64::MAX)
}

/// The error of reading these octets, if there is one.
fn fault_of(rt: &HostRuntime, heard: Heard, octets: &[u8]) -> Option<ReadFault> {
    let mut port = port_of(octets);
    let alloc = rt.alloc();
    match heard {
        Heard::Ready => read_ready(alloc, &mut port).err(),
        Heard::Request => read_request(alloc, &mut port).err(),
        Heard::Part => read_part(alloc, &mut port).err(),
    }
}

/// Prints the result of reading for a number of lengths in a row.
fn print_lengths(rt: &HostRuntime, count: u32, fault: Option<ReadFault>) -> io::Result<()> {
    match fault {
        Some(fault) => print!(rt; " {count}*{fault:?}"),
        None => print!(rt; " {count}*read"),
    }
}

/// Prints the results of reading octets that are cut at each length, from 0 on.
fn print_cuts(rt: &HostRuntime, heard: Heard, octets: &[u8]) -> io::Result<()> {
    print!(rt; "  cut:")?;
    let mut before = fault_of(rt, heard, &[]);
    let mut count = 0u32;
    for length in 0..=octets.len() {
        let fault = fault_of(rt, heard, &octets[..length]);
        if fault != before {
            print_lengths(rt, count, before)?;
            before = fault;
            count = 0;
        }
        count = count.saturating_add(1);
    }
    print_lengths(rt, count, before)?;
    println!(rt)
}

/// Prints the octets of a request with these words.
fn ask(rt: &HostRuntime, words: &[Vec<u8>]) -> io::Result<()> {
    let mut lent = Vec::new(rt.alloc());
    for word in words {
        lent.push(Word::Octets(word))?;
    }
    let mut port = Port::new(Vec::new(rt.alloc()), 0);
    if words_fit(&lent) && write_words(&mut port, &lent) {
        print_line(rt, "  ", port.inner())
    } else {
        println!(rt; "  no request")
    }
}

/// Prints the words of the request at the front of the octets, and the results for octets that are cut.
fn asked(rt: &HostRuntime, octets: &[u8]) -> io::Result<()> {
    let mut port = port_of(octets);
    match read_request(rt.alloc(), &mut port) {
        Ok(words) => {
            for word in &words {
                print!(rt; "  word")?;
                print_whole(rt, word)?;
                println!(rt)?;
            }
            println!(rt;
                "  {} words, {} octets left",
                words.len(),
                port.inner().len()
            )?;
        }
        Err(fault) => println!(rt; "  {fault:?}")?,
    }
    print_cuts(rt, Heard::Request, octets)
}

/// Prints the least number of octets that complete a request, if it is cut at each length; `-` if the octets can't begin a request.
fn print_lacking(rt: &HostRuntime, octets: &[u8]) -> io::Result<()> {
    print!(rt; "  lacking:")?;
    for length in 0..=octets.len() {
        match lacking(&octets[..length]) {
            Ok(count) => print!(rt; " {count}")?,
            Err(_) => print!(rt; " -")?,
        }
    }
    println!(rt)
}

/// Prints the octets of an answer: a piece for each outlet, and the end.
fn tell(rt: &HostRuntime, pieces: &[Vec<u8>]) -> io::Result<()> {
    let mut answer = Vec::new(rt.alloc());
    for (place, octets) in pieces.iter().enumerate() {
        let outlet = match place {
            0 => Outlet::Output,
            _ => Outlet::Content,
        };
        PieceWriter::new(Port::new(&mut answer, 0), outlet).write_all(octets)?;
    }
    let mut port = Port::new(&mut answer, 0);
    if write_end(&mut port, Ending::Listed) {
        print_line(rt, "  ", &answer)
    } else {
        println!(rt; "  no answer")
    }
}

/// Prints how a request ended.
fn print_ending(rt: &HostRuntime, ending: Ending) -> io::Result<()> {
    match ending {
        Ending::Outcome(outcome) => println!(rt; "  End {outcome}"),
        Ending::Failed(fault) => println!(rt; "  End {fault}"),
        Ending::Listed | Ending::Same | Ending::Other => println!(rt; "  End {ending:?}"),
    }
}

/// Prints a part of an answer. Returns whether more may follow.
fn print_part(rt: &HostRuntime, part: Result<AnswerPart, ReadFault>) -> io::Result<bool> {
    match part {
        Ok(AnswerPart::Piece(outlet, octets)) => {
            print!(rt; "  {outlet:?}")?;
            print_whole(rt, &octets)?;
            println!(rt)?;
            Ok(true)
        }
        Ok(AnswerPart::End(ending)) => {
            print_ending(rt, ending)?;
            Ok(false)
        }
        Err(fault) => {
            println!(rt; "  {fault:?}")?;
            Ok(false)
        }
    }
}

/// Prints the parts of the answer at the front of the octets, up to its end.
fn told(rt: &HostRuntime, octets: &[u8]) -> io::Result<()> {
    let mut port = port_of(octets);
    for _ in 0..=octets.len() {
        if !print_part(rt, read_part(rt.alloc(), &mut port))? {
            break;
        }
    }
    println!(rt; "  {} octets left", port.inner().len())
}

/// Prints the octets that are written for an ending.
fn print_written(rt: &HostRuntime, ending: Ending) -> io::Result<()> {
    let mut port = Port::new(Vec::new(rt.alloc()), 0);
    if write_end(&mut port, ending) {
        print_line(rt, "  ", port.inner())
    } else {
        println!(rt; "  no end")
    }
}

/// Prints the end of an answer at the front of the octets, and the octets that are written for it.
fn ended(rt: &HostRuntime, octets: &[u8]) -> io::Result<()> {
    let mut port = port_of(octets);
    let part = read_part(rt.alloc(), &mut port);
    match &part {
        Ok(AnswerPart::End(ending)) => {
            print_ending(rt, *ending)?;
            print_written(rt, *ending)
        }
        Ok(AnswerPart::Piece(outlet, _)) => println!(rt; "  {outlet:?}"),
        Err(fault) => println!(rt; "  {fault:?}"),
    }
}

/// Prints the octets of the ready message.
fn ready(rt: &HostRuntime) -> io::Result<()> {
    let mut port = Port::new(Vec::new(rt.alloc()), 0);
    println!(rt; "  {}", write_ready(&mut port))?;
    print_line(rt, "  ", port.inner())
}

/// Carries out a call of the channel.
pub fn answer(rt: &HostRuntime, line: &mut Line) -> io::Result<()> {
    match line.word() {
        "ask" => ask(rt, &line.words(rt.alloc())?),
        "asked" => asked(rt, &line.octets(rt.alloc())?),
        "lacking" => print_lacking(rt, &line.octets(rt.alloc())?),
        "tell" => tell(rt, &line.words(rt.alloc())?),
        "told" => told(rt, &line.octets(rt.alloc())?),
        "ended" => ended(rt, &line.octets(rt.alloc())?),
        "part" => print_cuts(rt, Heard::Part, &line.octets(rt.alloc())?),
        "hear" => print_cuts(rt, Heard::Ready, &line.octets(rt.alloc())?),
        _ => ready(rt),
    }
}
