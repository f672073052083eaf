//! What becomes of the files of a session, by the octets of both sides.

use oftp_codec::{Deframer, LONGEST_FRAME, parse};
use oftp_watching::{Following, Moment, Speaker};
use oftp_wire::{Command, Layout, Sfid};
use std::alloc::{AllocError, Global};
use std::mem;

/// How many octets a block has.
const BLOCK: u64 = 1_024;

/// A file that is on its way.
#[derive(Drop)]
pub struct UnderWay {
    /// Its dataset name.
    pub dataset: String,
    /// How many octets of it went over connections, as far as that is known.
    pub octets: u64,
    /// How long it is, in blocks of 1,024 octets.
    pub blocks: u64,
    // How many octets a step of a restart position has; 0 where that isn't known.
    step: u64,
}

impl UnderWay {
    /// A file that is offered.
    fn of(alloc: Global, sfid: &Sfid<'_>) -> Result<UnderWay, AllocError> {
        Ok(UnderWay {
            dataset: String::from_str(alloc, sfid.dataset.text())?,
            octets: 0,
            blocks: sfid.size.get(),
            step: match sfid.layout {
                Layout::Fixed(longest) => longest.get(),
                Layout::Variable(_) => 0,
                Layout::Unstructured | Layout::Text => BLOCK,
            },
        })
    }
}

/// Follows a session by its octets, in the order in which they were read and said.
#[derive(Drop)]
pub struct Follower {
    alloc: Global,
    heard: Deframer,
    said: Deframer,
    following: Following,
    moments: Vec<Moment>,
    /// The code that the partner claimed in its first command.
    pub claimed: Option<String>,
    /// The file that is on its way.
    pub under_way: Option<UnderWay>,
}

impl Follower {
    /// Follows a session of which nothing was said.
    pub fn new(alloc: Global) -> Follower {
        Follower {
            alloc,
            heard: Deframer::new(alloc, LONGEST_FRAME),
            said: Deframer::new(alloc, LONGEST_FRAME),
            following: Following::Idle,
            moments: Vec::new(alloc),
            claimed: None,
            under_way: None,
        }
    }

    /// Takes in what the partner said. Octets that are no frames are passed over, as those for which there is no memory.
    pub fn heard(&mut self, piece: &[u8]) {
        let _ = self.heard.feed(piece);
        for _ in 0..LONGEST_FRAME.saturating_add(piece.len()) {
            let Ok(Some(frame)) = self.heard.next() else {
                break;
            };
            let Ok(command) = parse(frame) else {
                continue;
            };
            if self.claimed.is_none()
                && let Command::Ssid(ssid) = &command
            {
                self.claimed = String::from_str(self.alloc, ssid.code.text()).ok();
            }
            if let Some(moment) = self.following.hear(Speaker::Partner, &command) {
                let _ = self.moments.push(moment);
            }
            follow(self.alloc, &mut self.under_way, &command);
        }
    }

    /// Takes in what the station said.
    pub fn said(&mut self, piece: &[u8]) {
        let _ = self.said.feed(piece);
        for _ in 0..LONGEST_FRAME.saturating_add(piece.len()) {
            let Ok(Some(frame)) = self.said.next() else {
                break;
            };
            let Ok(command) = parse(frame) else {
                continue;
            };
            if let Some(moment) = self.following.hear(Speaker::Station, &command) {
                let _ = self.moments.push(moment);
            }
            follow(self.alloc, &mut self.under_way, &command);
        }
    }

    /// Takes what was told since the last time.
    pub fn take(&mut self) -> Vec<Moment> {
        mem::replace(&mut self.moments, Vec::new(self.alloc))
    }

    /// Takes in that the session is over. Returns what that tells.
    pub fn end(&mut self) -> Option<Moment> {
        mem::replace(&mut self.following, Following::Idle).end()
    }
}

/// Takes in what a command makes of the file that is on its way.
fn follow(alloc: Global, file: &mut Option<UnderWay>, command: &Command<'_>) {
    match command {
        Command::Sfid(sfid) => *file = UnderWay::of(alloc, sfid).ok(),
        Command::Sfpa(sfpa) => {
            if let Some(file) = file {
                file.octets = sfpa.restart.get().saturating_mul(file.step);
            }
        }
        Command::Data(octets) => {
            if let Some(file) = file {
                file.octets = file.octets.saturating_add(octets.octets().len() as u64);
            }
        }
        Command::Sfna(_) | Command::Efpa(_) | Command::Efna(_) => *file = None,
        _ => {}
    }
}
