//! What the events of a station say of one file.

ghost use Rattle.std.specs.Prelude.{◌≡◌, OnOk, fold};
ghost use Rattle.oftp_history.specs.Histories.{new_history, with_end, with_line, with_octet, with_part, with_past};
ghost use Rattle.oftp_history.specs.Proofs.{standing_by};

use crate::past::{LONGEST_LINE, PastEvent};
use crate::standing::standing_by;
use oftp_events::Direction;
use oftp_status::Standing;
use std::alloc::{AllocError, Global};
use std::marker::Model;

/// What was read of one file. The octets of the events come in pieces, which may end anywhere, and may be no events at all.
#[derive(Drop)]
pub struct FileHistory {
    alloc: Global,
    way: Direction,
    no: u64,
    line: Vec<u8>,
    events: Vec<PastEvent>,
    passed: u64,
}

impl Model for FileHistory {
    ghost use Rattle.oftp_history.specs.Histories.{HistoryRead};

    ghost Value = { HistoryRead };

    ghost view = { λ h. record { way = h.way; no = h.no; line = h.line.items; events = h.events.items; passed = h.passed } };
}

impl FileHistory {
    /// Of the file that goes this way under this number nothing was read.
    pub fn new(alloc: Global, way: Direction, no: u64) -> FileHistory
        ensures { result ≡ new_history way no }
    {
        FileHistory {
            alloc,
            way,
            no,
            line: Vec::new(alloc),
            events: Vec::new(alloc),
            passed: 0,
        }
    }

    /// Takes the next octets.
    ///
    /// # Errors
    ///
    /// Out of memory: some of the octets were taken.
    pub fn take(&mut self, piece: &[u8]) -> Result<(), AllocError>
        ensures { OnOk result (self.new ≡ fold with_octet self.old piece.now) }
    {
        for octet in piece {
            self.take_octet(*octet)?;
        }
        Ok(())
    }

    /// Takes the end of the octets, which ends a line too.
    ///
    /// # Errors
    ///
    /// Out of memory.
    pub fn end(&mut self) -> Result<(), AllocError>
        ensures { OnOk result (self.new ≡ with_end self.old) }
    {
        if self.line.is_empty() {
            return Ok(());
        }
        self.end_line()
    }

    /// Which way the file goes.
    pub fn way(&self) -> Direction
        ensures { result ≡ self.now.way }
    {
        self.way
    }

    /// The file's number.
    pub fn no(&self) -> u64
        ensures { result ≡ self.now.no }
    {
        self.no
    }

    /// The events of the file, in the order of their lines.
    pub fn events(&self) -> &[PastEvent]
        ensures { result.now ≡ self.now.events }
    {
        self.events.as_slice()
    }

    /// How many lines were no events.
    pub fn passed(&self) -> u64
        ensures { result ≡ self.now.passed }
    {
        self.passed
    }

    /// How the file stands by its events, if they say that.
    pub fn standing(&self) -> Option<Standing>
        ensures { result ≡ standing_by self.now.way self.now.events }
    {
        standing_by(self.way, self.events.as_slice())
    }

    // Takes an octet.
    fn take_octet(&mut self, octet: u8) -> Result<(), AllocError>
        ensures { OnOk result (self.new ≡ with_octet self.old octet) }
    {
        if octet == b'\n' {
            self.end_line()
        } else {
            self.take_part(octet)
        }
    }

    // Takes an octet of a line. Of one that is too long no more than one octet above is kept.
    fn take_part(&mut self, octet: u8) -> Result<(), AllocError>
        ensures { OnOk result (self.new ≡ with_part self.old octet) }
    {
        if self.line.len() <= LONGEST_LINE {
            self.line.push(octet)?;
        }
        Ok(())
    }

    // Ends a line.
    fn end_line(&mut self) -> Result<(), AllocError>
        ensures { OnOk result (self.new ≡ with_line self.old) }
    {
        let event = PastEvent::read(self.alloc, self.line.as_slice())?;
        self.line.clear();
        self.take_event(event)
    }

    // Takes the event of a line, or a line that is none.
    fn take_event(&mut self, event: Option<PastEvent>) -> Result<(), AllocError>
        ensures { OnOk result (self.new ≡ with_past event self.old) }
    {
        match event {
            None => self.passed = self.passed.saturating_add(1),
            Some(event) => {
                if event.is_about(self.way, self.no, self.events.as_slice()) {
                    self.events.push(event)?;
                }
            }
        }
        Ok(())
    }
}
