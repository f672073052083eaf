//! What shows on a terminal how far a command came.

use crate::beat::Beat;
use crate::extent::Extent;
use oftp_notes::Screen;
use std::io::{IsTerminal, Write};
use std::time::Instant;

/// What takes a line back from a terminal: the cursor goes to its beginning, and what stands behind that is erased.
pub const TAKE_BACK: &[u8] = b"\r\x1b[K";

/// What standard error is.
pub fn screen_of(rt: &HostRuntime) -> Screen {
    if rt.stderr().is_terminal() {
        Screen::Terminal
    } else {
        Screen::Other
    }
}

/// Shows how far a step of a command came, where standard error is a terminal. Each line stands in the place of the one before. The last one
/// of a step stays, and any other is taken back as the gauge is let go.
pub struct Gauge<'r> {
    rt: &'r HostRuntime,
    // When the step began; `None` where nothing is shown.
    began: Option<Instant>,
    beat: Beat,
    // Whether a line stands there that is to be taken back.
    stands: bool,
}

impl<'r> Gauge<'r> {
    /// That of a step that begins now.
    pub fn new(rt: &'r HostRuntime) -> Gauge<'r> {
        let began = match screen_of(rt) {
            Screen::Terminal => Instant::now(rt).ok(),
            Screen::Other => None,
        };
        Gauge {
            rt,
            began,
            beat: Beat::new(0),
            stands: false,
        }
    }

    /// Whether it shows something.
    pub fn shows(&self) -> bool {
        self.began.is_some()
    }

    /// Shows how far the step came, if a line is due.
    pub fn show(&mut self, extent: &Extent<'_>) {
        if let Some(moment) = self.moment()
            && let Ok(Some(line)) = self.beat.line_at(self.rt.alloc(), moment, extent)
        {
            put(self.rt, line.as_str().trim_end());
            self.stands = true;
        }
    }

    /// Shows how far the step came that is over, if it took a second or more.
    pub fn finish(&mut self, extent: &Extent<'_>) {
        if let Some(moment) = self.moment()
            && let Ok(Some(line)) = self.beat.last_line(self.rt.alloc(), moment, extent)
        {
            put(self.rt, line.as_str());
            self.stands = false;
        }
    }

    /// Takes back what stands there, so that other lines can be printed.
    pub fn take_back(&mut self) {
        if self.stands {
            put(self.rt, "");
            self.stands = false;
        }
    }

    /// The milliseconds since the step began. `None` where nothing is shown, or the clock can't be read.
    fn moment(&self) -> Option<u64> {
        let passed = self.began.as_ref()?.elapsed(self.rt).ok()?;
        u64::try_from(passed.as_millis()).ok()
    }
}

impl Drop for Gauge<'_> {
    fn drop(self) {
        let Gauge {
            rt,
            began: _,
            beat: _,
            stands,
        } = self;
        if stands {
            put(rt, "");
        }
    }
}

/// Puts a text in the place of the line that stands on the terminal.
fn put(rt: &HostRuntime, text: &str) {
    let mut terminal = rt.stderr();
    let _ = terminal.write_all(TAKE_BACK);
    let _ = terminal.write_all(text.as_bytes());
}
