//! When a command says how far it came.

ghost use Rattle.std.specs.Prelude.{◌≡◌, IfOk, option_map, string_bytes};
ghost use Rattle.oftp_progress.specs.Progress.{asked_at, from_moment, is_due, last_line, line_at};

use crate::extent::Extent;
use std::alloc::{AllocError, Global};

/// How many milliseconds are between two lines at least.
const PAUSE: u64 = 1_000;

/// When a step of a command began, and when it was said how far that came. Moments are milliseconds since the same beginning.
#[derive(Clone, Copy, Debug, PartialEq, Eq)]
pub struct Beat {
    began: u64,
    // The moment of the last line; that of the beginning before the first.
    said: u64,
}

impl Beat {
    /// That of a step that begins at this moment.
    pub fn new(moment: u64) -> Beat
        ensures { result ≡ from_moment moment }
    {
        Beat {
            began: moment,
            said: moment,
        }
    }

    // Whether a line is due at this moment.
    fn is_due(self, moment: u64) -> bool
        ensures { result ≡ is_due self moment }
    {
        moment.saturating_sub(self.said) >= PAUSE
    }

    /// The line at this moment of a step that goes on and came so far, if one is due. It is due once a second has passed since the last
    /// line, or since the step began.
    ///
    /// # Errors
    ///
    /// Out of memory. The line counts as said.
    pub fn line_at(
        &mut self,
        alloc: Global,
        moment: u64,
        extent: &Extent<'_>,
    ) -> Result<Option<String>, AllocError>
        ensures line { IfOk result (λ line. option_map string_bytes line ≡ line_at self.old moment extent.now) }
        ensures beat { self.new ≡ asked_at self.old moment }
    {
        if !self.is_due(moment) {
            return Ok(None);
        }
        self.said = moment;
        Ok(Some(extent.to_line(alloc)?))
    }

    /// The last line of a step that ends at this moment and came so far, if it took a second or more.
    ///
    /// # Errors
    ///
    /// Out of memory.
    pub fn last_line(
        self,
        alloc: Global,
        moment: u64,
        extent: &Extent<'_>,
    ) -> Result<Option<String>, AllocError>
        ensures { IfOk result (λ line. option_map string_bytes line ≡ last_line self moment extent.now) }
    {
        if moment.saturating_sub(self.began) < PAUSE {
            return Ok(None);
        }
        Ok(Some(extent.to_line(alloc)?))
    }
}
