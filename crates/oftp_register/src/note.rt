//! The texts in a register.

ghost use Rattle.std.specs.Prelude.{◌≡◌, ◌≤◌, ℕ, List, length, IfOk, string_bytes};

use oftp_wire::Text;
use std::alloc::{AllocError, Global};
use std::marker::Model;

/// A text of 0 to 999 octets of UTF-8: the description of a file, or the text of a refusal.
#[derive(Drop)]
pub struct Note {
    text: String,
}

impl Model for Note {
    ghost use Rattle.std.specs.Prelude.{ℕ, List, string_bytes, length, ◌≤◌};

    ghost Value = { List ℕ };

    ghost view = { λ n. string_bytes n.text };

    ghost invariant = { λ n. length (string_bytes n.text) ≤ 999 };
}

impl Note {
    /// The text in a field, copied.
    ///
    /// # Errors
    ///
    /// Out of memory.
    pub fn of(alloc: Global, field: &Text<'_>) -> Result<Note, AllocError>
        ensures { IfOk result (λ n. n ≡ field.now) }
    {
        Ok(Note {
            text: String::from_str(alloc, field.text())?,
        })
    }

    /// A copy of the text.
    ///
    /// # Errors
    ///
    /// Out of memory.
    pub fn again(&self, alloc: Global) -> Result<Note, AllocError>
        ensures { IfOk result (λ n. n ≡ self.now) }
    {
        Ok(Note {
            text: String::from_str(alloc, self.as_str())?,
        })
    }

    /// The text.
    pub fn as_str(&self) -> &str
        ensures value { result.now ≡ self.now }
        ensures short { length self.now ≤ 999 }
    {
        self.text.as_str()
    }
}
