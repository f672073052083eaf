//! The arguments after the program's name, and the options among them that no command's line has.

use oftp_notes::Wanted;
use std::{env, io};

/// The option of each command that asks for notes.
const NOTES: &str = "--notes";

/// The option of `check` that asks for each thing that is found in a book.
const EXPLAIN: &str = "--explain";

/// The option of `check` that has hosts looked up.
const RESOLVE: &str = "--resolve";

/// The command whose line has the last two.
const CHECK: &str = "check";

/// The arguments of the program.
#[derive(Drop)]
pub(crate) struct Words {
    /// Those that a command's line has.
    pub(crate) line: Vec<String>,
    /// Whether notes are asked for.
    pub(crate) notes: Wanted,
    /// Whether all of a book is to be explained.
    pub(crate) explain: Wanted,
    /// Whether hosts are to be looked up.
    pub(crate) resolve: Wanted,
}

impl Words {
    /// Takes one more word.
    fn take(&mut self, word: String) -> io::Result<()> {
        let is_taken = takes(&mut self.notes, NOTES, word.as_str());
        if !is_taken && !self.takes_for_check(word.as_str()) {
            self.line.push(word)?;
        }
        Ok(())
    }

    /// Whether a word is an option of `check` that its line hasn't.
    fn takes_for_check(&mut self, word: &str) -> bool {
        is_check(self.line.first())
            && (takes(&mut self.explain, EXPLAIN, word) || takes(&mut self.resolve, RESOLVE, word))
    }
}

/// Whether a word is this option, which comes for the first time.
fn takes(wanted: &mut Wanted, option: &str, word: &str) -> bool {
    let before = *wanted;
    *wanted = before.after(option, word);
    before == Wanted::NotYet && *wanted == Wanted::ByOption
}

/// Whether a command is the one that explains a book.
fn is_check(first: Option<&String>) -> bool {
    match first {
        Some(word) => word.as_str() == CHECK,
        None => false,
    }
}

/// The arguments after the program's name.
///
/// # Errors
/// One isn't UTF-8; out of memory.
pub(crate) fn words_of(rt: &HostRuntime) -> io::Result<Words> {
    let mut words = Words {
        line: Vec::new(rt.alloc()),
        notes: Wanted::NotYet,
        explain: Wanted::NotYet,
        resolve: Wanted::NotYet,
    };
    for word in env::args(rt)?.skip(1) {
        words.take(word)?;
    }
    Ok(words)
}
