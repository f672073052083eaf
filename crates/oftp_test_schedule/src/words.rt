//! The words of a line.

/// The rest of a line.
#[derive(Drop)]
pub struct Words<'a> {
    rest: &'a str,
}

impl<'a> Words<'a> {
    pub fn new(text: &'a str) -> Words<'a> {
        Words { rest: text }
    }

    /// The next word, empty at the end.
    pub fn word(&mut self) -> &'a str {
        let (word, rest) = self.rest.split_once(' ').unwrap_or((self.rest, ""));
        self.rest = rest;
        word
    }

    /// The next word as a number, 0 for another word.
    pub fn long(&mut self) -> u64 {
        self.word().parse::<u64>().unwrap_or(0)
    }

    /// The next word as a number below 2 ^ 32, 0 for another word.
    pub fn number(&mut self) -> u32 {
        self.word().parse::<u32>().unwrap_or(0)
    }
}
