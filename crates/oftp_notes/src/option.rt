//! The options that the program takes before it reads a command line: `--notes` of each command, and others of `check`.

ghost use Rattle.std.specs.Prelude.{◌≡◌};
ghost use Rattle.oftp_notes.specs.Wanted.{wanted_after, wanted_where};

/// Whether an option without a value asks for something, as far as a command line was read.
#[derive(Clone, Copy, Debug, PartialEq, Eq)]
pub enum Wanted {
    /// It hasn't come yet.
    NotYet,
    /// It came.
    ByOption,
    /// It didn't come, and what follows are words, no options.
    Never,
}

/// What standard error is.
#[derive(Clone, Copy, Debug, PartialEq, Eq)]
pub enum Screen {
    /// A terminal: somebody reads there.
    Terminal,
    /// A file, a pipe or anything else.
    Other,
}

impl Wanted {
    /// The same after one more word of the command line. A word `--` ends the options.
    pub fn after(self, option: &str, word: &str) -> Wanted
        ensures { result ≡ wanted_after self option.now word.now }
    {
        match self {
            Wanted::NotYet if word == option => Wanted::ByOption,
            Wanted::NotYet if word == "--" => Wanted::Never,
            other => other,
        }
    }

    /// Whether notes are printed: where their option asks for them, or standard error is a terminal.
    pub fn prints_on(self, screen: Screen) -> bool
        ensures { result ≡ wanted_where self screen }
    {
        match self {
            Wanted::ByOption => true,
            Wanted::NotYet | Wanted::Never => screen == Screen::Terminal,
        }
    }
}
