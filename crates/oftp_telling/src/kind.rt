//! The kinds of commands: their letters, their words and the sections that define them.

ghost use Rattle.std.specs.Prelude.{◌≡◌};
ghost use Rattle.oftp_telling.specs.CommandKinds.{kind_of, kind_word, section_of};

/// A kind of command (RFC 5024, section 5.3).
#[derive(Clone, Copy, Debug, Drop, PartialEq, Eq)]
pub enum CommandKind {
    /// The responder is ready.
    Ssrm,
    /// A session starts.
    Ssid,
    /// A virtual file is offered.
    Sfid,
    /// The file is accepted.
    Sfpa,
    /// The file isn't accepted.
    Sfna,
    /// A part of the file.
    Data,
    /// The Credit is renewed.
    Cdt,
    /// The file ends.
    Efid,
    /// The listener has the whole file.
    Efpa,
    /// The listener doesn't have the whole file.
    Efna,
    /// The session ends.
    Esid,
    /// The listener becomes the speaker.
    Cd,
    /// The file was delivered.
    Eerp,
    /// The file won't be delivered.
    Nerp,
    /// The response has come.
    Rtr,
}

impl CommandKind {
    /// The kind of the commands that begin with this letter, if there is one.
    pub fn of(letter: u8) -> Option<CommandKind>
        ensures { result ≡ kind_of letter }
    {
        match letter {
            b'I' => Some(CommandKind::Ssrm),
            b'X' => Some(CommandKind::Ssid),
            b'H' => Some(CommandKind::Sfid),
            b'2' => Some(CommandKind::Sfpa),
            b'3' => Some(CommandKind::Sfna),
            b'D' => Some(CommandKind::Data),
            b'C' => Some(CommandKind::Cdt),
            b'T' => Some(CommandKind::Efid),
            b'4' => Some(CommandKind::Efpa),
            b'5' => Some(CommandKind::Efna),
            b'F' => Some(CommandKind::Esid),
            b'R' => Some(CommandKind::Cd),
            b'E' => Some(CommandKind::Eerp),
            b'N' => Some(CommandKind::Nerp),
            b'P' => Some(CommandKind::Rtr),
            _ => None,
        }
    }

    /// What RFC 5024 calls it.
    pub fn word(self) -> &'static str
        ensures { result.now ≡ kind_word self }
    {
        match self {
            CommandKind::Ssrm => "SSRM",
            CommandKind::Ssid => "SSID",
            CommandKind::Sfid => "SFID",
            CommandKind::Sfpa => "SFPA",
            CommandKind::Sfna => "SFNA",
            CommandKind::Data => "DATA",
            CommandKind::Cdt => "CDT",
            CommandKind::Efid => "EFID",
            CommandKind::Efpa => "EFPA",
            CommandKind::Efna => "EFNA",
            CommandKind::Esid => "ESID",
            CommandKind::Cd => "CD",
            CommandKind::Eerp => "EERP",
            CommandKind::Nerp => "NERP",
            CommandKind::Rtr => "RTR",
        }
    }

    /// The section of RFC 5024 that defines it.
    pub fn section(self) -> &'static str
        ensures { result.now ≡ section_of self }
    {
        match self {
            CommandKind::Ssrm => "5.3.1",
            CommandKind::Ssid => "5.3.2",
            CommandKind::Sfid => "5.3.3",
            CommandKind::Sfpa => "5.3.4",
            CommandKind::Sfna => "5.3.5",
            CommandKind::Data => "5.3.6",
            CommandKind::Cdt => "5.3.7",
            CommandKind::Efid => "5.3.8",
            CommandKind::Efpa => "5.3.9",
            CommandKind::Efna => "5.3.10",
            CommandKind::Esid => "5.3.11",
            CommandKind::Cd => "5.3.12",
            CommandKind::Eerp => "5.3.13",
            CommandKind::Nerp => "5.3.14",
            CommandKind::Rtr => "5.3.15",
        }
    }
}
