//! In what something happened to a file.

ghost use Rattle.std.specs.Prelude.{◌≡◌};
ghost use Rattle.oftp_watching.specs.Occasions.{occasion_of, session_of, user_of};

/// In what something happened to a file.
#[derive(Clone, Copy, Debug, PartialEq, Eq, Drop)]
pub enum Occasion {
    /// The session with this number.
    Session(u64),
    /// A command of the user with this number, which came over the station's socket.
    User(u32),
    /// A command that has the database itself, or of which the user isn't known.
    Command,
}

impl Occasion {
    /// That of what was done in the session with this number, if there is one. Else it was done for a command, whose user is known if it came
    /// over the station's socket.
    pub fn of(session: Option<u64>, user: Option<u32>) -> Occasion
        ensures { result ≡ occasion_of session user }
    {
        match (session, user) {
            (Some(number), _) => Occasion::Session(number),
            (None, Some(user)) => Occasion::User(user),
            (None, None) => Occasion::Command,
        }
    }

    /// The number of the session.
    pub fn session(self) -> Option<u64>
        ensures { result ≡ session_of self }
    {
        match self {
            Occasion::Session(number) => Some(number),
            Occasion::User(_) | Occasion::Command => None,
        }
    }

    /// The number of the user.
    pub fn user(self) -> Option<u32>
        ensures { result ≡ user_of self }
    {
        match self {
            Occasion::User(user) => Some(user),
            Occasion::Session(_) | Occasion::Command => None,
        }
    }
}
