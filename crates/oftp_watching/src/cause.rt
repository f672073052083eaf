//! Why a call didn't connect.

ghost use Rattle.std.specs.Prelude.{◌≡◌};
ghost use Rattle.oftp_watching.specs.Notices.{cause_text};

/// Why a call didn't connect.
#[derive(Clone, Copy, Debug, Drop, PartialEq, Eq)]
pub enum Cause {
    /// Nobody listens at the address.
    Refused,
    /// No way leads to the address.
    NoRoute,
    /// The name has no address.
    NoName,
    /// Nobody answered in time.
    TimedOut,
    /// Another error of the system.
    Failed,
}

impl Cause {
    /// The words that a line has for it.
    pub fn words(self) -> &'static str
        ensures { result.now ≡ cause_text self }
    {
        match self {
            Cause::Refused => "refused",
            Cause::NoRoute => "no route",
            Cause::NoName => "name not found",
            Cause::TimedOut => "timed out",
            Cause::Failed => "failed",
        }
    }
}
