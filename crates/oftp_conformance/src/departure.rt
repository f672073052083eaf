//! Where this station departs from RFC 5024 on purpose (docs/CONFORMANCE.md).

ghost use Rattle.std.specs.Prelude.{◌≡◌};
ghost use Rattle.oftp_conformance.specs.Departures.{departure_section, departure_does, bearing_text};

/// Whether the standard forbids something.
#[derive(Clone, Copy, Debug, Drop, PartialEq, Eq)]
pub enum Bearing {
    /// It does.
    Forbidden,
    /// It doesn't, but this station doesn't take it.
    Allowed,
}

impl Bearing {
    /// In words.
    pub fn text(self) -> &'static str
        ensures { result.now ≡ bearing_text self }
    {
        match self {
            Bearing::Forbidden => "not allowed",
            Bearing::Allowed => "allowed, but not taken here",
        }
    }
}

/// A departure of this station from RFC 5024.
#[derive(Clone, Copy, Debug, Drop, PartialEq, Eq)]
pub enum Departure {
    /// It refuses a stream header with a flag, though receivers are to be liberal.
    StrictHeaders,
    /// It takes level 5 alone.
    OtherLevels,
    /// It ends the session, and doesn't refuse the file alone.
    BadOffers,
    /// It takes no letter that isn't listed.
    UnlistedLetters,
    /// It says ESID 06, and not 10.
    SmallBuffers,
    /// It takes no signed response.
    SignedResponses,
    /// It has no secure authentication, cipher suites, compression or envelopes.
    NoSecurity,
    /// It refuses a file whose response is to be signed.
    NoSignature,
    /// It ends the session for a Y in reply to its N.
    AnsweredOptions,
    /// It takes other commands too.
    KeptDirection,
    /// It ends the session then.
    EndlessTurns,
    /// It counts it as a normal end.
    EarlyEnds,
    /// It takes the smaller credit of both.
    LowerCredit,
    /// It takes files between the two codes of the session alone.
    OwnCodes,
    /// It refuses octets behind the end, and a record that never ended.
    StrictEnds,
    /// It takes responses between the two codes of the session alone.
    OwnResponses,
}

impl Departure {
    /// The section of RFC 5024 that it departs from.
    pub fn section(self) -> &'static str
        ensures { result.now ≡ departure_section self }
    {
        match self {
            Departure::StrictHeaders => "8.2",
            Departure::OtherLevels => "5.3.2",
            Departure::BadOffers => "5.3.5",
            Departure::UnlistedLetters => "10.3",
            Departure::SmallBuffers => "9.8",
            Departure::SignedResponses => "5.3.13",
            Departure::NoSecurity => "10.2",
            Departure::NoSignature => "3.3.5",
            Departure::AnsweredOptions => "9.8.3",
            Departure::KeptDirection => "9.10",
            Departure::EndlessTurns => "3.3.4.2",
            Departure::EarlyEnds => "3.4.1",
            Departure::LowerCredit => "5.3.2",
            Departure::OwnCodes => "5.3.3",
            Departure::StrictEnds => "7.3",
            Departure::OwnResponses => "3.3.5",
        }
    }

    /// What this station does, after 'this station'.
    pub fn does(self) -> &'static str
        ensures { result.now ≡ departure_does self }
    {
        match self {
            Departure::StrictHeaders =>
                "refuses a stream header with a flag, though receivers are to be liberal",
            Departure::OtherLevels => "takes level 5 alone",
            Departure::BadOffers => "ends the session, and doesn't refuse the file alone",
            Departure::UnlistedLetters => "takes no letter that isn't listed",
            Departure::SmallBuffers => "says ESID 06, and not 10",
            Departure::SignedResponses => "takes no signed response",
            Departure::NoSecurity =>
                "has no secure authentication, cipher suites, compression or envelopes",
            Departure::NoSignature => "refuses a file whose response is to be signed",
            Departure::AnsweredOptions => "ends the session for a Y in reply to its N",
            Departure::KeptDirection => "takes other commands too",
            Departure::EndlessTurns => "ends the session then",
            Departure::EarlyEnds => "counts it as a normal end",
            Departure::LowerCredit => "takes the smaller credit of both",
            Departure::OwnCodes => "takes files between the two codes of the session alone",
            Departure::StrictEnds => "refuses octets behind the end, and a record that never ended",
            Departure::OwnResponses => "takes responses between the two codes of the session alone",
        }
    }
}
