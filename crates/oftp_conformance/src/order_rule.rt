//! The rules on the order of commands.

ghost use Rattle.std.specs.Prelude.{◌≡◌};
ghost use Rattle.oftp_conformance.specs.OrderRules.{order_section, order_says, order_wanted, order_advice, order_bearing, order_departure};

use crate::departure::{Bearing, Departure};

/// A rule on the order of commands.
#[derive(Clone, Copy, Debug, Drop, PartialEq, Eq)]
pub enum OrderRule {
    /// A command that this phase doesn't take.
    OutOfPlace,
    /// A CDT before the Credit is used up.
    EarlyCredit,
    /// DATA or EFID without Credit.
    MissingCredit,
    /// A command between a response and its RTR.
    BeforeReady,
    /// A command in place of the CD that was asked for.
    NoTurn,
    /// A CD right after a CD.
    SecondTurn,
    /// An ESID 00 elsewhere.
    EarlyEnd,
    /// SSIDCRED in an answer.
    CreditRaised,
    /// SSIDCMPR in an answer.
    CompressionAnswered,
    /// SSIDSPEC in an answer.
    LogicAnswered,
    /// SFIDORIG.
    OtherOriginator,
    /// SFIDDEST.
    OtherDestination,
    /// SFPAACNT.
    PositionRaised,
    /// The length of DATA.
    TooLong,
    /// A subrecord behind the end of a file.
    BehindEnd,
    /// An empty subrecord behind the end of a file.
    EmptyBehind,
    /// A file whose last subrecord has no end flag.
    NoEnd,
    /// EFIDRCNT of a file without records.
    StreamRecords,
    /// EFIDRCNT: this number came.
    Records(u64),
    /// EFIDUCNT: this number came.
    Units(u64),
    /// EERPDEST and EERPORIG, or those of NERP, the wrong way round.
    SwappedCodes,
    /// EERPDEST or EERPORIG, or those of NERP, of another station.
    OtherCodes,
}

impl OrderRule {
    /// The section of RFC 5024 that has it.
    pub fn section(self) -> &'static str
        ensures { result.now ≡ order_section self }
    {
        match self {
            OrderRule::OutOfPlace | OrderRule::EarlyCredit | OrderRule::NoTurn => "9.10",
            OrderRule::MissingCredit => "9.11",
            OrderRule::BeforeReady => "4.3.8",
            OrderRule::SecondTurn => "3.3.4.2",
            OrderRule::EarlyEnd => "3.4.1",
            OrderRule::CreditRaised
            | OrderRule::CompressionAnswered
            | OrderRule::LogicAnswered
            | OrderRule::TooLong => "5.3.2",
            OrderRule::OtherOriginator | OrderRule::OtherDestination => "5.3.3",
            OrderRule::PositionRaised => "5.3.4",
            OrderRule::BehindEnd | OrderRule::NoEnd => "7.2",
            OrderRule::EmptyBehind => "7.3",
            OrderRule::StreamRecords | OrderRule::Records(_) | OrderRule::Units(_) => "5.3.8",
            OrderRule::SwappedCodes => "5.3.13",
            OrderRule::OtherCodes => "3.3.5",
        }
    }

    /// What the standard says.
    pub fn says(self) -> &'static str
        ensures { result.now ≡ order_says self }
    {
        match self {
            OrderRule::OutOfPlace => "each phase takes certain commands of one side alone",
            OrderRule::EarlyCredit => "CDT comes once the Credit is used up",
            OrderRule::MissingCredit => "without Credit a speaker waits for CDT, before EFID too",
            OrderRule::BeforeReady => "after EERP or NERP nothing but RTR may come",
            OrderRule::NoTurn => "after EFPA with Y only CD may come",
            OrderRule::SecondTurn => "CD may not follow an unsolicited CD",
            OrderRule::EarlyEnd => "ESID 00 may only follow an unsolicited CD",
            OrderRule::CreditRaised => "the answer has no more Credit than the offer",
            OrderRule::CompressionAnswered => "compression is used only if both support it",
            OrderRule::LogicAnswered => "special logic is used only if both support it",
            OrderRule::OtherOriginator => "SFIDORIG is the originator, of whatever station",
            OrderRule::OtherDestination => "SFIDDEST is the final recipient, of whatever station",
            OrderRule::PositionRaised => "SFPAACNT is at most SFIDREST",
            OrderRule::TooLong => "DATA have at most the smaller SSIDSDEB, with their letter",
            OrderRule::BehindEnd => "the end flag of U and T ends the file",
            OrderRule::EmptyBehind => "an empty subrecord may stand anywhere",
            OrderRule::NoEnd => "the last subrecord of a record, or of U and T, has the end flag",
            OrderRule::StreamRecords => "EFIDRCNT is 0 for U and T",
            OrderRule::Records(_) => "EFIDRCNT is the number of records of the file",
            OrderRule::Units(_) => "EFIDUCNT is the number of octets of the file",
            OrderRule::SwappedCodes =>
                "a response goes from the file's destination to its originator",
            OrderRule::OtherCodes => "a response may be for whatever station",
        }
    }

    /// What is expected.
    pub fn wanted(self) -> &'static str
        ensures { result.now ≡ order_wanted self }
    {
        match self {
            OrderRule::OutOfPlace => "the command that this phase takes",
            OrderRule::EarlyCredit => "no CDT while Credit is left",
            OrderRule::MissingCredit => "no command before CDT",
            OrderRule::BeforeReady => "RTR",
            OrderRule::NoTurn => "CD",
            OrderRule::SecondTurn => "ESID 00, or something to send",
            OrderRule::EarlyEnd => "CD, and then ESID 00 of the other side",
            OrderRule::CreditRaised => "no more than the other SSIDCRED",
            OrderRule::CompressionAnswered | OrderRule::LogicAnswered => "N, as in the other SSID",
            OrderRule::OtherOriginator => "the code of the SSID of the same side",
            OrderRule::OtherDestination => "the code of the SSID of the other side",
            OrderRule::PositionRaised => "no more than the offered position",
            OrderRule::TooLong => "no more octets than that",
            OrderRule::BehindEnd => "one end flag, on the last subrecord",
            OrderRule::EmptyBehind => "nothing behind the end flag of U and T",
            OrderRule::NoEnd => "an end flag before EFID",
            OrderRule::StreamRecords => "a count of 0",
            OrderRule::Records(_) | OrderRule::Units(_) => "the number that came",
            OrderRule::SwappedCodes => "the code of the other side as the destination",
            OrderRule::OtherCodes => "the codes of both SSIDs",
        }
    }

    /// What to tell the partner.
    pub fn advice(self) -> &'static str
        ensures { result.now ≡ order_advice self }
    {
        match self {
            OrderRule::OutOfPlace => "keep to the order of commands of section 9",
            OrderRule::EarlyCredit => "send CDT only once all Credit is used up",
            OrderRule::MissingCredit => "wait for CDT once the Credit is used up, before EFID too",
            OrderRule::BeforeReady => "send RTR after each response, and nothing before it",
            OrderRule::NoTurn => "send CD after EFPA with Y",
            OrderRule::SecondTurn => "end with ESID 00 where neither side has something to send",
            OrderRule::EarlyEnd => "give the direction away by CD before the end",
            OrderRule::CreditRaised => "answer with the smaller credit of both",
            OrderRule::CompressionAnswered => "turn buffer compression off for this station",
            OrderRule::LogicAnswered => "turn special logic off for this station",
            OrderRule::OtherOriginator => "send files under the code of the session",
            OrderRule::OtherDestination => "address files to the code of the session",
            OrderRule::PositionRaised => "continue a file at or before the offered position",
            OrderRule::TooLong => "keep to the smaller buffer of both",
            OrderRule::BehindEnd => "set the end flag on the last subrecord of U and T alone",
            OrderRule::EmptyBehind => "send no empty subrecords behind the end of a file",
            OrderRule::NoEnd => "set the end flag on the last subrecord",
            OrderRule::StreamRecords => "send a record count of 0 for U and T",
            OrderRule::Records(_) => "compare the record count with what was sent",
            OrderRule::Units(_) => "compare the unit count with what was sent",
            OrderRule::SwappedCodes => "exchange destination and originator in responses",
            OrderRule::OtherCodes => "send responses under the codes of the session",
        }
    }

    /// Whether the standard forbids what breaks it.
    pub fn bearing(self) -> Bearing
        ensures { result ≡ order_bearing self }
    {
        match self {
            OrderRule::OutOfPlace
            | OrderRule::EarlyCredit
            | OrderRule::MissingCredit
            | OrderRule::BeforeReady
            | OrderRule::NoTurn
            | OrderRule::SecondTurn
            | OrderRule::EarlyEnd
            | OrderRule::CreditRaised
            | OrderRule::PositionRaised
            | OrderRule::TooLong
            | OrderRule::BehindEnd
            | OrderRule::NoEnd
            | OrderRule::StreamRecords
            | OrderRule::Records(_)
            | OrderRule::Units(_)
            | OrderRule::SwappedCodes => Bearing::Forbidden,
            OrderRule::CompressionAnswered
            | OrderRule::LogicAnswered
            | OrderRule::OtherOriginator
            | OrderRule::OtherDestination
            | OrderRule::EmptyBehind
            | OrderRule::OtherCodes => Bearing::Allowed,
        }
    }

    /// The departure of this station that takes part, if one does.
    pub fn departure(self) -> Option<Departure>
        ensures { result ≡ order_departure self }
    {
        match self {
            OrderRule::OutOfPlace
            | OrderRule::EarlyCredit
            | OrderRule::MissingCredit
            | OrderRule::BeforeReady
            | OrderRule::PositionRaised
            | OrderRule::TooLong
            | OrderRule::StreamRecords
            | OrderRule::Records(_)
            | OrderRule::Units(_) => None,
            OrderRule::NoTurn => Some(Departure::KeptDirection),
            OrderRule::SecondTurn => Some(Departure::EndlessTurns),
            OrderRule::EarlyEnd => Some(Departure::EarlyEnds),
            OrderRule::CreditRaised => Some(Departure::LowerCredit),
            OrderRule::CompressionAnswered | OrderRule::LogicAnswered => Some(
                Departure::AnsweredOptions,
            ),
            OrderRule::OtherOriginator | OrderRule::OtherDestination => Some(Departure::OwnCodes),
            OrderRule::BehindEnd | OrderRule::EmptyBehind | OrderRule::NoEnd => Some(
                Departure::StrictEnds,
            ),
            OrderRule::SwappedCodes | OrderRule::OtherCodes => Some(Departure::OwnResponses),
        }
    }
}
