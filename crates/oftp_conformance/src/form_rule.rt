//! The rules on the form of a field.

ghost use Rattle.std.specs.Prelude.{◌≡◌};
ghost use Rattle.oftp_conformance.specs.FormRules.{form_section, form_says, form_wanted, form_advice, form_bearing, form_departure};

use crate::departure::{Bearing, Departure};

/// A rule on the form of a field.
#[derive(Clone, Copy, Debug, Drop, PartialEq, Eq)]
pub enum FormRule {
    /// The first octet of a command.
    Beginning,
    /// A command that ends within a field.
    Short,
    /// Octets behind the last field.
    Long,
    /// An ESID of four octets.
    OldEnd,
    /// An EERP of 106 octets.
    OldResponse,
    /// The text of SSRM.
    Greeting,
    /// An alphanumeric field.
    Characters,
    /// A numeric field.
    Digits,
    /// A field with few values.
    Letter,
    /// A blank SSIDAUTH.
    OldLevel,
    /// A longest record where there are no records.
    Records,
    /// A carriage return.
    Return,
    /// A text.
    Utf8,
    /// A hash without a signature.
    HashAlone,
    /// A signed response.
    Signed,
}

impl FormRule {
    /// The section of RFC 5024 that has it.
    pub fn section(self) -> &'static str
        ensures { result.now ≡ form_section self }
    {
        match self {
            FormRule::Beginning
            | FormRule::Short
            | FormRule::Long
            | FormRule::Characters
            | FormRule::Digits
            | FormRule::Letter
            | FormRule::Return
            | FormRule::Utf8 => "5.3",
            FormRule::OldEnd => "5.3.11",
            FormRule::OldResponse | FormRule::HashAlone | FormRule::Signed => "5.3.13",
            FormRule::Greeting => "5.3.1",
            FormRule::OldLevel => "5.3.2",
            FormRule::Records => "5.3.3",
        }
    }

    /// What the standard says.
    pub fn says(self) -> &'static str
        ensures { result.now ≡ form_says self }
    {
        match self {
            FormRule::Beginning => "each command begins with its letter",
            FormRule::Short => "a command has all its fields",
            FormRule::Long => "a command ends with its last field",
            FormRule::OldEnd => "ESIDREASL and ESIDREAST follow ESIDREAS",
            FormRule::OldResponse => "EERPHSHL and EERPSIGL follow EERPORIG",
            FormRule::Greeting => "SSRMMSG is ODETTE FTP READY and a space",
            FormRule::Characters => "X(n) has 0-9 A-Z / - . & ( ), none inside is a space",
            FormRule::Digits => "9(n) has digits, with zeros on the left",
            FormRule::Letter => "a field with listed values has one of them",
            FormRule::OldLevel => "SSIDAUTH is Y or N",
            FormRule::Records => "SFIDLRECL is 00000 where SFIDFMT is U or T",
            FormRule::Return => "SSRMCR, SSIDCR and ESIDCR are a carriage return",
            FormRule::Utf8 => "T(n) is encoded in UTF-8",
            FormRule::HashAlone => "a hash is part of a signed response",
            FormRule::Signed => "a response may be signed if this was asked for",
        }
    }

    /// What is expected.
    pub fn wanted(self) -> &'static str
        ensures { result.now ≡ form_wanted self }
    {
        match self {
            FormRule::Beginning => "one of I X H 2 3 D C T 4 5 F R E N P",
            FormRule::Short => "all fields of the command",
            FormRule::Long => "nothing behind the last field",
            FormRule::OldEnd => "ESIDREASL and ESIDREAST",
            FormRule::OldResponse => "EERPHSHL and EERPSIGL",
            FormRule::Greeting => "ODETTE FTP READY and a space",
            FormRule::Characters => "allowed characters, then spaces",
            FormRule::Digits => "digits",
            FormRule::Letter => "a listed value",
            FormRule::OldLevel => "N",
            FormRule::Records => "00000",
            FormRule::Return => "the octet 0d or 8d (hexadecimal)",
            FormRule::Utf8 => "UTF-8",
            FormRule::HashAlone => "a length of 0",
            FormRule::Signed => "lengths of 0",
        }
    }

    /// What to tell the partner.
    pub fn advice(self) -> &'static str
        ensures { result.now ≡ form_advice self }
    {
        match self {
            FormRule::Beginning => "send these commands alone, without secure authentication",
            FormRule::Short => "send each field in its whole length",
            FormRule::Long => "send nothing behind the last field",
            FormRule::OldEnd => "end sessions as OFTP 2 does: this ESID is of OFTP 1",
            FormRule::OldResponse => "send responses of OFTP 2: this EERP is of OFTP 1",
            FormRule::Greeting => "send the standard's own text",
            FormRule::Characters => "use these characters alone: no small letters, no _",
            FormRule::Digits => "pad numbers on the left with zeros, not with spaces",
            FormRule::Letter => "send one of the listed letters",
            FormRule::OldLevel =>
                "set the protocol level 5 (OFTP 2): before it this octet was blank",
            FormRule::Records => "send the longest record 00000 for U and T",
            FormRule::Return => "end these commands by a carriage return",
            FormRule::Utf8 => "encode descriptions and reasons in UTF-8, not in Latin-1",
            FormRule::HashAlone => "send unsigned responses without a hash",
            FormRule::Signed => "send unsigned responses: none was asked to be signed",
        }
    }

    /// Whether the standard forbids what breaks it.
    pub fn bearing(self) -> Bearing
        ensures { result ≡ form_bearing self }
    {
        match self {
            FormRule::Beginning
            | FormRule::Short
            | FormRule::Long
            | FormRule::OldEnd
            | FormRule::OldResponse
            | FormRule::Greeting
            | FormRule::Characters
            | FormRule::Digits
            | FormRule::Letter
            | FormRule::OldLevel
            | FormRule::Records
            | FormRule::Return
            | FormRule::Utf8
            | FormRule::HashAlone
            | FormRule::Signed => Bearing::Forbidden,
        }
    }

    /// The departure of this station that takes part, if one does.
    pub fn departure(self) -> Option<Departure>
        ensures { result ≡ form_departure self }
    {
        match self {
            FormRule::Beginning
            | FormRule::Short
            | FormRule::Long
            | FormRule::OldEnd
            | FormRule::OldResponse
            | FormRule::Greeting
            | FormRule::Characters
            | FormRule::Digits
            | FormRule::Records
            | FormRule::Return
            | FormRule::Utf8 => None,
            FormRule::Letter => Some(Departure::UnlistedLetters),
            FormRule::OldLevel => Some(Departure::OtherLevels),
            FormRule::HashAlone | FormRule::Signed => Some(Departure::SignedResponses),
        }
    }
}
