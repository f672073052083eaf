//! The rules on the value of a field.

ghost use Rattle.std.specs.Prelude.{◌≡◌};
ghost use Rattle.oftp_conformance.specs.ValueRules.{value_rules, value_field, value_section, value_says, value_wanted, value_advice, value_bearing, value_departure};

use crate::departure::{Bearing, Departure};

/// A rule on the value of a field.
#[derive(Clone, Copy, Debug, Drop, PartialEq, Eq)]
pub enum ValueRule {
    /// The protocol level.
    Level,
    /// The size of the Data Exchange Buffer.
    Buffer,
    /// The Credit.
    Credit,
    /// Secure authentication.
    Authentication,
    /// The counter of a time stamp.
    Counter,
    /// The original size of a plain file.
    Sizes,
    /// The security level.
    Security,
    /// The cipher suite.
    Cipher,
    /// The compression of a file.
    Compression,
    /// The envelope of a file.
    Envelope,
    /// A request for a signed response.
    SignedResponse,
    /// A subrecord that passes the end of its buffer.
    Overrun,
    /// A compressed subrecord.
    Compressed,
}

/// The rules, in the order in which they are looked for.
pub fn value_rules() -> [ValueRule; 13]
    ensures { result ≡ value_rules }
{
    [
        ValueRule::Level,
        ValueRule::Buffer,
        ValueRule::Credit,
        ValueRule::Authentication,
        ValueRule::Counter,
        ValueRule::Sizes,
        ValueRule::Security,
        ValueRule::Cipher,
        ValueRule::Compression,
        ValueRule::Envelope,
        ValueRule::SignedResponse,
        ValueRule::Overrun,
        ValueRule::Compressed,
    ]
}

impl ValueRule {
    /// The field that it is about.
    pub fn field(self) -> &'static str
        ensures { result.now ≡ value_field self }
    {
        match self {
            ValueRule::Level => "SSIDLEV",
            ValueRule::Buffer => "SSIDSDEB",
            ValueRule::Credit => "SSIDCRED",
            ValueRule::Authentication => "SSIDAUTH",
            ValueRule::Counter => "SFIDTIME",
            ValueRule::Sizes => "SFIDOSIZ",
            ValueRule::Security => "SFIDSEC",
            ValueRule::Cipher => "SFIDCIPH",
            ValueRule::Compression => "SFIDCOMP",
            ValueRule::Envelope => "SFIDENV",
            ValueRule::SignedResponse => "SFIDSIGN",
            ValueRule::Overrun | ValueRule::Compressed => "DATABUF",
        }
    }

    /// The section of RFC 5024 that has it.
    pub fn section(self) -> &'static str
        ensures { result.now ≡ value_section self }
    {
        match self {
            ValueRule::Level
            | ValueRule::Buffer
            | ValueRule::Credit
            | ValueRule::Authentication
            | ValueRule::Compressed => "5.3.2",
            ValueRule::Counter
            | ValueRule::Sizes
            | ValueRule::Security
            | ValueRule::Cipher
            | ValueRule::Compression
            | ValueRule::Envelope
            | ValueRule::SignedResponse => "5.3.3",
            ValueRule::Overrun => "7.3",
        }
    }

    /// What the standard says.
    pub fn says(self) -> &'static str
        ensures { result.now ≡ value_says self }
    {
        match self {
            ValueRule::Level => "SSIDLEV is 1, 2, 4 or 5, and the lower one of both applies",
            ValueRule::Buffer => "SSIDSDEB is at least 128",
            ValueRule::Credit => "SSIDCRED is 1 to 999",
            ValueRule::Authentication => "SSIDAUTH is Y where a station demands it",
            ValueRule::Counter => "SFIDTIME ends with a counter from 0001 to 9999",
            ValueRule::Sizes => "SFIDOSIZ is SFIDFSIZ without security and compression",
            ValueRule::Security => "SFIDSEC is 00 for a plain file, 01 to 03 for others",
            ValueRule::Cipher => "SFIDCIPH is 00 where no cipher suite is used",
            ValueRule::Compression => "SFIDCOMP is 0 without compression, 1 with it",
            ValueRule::Envelope => "SFIDENV is 0 without an envelope, 1 for CMS",
            ValueRule::SignedResponse => "SFIDSIGN is Y where a signed response is asked for",
            ValueRule::Overrun => "a subrecord ends within its Exchange Buffer",
            ValueRule::Compressed => "buffers are compressed only if both said SSIDCMPR Y",
        }
    }

    /// What is expected.
    pub fn wanted(self) -> &'static str
        ensures { result.now ≡ value_wanted self }
    {
        match self {
            ValueRule::Level => "5",
            ValueRule::Buffer => "00128 to 99999",
            ValueRule::Credit => "001 to 999",
            ValueRule::Authentication | ValueRule::SignedResponse => "N",
            ValueRule::Counter => "0001 to 9999 at the end",
            ValueRule::Sizes => "the same as SFIDFSIZ",
            ValueRule::Security | ValueRule::Cipher => "00",
            ValueRule::Compression | ValueRule::Envelope => "0",
            ValueRule::Overrun => "a count within the buffer",
            ValueRule::Compressed => "subrecords without the compression flag",
        }
    }

    /// What to tell the partner.
    pub fn advice(self) -> &'static str
        ensures { result.now ≡ value_advice self }
    {
        match self {
            ValueRule::Level => "set the protocol level 5 (OFTP 2)",
            ValueRule::Buffer => "set a buffer of 128 octets or more",
            ValueRule::Credit => "set a credit (window) of 1 or more",
            ValueRule::Authentication => "turn secure authentication off for this station",
            ValueRule::Counter => "count the files of a second from 0001",
            ValueRule::Sizes => "send the size of a plain file in both fields",
            ValueRule::Security => "set the security level 00: TLS protects the line",
            ValueRule::Cipher => "set the cipher suite 00",
            ValueRule::Compression => "set the file compression 0",
            ValueRule::Envelope => "set the envelope 0",
            ValueRule::SignedResponse => "set signed responses (EERP) to N",
            ValueRule::Overrun => "end subrecords with their buffer",
            ValueRule::Compressed => "turn buffer compression off",
        }
    }

    /// Whether the standard forbids what breaks it.
    pub fn bearing(self) -> Bearing
        ensures { result ≡ value_bearing self }
    {
        match self {
            ValueRule::Level
            | ValueRule::Authentication
            | ValueRule::Security
            | ValueRule::Cipher
            | ValueRule::Compression
            | ValueRule::Envelope
            | ValueRule::SignedResponse => Bearing::Allowed,
            ValueRule::Buffer
            | ValueRule::Credit
            | ValueRule::Counter
            | ValueRule::Sizes
            | ValueRule::Overrun
            | ValueRule::Compressed => Bearing::Forbidden,
        }
    }

    /// The departure of this station that takes part, if one does.
    pub fn departure(self) -> Option<Departure>
        ensures { result ≡ value_departure self }
    {
        match self {
            ValueRule::Level => Some(Departure::OtherLevels),
            ValueRule::Buffer | ValueRule::Credit => Some(Departure::SmallBuffers),
            ValueRule::Authentication
            | ValueRule::Security
            | ValueRule::Cipher
            | ValueRule::Compression
            | ValueRule::Envelope => Some(Departure::NoSecurity),
            ValueRule::Counter | ValueRule::Sizes | ValueRule::Overrun | ValueRule::Compressed =>
                None,
            ValueRule::SignedResponse => Some(Departure::NoSignature),
        }
    }
}
