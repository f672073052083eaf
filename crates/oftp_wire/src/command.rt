//! The fifteen commands (RFC 5024, section 5.3).

use crate::field::{Count, Digits, Octets, Text, X};

/// SSID, start session: the code of a station, and what it offers (RFC 5024, section 5.3.2).
#[derive(Drop, PartialEq)]
pub struct Ssid<'a> {
    /// The protocol level, 5 for OFTP 2.
    pub level: Count<1>,
    /// The Identification Code of the sender.
    pub code: X<'a, 25>,
    /// The password of the sender.
    pub password: X<'a, 8>,
    /// The Data Exchange Buffer size, in octets.
    pub buffer: Count<5>,
    /// Whether the station sends files, receives files, or both.
    pub mode: Mode,
    /// Whether Data Exchange Buffers may be compressed.
    pub compression: bool,
    /// Whether broken transfers may be continued.
    pub restart: bool,
    /// Whether special logic is used.
    pub special_logic: bool,
    /// The Credit, in DATA commands.
    pub credit: Count<3>,
    /// Whether secure authentication is required.
    pub authentication: bool,
    /// User data, as the stations agree.
    pub user: X<'a, 8>,
}

/// The direction in which a station transfers files (RFC 5024, section 5.3.2).
#[derive(Clone, Copy, Debug, PartialEq, Eq)]
pub enum Mode {
    /// `S`: it only sends files.
    Send,
    /// `R`: it only receives files.
    Receive,
    /// `B`: it does both.
    Both,
}

/// SFID, start file: the virtual file that the speaker offers (RFC 5024, section 5.3.3).
#[derive(Debug, Drop, PartialEq)]
pub struct Sfid<'a> {
    /// The dataset name.
    pub dataset: X<'a, 26>,
    /// The date stamp, CCYYMMDD.
    pub date: Digits<'a, 8>,
    /// The time stamp, HHMMSScccc.
    pub time: Digits<'a, 10>,
    /// User data, as the stations agree.
    pub user: X<'a, 8>,
    /// The Identification Code of the station that the file is for.
    pub destination: X<'a, 25>,
    /// The Identification Code of the station that the file comes from.
    pub originator: X<'a, 25>,
    /// The format, with the longest record in formats that have records.
    pub layout: Layout,
    /// The size of the data that is sent, in blocks of 1,024 octets.
    pub size: Count<13>,
    /// The size before security and compression, in blocks of 1,024 octets.
    pub original_size: Count<13>,
    /// The Restart position: in records, or in blocks of 1,024 octets in formats without records.
    pub restart: Count<17>,
    /// The security level: 0 for none, 1 for encrypted, 2 for signed, 3 for both.
    pub security: Count<2>,
    /// The cipher suite, 0 for none.
    pub cipher: Count<2>,
    /// The compression, 0 for none.
    pub compression: Count<1>,
    /// The envelope, 0 for none.
    pub enveloping: Count<1>,
    /// Whether a signed End-to-End Response is requested.
    pub signed_response: bool,
    /// The description, as text for an operator.
    pub description: Text<'a>,
}

/// The format of a virtual file, with its longest record in octets (RFC 5024, section 5.3.3).
#[derive(Clone, Copy, Debug, PartialEq, Eq)]
pub enum Layout {
    /// `F`: records of one length.
    Fixed(Count<5>),
    /// `V`: records of at most this length.
    Variable(Count<5>),
    /// `U`: a stream of octets.
    Unstructured,
    /// `T`: lines of text.
    Text,
}

/// SFPA, start file positive answer: the file is accepted (RFC 5024, section 5.3.4).
#[derive(Clone, Copy, Debug, PartialEq, Eq)]
pub struct Sfpa {
    /// The Restart position from which the speaker has to send, counted as in SFID.
    pub restart: Count<17>,
}

/// SFNA, start file negative answer: the file isn't accepted (RFC 5024, section 5.3.5).
#[derive(Debug, Drop, PartialEq)]
pub struct Sfna<'a> {
    /// The reason code. `StartReason` lists those in use.
    pub reason: Count<2>,
    /// Whether the speaker may offer the file again.
    pub retry: bool,
    /// The reason text.
    pub text: Text<'a>,
}

/// EFID, end file: the counts of the file (RFC 5024, section 5.3.8).
#[derive(Clone, Copy, Debug, PartialEq, Eq)]
pub struct Efid {
    /// How many records the file has, 0 in formats without records.
    pub records: Count<17>,
    /// How many octets the file has.
    pub units: Count<17>,
}

/// EFPA, end file positive answer: the listener has the whole file (RFC 5024, section 5.3.9).
#[derive(Clone, Copy, Debug, PartialEq, Eq)]
pub struct Efpa {
    /// Whether the listener asks to be the speaker.
    pub change_direction: bool,
}

/// EFNA, end file negative answer: the listener doesn't have the whole file (RFC 5024, section 5.3.10).
#[derive(Debug, Drop, PartialEq)]
pub struct Efna<'a> {
    /// The reason code. `EndReason` lists those in use.
    pub reason: Count<2>,
    /// The reason text.
    pub text: Text<'a>,
}

/// ESID, end session (RFC 5024, section 5.3.11).
#[derive(Debug, Drop, PartialEq)]
pub struct Esid<'a> {
    /// The reason code. `SessionReason` lists those in use.
    pub reason: Count<2>,
    /// The reason text.
    pub text: Text<'a>,
}

/// EERP, End-to-End Response: the file was delivered (RFC 5024, section 5.3.13).
#[derive(Debug, Drop, PartialEq)]
pub struct Eerp<'a> {
    /// The dataset name of the file.
    pub dataset: X<'a, 26>,
    /// The date stamp of the file, CCYYMMDD.
    pub date: Digits<'a, 8>,
    /// The time stamp of the file, HHMMSScccc.
    pub time: Digits<'a, 10>,
    /// User data, as the stations agree.
    pub user: X<'a, 8>,
    /// The Identification Code of the station that the response is for, which is the file's originator.
    pub destination: X<'a, 25>,
    /// The Identification Code of the station that the response comes from, which is the file's destination.
    pub originator: X<'a, 25>,
}

/// NERP, Negative End Response: the file won't be delivered (RFC 5024, section 5.3.14).
#[derive(Debug, Drop, PartialEq)]
pub struct Nerp<'a> {
    /// The dataset name of the file.
    pub dataset: X<'a, 26>,
    /// The date stamp of the file, CCYYMMDD.
    pub date: Digits<'a, 8>,
    /// The time stamp of the file, HHMMSScccc.
    pub time: Digits<'a, 10>,
    /// The Identification Code of the station that the response is for, which is the file's originator.
    pub destination: X<'a, 25>,
    /// The Identification Code of the station that the response comes from, which is the file's destination.
    pub originator: X<'a, 25>,
    /// The Identification Code of the station that created the response.
    pub creator: X<'a, 25>,
    /// The reason code.
    pub reason: Count<2>,
    /// The reason text.
    pub text: Text<'a>,
}

/// A command. Its texts are borrowed from the octets that it was parsed from.
#[derive(Debug, Drop, PartialEq)]
pub enum Command<'a> {
    /// The responder is ready (RFC 5024, section 5.3.1).
    Ssrm,
    /// A session starts.
    Ssid(Ssid<'a>),
    /// A virtual file is offered.
    Sfid(Sfid<'a>),
    /// The file is accepted.
    Sfpa(Sfpa),
    /// The file isn't accepted.
    Sfna(Sfna<'a>),
    /// The contents of a Data Exchange Buffer, without its command octet (RFC 5024, section 5.3.6).
    Data(Octets<'a>),
    /// The Credit is renewed (RFC 5024, section 5.3.7).
    Cdt,
    /// The file ends.
    Efid(Efid),
    /// The listener has the whole file.
    Efpa(Efpa),
    /// The listener doesn't have the whole file.
    Efna(Efna<'a>),
    /// The session ends.
    Esid(Esid<'a>),
    /// The listener becomes the speaker (RFC 5024, section 5.3.12).
    Cd,
    /// The file was delivered.
    Eerp(Eerp<'a>),
    /// The file won't be delivered.
    Nerp(Nerp<'a>),
    /// The response has come, and the next command may follow (RFC 5024, sections 4.3.8 and 5.3.15).
    Rtr,
}
