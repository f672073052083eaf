//! Two stations in memory that are connected to each other, while the connection breaks or one of them crashes. A round is two sessions:
//! the sender begins one, and the receiver, whose operator releases the file before, begins the other. In the first round something breaks.
//! After the second one, in which nothing breaks, the file is delivered, whole and answered once.

use oftp_engine::{Operator, Role, Submission};
use oftp_partners::{Book, read};
use oftp_register::{Office, PlainOffice, Side};
use oftp_test_parts::given::{BOOK, FILE};
use oftp_test_parts::hearing::{Line, call, caller, hear};
use oftp_test_parts::noting::{Noting, Stop};
use std::alloc::{AllocError, Global};
use std::process::Abort;
use std::test::Fail;

/// The book of the sender's partner: the codes and the passwords are exchanged.
const OTHER_BOOK: &str =
    "[station]\ncode = 'O0177CARMAKER'\nbuffer = 128\ncredit = 2\nrestart = true\n[[partner]]\ncode = 'O0013SUPPLIER'\nexpects = 'SUPPW'\nsends = 'CARPW'\nmode = 'B'\naddress = '127.0.0.1:3305'\n";

/// The file is delivered, and one response to it was received. Its mark counts the two whole blocks of 1,024 octets that CDT covered.
const AT_THE_SENDER: &str = "out Delivered 2\nreceived EndResponse\n";

/// The file is whole, with its three rows as they were sent, and one response to it was sent.
const AT_THE_RECEIVER: &str = "in Whole 3 3\nissued EndResponse Sent\n";

/// The fixture: both books, and the file's octets.
#[derive(Drop)]
struct Given {
    book: Book,
    other_book: Book,
    content: Vec<u8>,
}

fn content_of(alloc: Global) -> Result<Vec<u8>, AllocError> {
    let mut content = Vec::new(alloc);
    for i in 0..2500u32 {
        content.push((i % 251) as u8)?;
    }
    Ok(content)
}

impl Given {
    fn new(alloc: Global) -> Result<Given, Fail> {
        Ok(Given {
            book: read(alloc, BOOK)?,
            other_book: read(alloc, OTHER_BOOK)?,
            content: content_of(alloc)?,
        })
    }

    fn sender(&self, alloc: Global) -> Station<'_> {
        Station {
            book: &self.book,
            partner: b"O0177CARMAKER",
            is_first: true,
            call: Operator::Submit(Submission {
                content: self.content.as_slice(),
                ..FILE
            }),
            stop: None,
            heard: Vec::new(alloc),
            content: self.content.as_slice(),
            wanted: AT_THE_SENDER,
        }
    }

    fn receiver(&self, alloc: Global, stop: Option<Stop>) -> Station<'_> {
        Station {
            book: &self.other_book,
            partner: b"O0013SUPPLIER",
            is_first: false,
            call: Operator::Release { no: 1 },
            stop,
            heard: Vec::new(alloc),
            content: self.content.as_slice(),
            wanted: AT_THE_RECEIVER,
        }
    }
}

/// A station. Its register follows from the octets that it received.
#[derive(Drop)]
struct Station<'a> {
    book: &'a Book,
    /// The other station's code.
    partner: &'static [u8],
    /// Whether it begins the first session of a round, and not the second.
    is_first: bool,
    /// The operator's call before each session that it begins.
    call: Operator<'a>,
    /// When its office fails in the first round.
    stop: Option<Stop>,
    /// The octets that it received in each session so far.
    heard: Vec<Vec<u8>>,
    /// The octets of the file.
    content: &'a [u8],
    /// Its register at the end.
    wanted: &'static str,
}

/// A station's part in a session: its output, and its register afterwards.
#[derive(Drop)]
struct Part {
    said: Vec<u8>,
    left: String,
}

impl Station<'_> {
    /// Its office after the sessions so far.
    fn office(&self, alloc: Global) -> Result<Noting, Fail> {
        let mut office = Noting::new(alloc, self.stop);
        for (session, heard) in self.heard.iter().enumerate() {
            self.serve(alloc, &mut office, session, heard.as_slice())?;
        }
        Ok(office)
    }

    /// Serves a session with this input. Returns its output. The office is opened again before the second round. A refused operator's call
    /// or a broken session doesn't fail the test.
    fn serve(
        &self,
        alloc: Global,
        office: &mut Noting,
        session: usize,
        heard: &[u8],
    ) -> Result<Vec<u8>, Fail> {
        if session == 2 {
            office.open_again();
        }
        let mut role = Role::Responder;
        if (session % 2 == 0) == self.is_first {
            let _ = call(alloc, office, self.book, &self.call, &mut Vec::new(alloc));
            role = caller(self.book, self.partner)?;
        }
        let heard = hear(alloc, office, self.book, role, Line::of(heard), u64::MAX);
        Ok(heard.said)
    }

    /// Its part in its next session, with this input.
    fn play(&self, alloc: Global, heard: &[u8]) -> Result<Part, Fail> {
        let mut office = self.office(alloc)?;
        let said = self.serve(alloc, &mut office, self.heard.len(), heard)?;
        let left = told(alloc, &mut office.office, self.content)?;
        Ok(Part { said, left })
    }
}

// For each incoming file the state, the number of rows, and how many of them are the content's.
fn add_incoming(text: &mut String, office: &mut PlainOffice, content: &[u8]) -> Result<(), Fail> {
    for file in office.list_in()? {
        let rows = office.rows_of(Side::Incoming, file.no, 0, file.rows)?;
        let mut same = 0u64;
        for (row, octets) in rows.as_slice().iter().zip(content.chunks(1024)) {
            same = same.wrapping_add(u64::from(row.octets() == octets));
        }
        writeln!(text, "in {:?} {} {same}", file.state, file.rows)?;
    }
    Ok(())
}

fn add_responses(text: &mut String, office: &mut PlainOffice) -> Result<(), Fail> {
    for issued in office.list_issued()? {
        let response = issued.response;
        writeln!(text, "issued {:?} {:?}", response.kind, response.dispatch)?;
    }
    for received in office.list_received()? {
        writeln!(text, "received {:?}", received.response.kind)?;
    }
    Ok(())
}

/// A register as text. For each outgoing file it has the state and the mark. For each incoming one it has the state, the number of rows,
/// and how many of them are the file's.
pub(crate) fn told(
    alloc: Global,
    office: &mut PlainOffice,
    content: &[u8],
) -> Result<String, Fail> {
    let mut text = String::new(alloc);
    for file in office.list_out()? {
        writeln!(text, "out {:?} {}", file.state, file.mark)?;
    }
    add_incoming(&mut text, office, content)?;
    add_responses(&mut text, office)?;
    Ok(text)
}

// What one says where it has heard this, and the other's answer.
fn exchange(
    alloc: Global,
    one: &Station<'_>,
    other: &Station<'_>,
    heard: &[u8],
) -> Result<(Vec<u8>, Vec<u8>), Fail> {
    let said = one.play(alloc, heard)?.said;
    let answer = other.play(alloc, said.as_slice())?.said;
    Ok((said, answer))
}

/// A session that doesn't break: each station receives the whole output of the other. It is repeated until neither sends more.
fn converse(alloc: Global, one: &mut Station<'_>, other: &mut Station<'_>) -> Result<(), Fail> {
    let mut heard = Vec::new(alloc);
    for _ in 0..99 {
        let (said, answer) = exchange(alloc, one, other, heard.as_slice())?;
        if answer.len() == heard.len() {
            one.heard.push(heard)?;
            other.heard.push(said)?;
            return Ok(());
        }
        heard = answer;
    }
    Err("they have more to say")?
}

/// Asserts that a station has its register of the end.
fn ends(alloc: Global, rt: &impl Abort, station: &Station<'_>) -> Result<(), Fail> {
    let mut office = station.office(alloc)?.office;
    let text = told(alloc, &mut office, station.content)?;
    assert_eq!(rt; text.as_str(), station.wanted);
    Ok(())
}

/// Continues to the end of the second round, and asserts that both have their registers of the end.
fn finish(
    alloc: Global,
    rt: &impl Abort,
    one: &mut Station<'_>,
    other: &mut Station<'_>,
) -> Result<(), Fail> {
    for _ in one.heard.len()..4 {
        converse(alloc, one, other)?;
    }
    ends(alloc, rt, one)?;
    ends(alloc, rt, other)
}

/// A session that breaks: what one station has said in it, and the other's part.
#[derive(Drop)]
struct Broken {
    said: Vec<u8>,
    answer: Part,
}

impl Broken {
    /// The other station's part in it, if the first says this. It is played again only when that is longer than before.
    fn goes_on(&mut self, alloc: Global, other: &Station<'_>, says: Vec<u8>) -> Result<(), Fail> {
        if says.len() != self.said.len() {
            self.answer = other.play(alloc, says.as_slice())?;
            self.said = says;
        }
        Ok(())
    }

    /// Both registers, if the first station receives this.
    fn left(
        &mut self,
        alloc: Global,
        rt: &impl Abort,
        one: &Station<'_>,
        other: &Station<'_>,
        heard: &[u8],
    ) -> Result<String, Fail> {
        let Part { said, left } = one.play(alloc, heard)?;
        self.goes_on(alloc, other, said)?;
        assert!(rt; self.answer.said.as_slice().starts_with(heard));
        let other_left = self.answer.left.as_str();
        Ok(format!(in alloc; "{left}{other_left}")?)
    }
}

/// Plays the sessions that follow one in which the stations received this.
fn finish_after(
    alloc: Global,
    rt: &impl Abort,
    one: &mut Station<'_>,
    other: &mut Station<'_>,
    heard: &[u8],
    said: &[u8],
) -> Result<(), Fail> {
    let sessions = one.heard.len();
    one.heard.push(heard.to_vec(alloc)?)?;
    other.heard.push(said.to_vec(alloc)?)?;
    finish(alloc, rt, one, other)?;
    one.heard.truncate(sessions);
    other.heard.truncate(sessions);
    Ok(())
}

/// Breaks the next session after each octet that one station receives in it. The other station receives the whole output of the first.
/// The following sessions depend on both registers, so they are only played when one has changed.
fn break_each(
    alloc: Global,
    rt: &impl Abort,
    one: &mut Station<'_>,
    other: &mut Station<'_>,
    heard: &[u8],
) -> Result<(), Fail> {
    let mut broken = Broken {
        said: Vec::new(alloc),
        answer: other.play(alloc, &[])?,
    };
    let mut before = String::new(alloc);
    for n in 0..heard.len() {
        let now = broken.left(alloc, rt, one, other, &heard[..n])?;
        if now != before {
            let said = broken.said.as_slice();
            finish_after(alloc, rt, one, other, &heard[..n], said)?;
            before = now;
        }
    }
    Ok(())
}

/// What a station received in the last session, which is taken back.
fn last_heard(station: &mut Station<'_>) -> Result<Vec<u8>, Fail> {
    Ok(station.heard.pop().ok_or("it heard nothing")?)
}

/// Breaks the next session after each octet of either direction. Then it is played without a break.
fn break_either(
    alloc: Global,
    rt: &impl Abort,
    sender: &mut Station<'_>,
    receiver: &mut Station<'_>,
) -> Result<(), Fail> {
    converse(alloc, sender, receiver)?;
    let to_sender = last_heard(sender)?;
    let to_receiver = last_heard(receiver)?;
    break_each(alloc, rt, sender, receiver, to_sender.as_slice())?;
    break_each(alloc, rt, receiver, sender, to_receiver.as_slice())?;
    sender.heard.push(to_sender)?;
    receiver.heard.push(to_receiver)?;
    Ok(())
}

/// The connection breaks in the first round, in each of its sessions after each octet of either direction in turn.
#[test]
fn break_after_each_octet(rt: HostRuntime) -> Result<(), Fail> {
    let alloc = rt.alloc();
    let given = Given::new(alloc)?;
    let mut sender = given.sender(alloc);
    let mut receiver = given.receiver(alloc, None);
    for _ in 0..2 {
        break_either(alloc, &rt, &mut sender, &mut receiver)?;
    }
    finish(alloc, &rt, &mut sender, &mut receiver)
}

/// Whether a station's office has failed.
fn is_stopped(alloc: Global, station: &Station<'_>) -> Result<bool, Fail> {
    Ok(station.office(alloc)?.is_stopped)
}

/// The receiver's office fails so in the first round.
fn stop_at(alloc: Global, rt: &impl Abort, given: &Given, stop: Stop) -> Result<(), Fail> {
    let mut sender = given.sender(alloc);
    let mut receiver = given.receiver(alloc, Some(stop));
    for _ in 0..2 {
        converse(alloc, &mut sender, &mut receiver)?;
    }
    let commits = stop.commits;
    let is_stopped = is_stopped(alloc, &receiver)?;
    assert_eq!(rt; is_stopped, commits < 6, "at {commits}");
    finish(alloc, rt, &mut sender, &mut receiver)
}

/// The receiver's office fails in the first round, in each of its commits in turn, before the change and after it. The commits begin the
/// file, store its first row and its second, close it, release it and send the response.
#[test]
fn stop_at_each_write(rt: HostRuntime) -> Result<(), Fail> {
    let alloc = rt.alloc();
    let given = Given::new(alloc)?;
    for is_made in [false, true] {
        for commits in 0..7 {
            stop_at(alloc, &rt, &given, Stop { commits, is_made })?;
        }
    }
    Ok(())
}
