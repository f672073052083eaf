//! A session of a life over a database whose input arrives in three pieces, with look-ups between them. The octets are written by hand from
//! RFC 5024.

use super::files::{Trial, over_files, remove_files};
use oftp_durable::{begin_durable, end_durable, hear_durable, live_durable};
use oftp_engine::{End, Port, Role, RunFault, serve};
use oftp_life::{Life, LifeSession};
use oftp_partners::{Book, read};
use oftp_register::PlainOffice;
use oftp_session::Ending;
use oftp_store::SqlOffice;
use oftp_test_parts::given::{BOOK, LIMITS};
use oftp_test_parts::snapshot::snapshot;
use oftp_wire::Count;
use sqlite::Alter;
use std::alloc::{AllocError, Global};
use std::process::Abort;
use std::test::Fail;

/// The partner's SSID, SFID of a file in V, DATA with two records, DATA with a third one, EFID and ESID 00. Of the two records the second
/// is empty. They are cut within the password, and within the header of the last DATA.
const PIECES: [&[u8]; 3] = [
    b"\x10\0\0\x41X5O0177CARMAKER            CAR",
    b"PW   00128BNYN002N            \r\
      \x10\0\0\xa9HABC                          202401311015300001        O0013SUPPLIER            O0177CARMAKER            V00003\
      0000000000001000000000000100000000000000000\
      00000\
      0N000\
      \x10\0\0\x09D\x83ABC\x10\0\0\x06D\x80\x10\0\0",
    b"\x08D\x82DE\x10\0\0\x27T0000000000000000300000000000000005\x10\0\0\x0bF00000\r",
];

/// The station's SSRM and its SSID, SFPA from row 0 on, CDT for two DATA, and EFPA.
const SAID: &[u8] =
    b"\x10\0\0\x17IODETTE FTP READY \r\x10\0\0\x41X5O0013SUPPLIER            SUPPW   00128BNYN002N            \r\
      \x10\0\0\x16200000000000000000\x10\0\0\x07C  \x10\0\0\x064N";

/// The two records are stored after CDT.
const MEANWHILE: &str =
    "in 1 Open 2 ABC 20240131 1015300001 O0177CARMAKER O0013SUPPLIER Variable 3 |ABC|\n";

const WHOLE: &str =
    "in 1 Whole 3 ABC 20240131 1015300001 O0177CARMAKER O0013SUPPLIER Variable 3 |ABC||DE\n";

/// The result of the session.
#[derive(Drop)]
struct Talk {
    /// The end, if it has one, after each piece.
    ends: [Option<Ending>; 3],
    /// The register before the last piece.
    meanwhile: String,
    said: Vec<u8>,
}

// Gives it a piece, in a function of its own, so that the proof of the others doesn't carry its effects.
fn take<S: Alter>(
    session: &mut LifeSession<'_, SqlOffice<S>>,
    piece: &[u8],
) -> Result<Option<Ending>, RunFault> {
    hear_durable(session, piece)
}

// Gives it the pieces, and reads the register after the second.
fn take_all<S: Alter>(
    alloc: Global,
    session: &mut LifeSession<'_, SqlOffice<S>>,
) -> Result<Talk, Fail> {
    let [first, second, third] = PIECES;
    let one = take(session, first)?;
    let two = take(session, second)?;
    let meanwhile = snapshot(alloc, session)?;
    let three = take(session, third)?;
    Ok(Talk {
        ends: [one, two, three],
        meanwhile,
        said: session.take_out(alloc),
    })
}

// Holds the session.
fn converse<S: Alter + Drop>(
    alloc: Global,
    life: Life<SqlOffice<S>>,
    book: &Book,
) -> Result<Talk, Fail> {
    let mut session = begin_durable(life, alloc, book, Role::Responder);
    let talk = take_all(alloc, &mut session)?;
    let (_life, _out) = end_durable(session);
    Ok(talk)
}

// The session waits after two pieces, and then the partner ends it without an error.
fn is_heard(talk: &Talk) -> bool {
    talk.ends == [None, None, Some(Ending::Partner(Count::new(0)))]
        && talk.meanwhile.as_str() == MEANWHILE
        && talk.said.as_slice() == SAID
}

// All pieces at once.
fn all_octets(alloc: Global) -> Result<Vec<u8>, AllocError> {
    let mut octets = Vec::new(alloc);
    for piece in PIECES {
        octets.extend_from_slice(piece)?;
    }
    Ok(octets)
}

// A session in memory with these octets. Its output is the same.
fn hear_at_once(
    alloc: Global,
    rt: &impl Abort,
    office: &mut PlainOffice,
    book: &Book,
    octets: &[u8],
) {
    let mut reader = Port::new(octets, 1_000_000);
    let mut writer = Port::new(Vec::new(alloc), 0);
    let role = Role::Responder;
    let end = serve(alloc, office, book, role, &mut reader, &mut writer);
    assert!(rt; end == Ok(End::Partner(Count::new(0))));
    assert!(rt; writer.inner().as_slice() == SAID);
}

// The register after a session in memory with all pieces at once.
fn left_at_once(alloc: Global, rt: &impl Abort, book: &Book) -> Result<String, Fail> {
    let octets = all_octets(alloc)?;
    let mut office = PlainOffice::new(alloc, LIMITS);
    hear_at_once(alloc, rt, &mut office, book, octets.as_slice());
    Ok(snapshot(alloc, &mut office)?)
}

// The database's files.
const FILES: [&str; 2] = ["conversation_test.db", "conversation_test.db-wal"];

// The session.
#[derive(Drop)]
struct Conversing<'a> {
    book: &'a Book,
}

impl Trial for Conversing<'_> {
    type Found = Talk;

    fn carry_out<S: Alter + Drop>(
        &self,
        alloc: Global,
        _rt: &impl Abort,
        office: SqlOffice<S>,
    ) -> Result<Talk, Fail> {
        converse(alloc, live_durable(office), self.book)
    }
}

// The register.
#[derive(Drop)]
struct Register;

impl Trial for Register {
    type Found = String;

    fn carry_out<S: Alter + Drop>(
        &self,
        alloc: Global,
        _rt: &impl Abort,
        office: SqlOffice<S>,
    ) -> Result<String, Fail> {
        let mut office = office;
        Ok(snapshot(alloc, &mut office)?)
    }
}

// Holds the session over the files. `rt` is the test's own runtime again.
fn hear_in_pieces(host: &HostRuntime, rt: &impl Abort, book: &Book) -> Result<(), Fail> {
    let talk = over_files(host, rt, &FILES, &Conversing { book })?;
    assert!(rt; is_heard(&talk));
    Ok(())
}

// Compares the register that the files then have.
fn compare(host: &HostRuntime, rt: &impl Abort, at_once: &str) -> Result<(), Fail> {
    let found = over_files(host, rt, &FILES, &Register)?;
    assert_eq!(rt; found.as_str(), WHOLE);
    assert_eq!(rt; found.as_str(), at_once);
    Ok(())
}

/// The session waits after the second piece, and the register can be read. At its end the database has the same register as after a
/// session with all pieces at once.
#[test]
fn conversation_over_a_database(rt: HostRuntime) -> Result<(), Fail> {
    let alloc = rt.alloc();
    let book = read(alloc, BOOK)?;
    remove_files(&rt, &FILES);
    hear_in_pieces(&rt, &rt, &book)?;
    let at_once = left_at_once(alloc, &rt, &book)?;
    compare(&rt, &rt, at_once.as_str())?;
    remove_files(&rt, &FILES);
    Ok(())
}
