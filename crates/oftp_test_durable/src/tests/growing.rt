//! Jobs of a life over a database, each done as it comes. The expected octets are written by hand from RFC 5024.

use super::READY;
use super::files::{Trial, files_to_send, over_files, remove_files};
use oftp_durable::{begin_durable, end_durable, live_durable, order_durable, stage_durable};
use oftp_engine::{Operator, Port, Refusal, Role, RunFault, Told};
use oftp_life::{Life, Stage};
use oftp_partners::{Book, read};
use oftp_store::SqlOffice;
use oftp_test_parts::given::{BOOK, FILE};
use sqlite::Alter;
use std::alloc::Global;
use std::process::Abort;
use std::test::Fail;

// The result of a call, and its line.
#[derive(Drop)]
struct Called {
    told: Result<Told, RunFault>,
    line: Vec<u8>,
}

fn carried_out<S: Alter>(
    alloc: Global,
    life: &mut Life<SqlOffice<S>>,
    book: &Book,
    call: &Operator<'_>,
) -> Called {
    let mut writer = Port::new(Vec::new(alloc), 0);
    let told = order_durable(life, alloc, book, call, &mut writer);
    Called {
        told,
        line: writer.into_inner(),
    }
}

// How a session stood when it ended, and all that it said.
#[derive(Drop)]
struct Talked {
    stage: Stage,
    said: Vec<u8>,
}

// Holds a session in which the partner sends nothing.
fn silence<S: Alter + Drop>(
    alloc: Global,
    life: Life<SqlOffice<S>>,
    book: &Book,
) -> (Life<SqlOffice<S>>, Talked) {
    let mut session = begin_durable(life, alloc, book, Role::Responder);
    let said = session.take_out(alloc);
    let stage = stage_durable(&session);
    let (life, _out) = end_durable(session);
    (life, Talked { stage, said })
}

// A file is handed in.
fn submit<S: Alter>(alloc: Global, rt: &impl Abort, life: &mut Life<SqlOffice<S>>, book: &Book) {
    let submit = carried_out(alloc, life, book, &Operator::Submit(FILE));
    assert!(rt; submit.told == Ok(Told::Done(1)));
    assert!(rt; submit.line.as_slice() == "done: submit 1\n".as_bytes());
}

// The session waited to its end.
fn waited(rt: &impl Abort, talked: &Talked) {
    assert!(rt; talked.stage == Stage::Waits);
    assert!(rt; talked.said.as_slice() == READY);
}

// A call is refused.
fn release<S: Alter>(alloc: Global, rt: &impl Abort, life: &mut Life<SqlOffice<S>>, book: &Book) {
    let release = carried_out(alloc, life, book, &Operator::Release { no: 1 });
    assert!(rt; release.told == Ok(Told::Refused(Refusal::Unknown)));
}

// A call, a session and a call that is refused are done one by one, and each has its result.
fn grow<S: Alter + Drop>(
    alloc: Global,
    rt: &impl Abort,
    life: Life<SqlOffice<S>>,
    book: &Book,
) -> Life<SqlOffice<S>> {
    let mut life = life;
    submit(alloc, rt, &mut life, book);
    let (mut life, talked) = silence(alloc, life, book);
    waited(rt, &talked);
    release(alloc, rt, &mut life, book);
    life
}

// These jobs, and then how many files there are to send.
#[derive(Drop)]
struct Growing<'a> {
    book: &'a Book,
}

impl Trial for Growing<'_> {
    type Found = usize;

    fn carry_out<S: Alter + Drop>(
        &self,
        alloc: Global,
        rt: &impl Abort,
        office: SqlOffice<S>,
    ) -> Result<usize, Fail> {
        let mut life = grow(alloc, rt, live_durable(office), self.book);
        Ok(files_to_send(&mut life)?)
    }
}

// The database's files.
const FILES: [&str; 2] = ["growing_test.db", "growing_test.db-wal"];

/// Jobs are done in a life as they come, over a database's files.
#[test]
fn jobs_as_they_come(rt: HostRuntime) -> Result<(), Fail> {
    let book = read(rt.alloc(), BOOK)?;
    remove_files(&rt, &FILES);
    let files = over_files(&rt, &rt, &FILES, &Growing { book: &book })?;
    assert_eq!(rt; files, 1);
    remove_files(&rt, &FILES);
    Ok(())
}
