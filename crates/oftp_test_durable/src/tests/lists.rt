//! Sessions, calls and lists over a database. The expected octets are written by hand from RFC 5024.

use super::READY;
use super::files::{Trial, files_to_send, over_files, remove_files};
use oftp_durable::{operate_durable, run_at, run_durable, serve_durable};
use oftp_engine::{End, Job, Operator, Port, Refusal, Role, RunFault, Told};
use oftp_partners::{Book, read};
use oftp_store::SqlOffice;
use oftp_test_parts::given::{BOOK, FILE, LIMITS};
use sqlite::{Alter, Unknown};
use std::alloc::Global;
use std::process::Abort;
use std::test::Fail;

type AnyJob<'a> = Job<'a, &'static [u8], Vec<u8>>;

// An operator's call.
fn call<'a>(alloc: Global, operator: Operator<'a>) -> AnyJob<'a> {
    Job::call(operator, Port::new(Vec::new(alloc), 0))
}

// The result of a call.
fn answer(job: &AnyJob<'_>) -> Option<Result<Told, RunFault>> {
    match job {
        Job::Session(_) => None,
        Job::Call(call) => call.result,
    }
}

// Opens an office again over its connection, and counts the outgoing files.
fn files_again<S: Alter + Drop>(alloc: Global, office: SqlOffice<S>) -> Result<usize, Fail> {
    let conn = office.into_conn();
    if !conn.is_autocommit() {
        return Err("in a transaction".into());
    }
    let Ok(mut office) = SqlOffice::open(alloc, conn, LIMITS) else {
        return Err("not opened".into());
    };
    Ok(files_to_send(&mut office)?)
}

// A session in which the partner sends nothing.
fn silence<S: Alter>(
    alloc: Global,
    office: &mut SqlOffice<S>,
    book: &Book,
    said: &mut Vec<u8>,
) -> Result<End, RunFault> {
    let nothing: &[u8] = b"";
    let mut reader = Port::new(nothing, 1_000);
    let mut writer = Port::new(Vec::new(alloc), 0);
    let role = Role::Responder;
    let end = serve_durable(alloc, office, book, role, &mut reader, &mut writer);
    *said = writer.into_inner();
    end
}

fn submit<S: Alter>(
    alloc: Global,
    office: &mut SqlOffice<S>,
    book: &Book,
    line: &mut Vec<u8>,
) -> Result<Told, RunFault> {
    let mut writer = Port::new(Vec::new(alloc), 0);
    let call = Operator::Submit(FILE);
    let told = operate_durable(alloc, office, book, &call, &mut writer);
    *line = writer.into_inner();
    told
}

// It does a call.
fn does_call<S: Alter>(alloc: Global, rt: &impl Abort, office: &mut SqlOffice<S>, book: &Book) {
    let mut line = Vec::new(alloc);
    let told = submit(alloc, office, book, &mut line);
    assert!(rt; told == Ok(Told::Done(1)));
    assert!(rt; line.as_slice() == "done: submit 1\n".as_bytes());
}

// It does a session.
fn does_session<S: Alter>(alloc: Global, rt: &impl Abort, office: &mut SqlOffice<S>, book: &Book) {
    let mut said = Vec::new(alloc);
    let end = silence(alloc, office, book, &mut said);
    assert!(rt; end == Ok(End::Input));
    assert!(rt; said.as_slice() == READY);
}

// It does a list.
fn does_list<S: Alter>(
    alloc: Global,
    rt: &impl Abort,
    office: &mut SqlOffice<S>,
    book: &Book,
) -> Result<(), RunFault> {
    let mut jobs = [call(alloc, Operator::Release { no: 1 })];
    run_durable(alloc, office, book, &mut jobs)?;
    assert!(rt; answer(&jobs[0]) == Some(Ok(Told::Refused(Refusal::Unknown))));
    Ok(())
}

// One office does a call, a session and a list.
fn work<S: Alter>(alloc: Global, rt: &impl Abort, office: &mut SqlOffice<S>) -> Result<(), Fail> {
    let book = read(alloc, BOOK)?;
    does_call(alloc, rt, office, &book);
    does_session(alloc, rt, office, &book);
    Ok(does_list(alloc, rt, office, &book)?)
}

// How many files there are to send once the office is opened again, and before that its work, if it has some.
#[derive(Drop)]
struct Again {
    has_work: bool,
}

impl Trial for Again {
    type Found = usize;

    fn carry_out<S: Alter + Drop>(
        &self,
        alloc: Global,
        rt: &impl Abort,
        office: SqlOffice<S>,
    ) -> Result<usize, Fail> {
        let mut office = office;
        if self.has_work {
            work(alloc, rt, &mut office)?;
        }
        files_again(alloc, office)
    }
}

// The database's files.
const FILES: [&str; 2] = ["stations_test.db", "stations_test.db-wal"];

// Does a list over the files.
fn list(rt: &HostRuntime, book: &Book, jobs: &mut [AnyJob<'_>]) -> Option<Result<(), RunFault>> {
    match run_at(rt, FILES[0], LIMITS, Unknown, book, jobs) {
        Ok(ran) => Some(ran.result),
        Err(_) => None,
    }
}

// Hands a file in by a list over the files. `rt` is the test's own runtime again.
fn list_a_call(host: &HostRuntime, rt: &impl Abort) -> Result<(), Fail> {
    let book = read(host.alloc(), BOOK)?;
    let mut jobs = [call(host.alloc(), Operator::Submit(FILE))];
    let ran = list(host, &book, &mut jobs);
    assert!(rt; ran == Some(Ok(())));
    assert!(rt; answer(&jobs[0]) == Some(Ok(Told::Done(1))));
    Ok(())
}

/// A list is done over the files at a path, and its file exists when they are opened again. An office works over new files.
#[test]
fn list_over_files(rt: HostRuntime) -> Result<(), Fail> {
    remove_files(&rt, &FILES);
    list_a_call(&rt, &rt)?;
    assert_eq!(rt;
        over_files(&rt, &rt, &FILES, &Again { has_work: false })?,
        1
    );
    remove_files(&rt, &FILES);
    assert_eq!(rt; over_files(&rt, &rt, &FILES, &Again { has_work: true })?, 1);
    remove_files(&rt, &FILES);
    Ok(())
}
