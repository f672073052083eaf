//! Lists of jobs of which one fails.

use super::{INPUT, OUTPUT};
use oftp_engine::{End, Job, Operator, Port, Role, RunFault, Told, run};
use oftp_partners::read;
use oftp_test_parts::given::{BOOK, FILE};
use oftp_test_parts::hearing::Line;
use oftp_test_parts::noting::Noting;
use std::alloc::Global;
use std::process::Abort;
use std::test::Fail;

type AnyJob<'a> = Job<'a, Line<'a>, Vec<u8>>;

// A session in which the partner calls and sends an EERP.
fn session<'a>(alloc: Global, breaks: bool) -> AnyJob<'a> {
    let line = Line {
        octets: INPUT,
        at_once: 1,
        breaks,
    };
    Job::session(
        Role::Responder,
        Port::new(line, 1_000_000),
        Port::new(Vec::new(alloc), 0),
    )
}

// A submission.
fn submission<'a>(alloc: Global) -> AnyJob<'a> {
    Job::call(Operator::Submit(FILE), Port::new(Vec::new(alloc), 0))
}

/// The result of a job: a session with this many octets of output, or a call with its line.
#[derive(Drop)]
enum Wanted {
    Session(Option<Result<End, RunFault>>, u64),
    Call(Option<Result<Told, RunFault>>, &'static str),
}

fn is_so(job: &AnyJob<'_>, wanted: &Wanted) -> bool {
    match (job, wanted) {
        (Job::Session(session), Wanted::Session(answer, octets)) => {
            session.result == *answer && session.writer.moved() == *octets
        }
        (Job::Call(call), Wanted::Call(answer, line)) => {
            call.result == *answer && call.writer.inner().as_slice() == line.as_bytes()
        }
        _ => false,
    }
}

/// Does a session, whose reader fails if `breaks`, a submission and another session, and compares their results.
fn list(
    alloc: Global,
    rt: &impl Abort,
    office: &mut Noting,
    breaks: bool,
    answer: Result<(), RunFault>,
    wanted: &[Wanted; 3],
) -> Result<(), Fail> {
    let book = read(alloc, BOOK)?;
    let mut jobs = [
        session(alloc, breaks),
        submission(alloc),
        session(alloc, false),
    ];
    assert_eq!(rt; run(alloc, office, &book, &mut jobs), answer);
    for (at, (job, wanted)) in jobs.iter().zip(wanted).enumerate() {
        assert!(rt; is_so(job, wanted), "job {at}");
    }
    Ok(())
}

/// The reader of the first job fails, and the other jobs are done. Each session sent its SSRM, its SSID and the RTR.
#[test]
fn a_list_goes_on(rt: HostRuntime) -> Result<(), Fail> {
    let wanted = [
        Wanted::Session(Some(Err(RunFault::Read)), 93),
        Wanted::Call(Some(Ok(Told::Done(1))), "done: submit 1\n"),
        Wanted::Session(Some(Ok(End::Input)), 93),
    ];
    let mut office = Noting::new(rt.alloc(), None);
    list(rt.alloc(), &rt, &mut office, true, Ok(()), &wanted)
}

/// The office fails in the first job, and the list ends there: the other jobs are unchanged.
#[test]
fn a_list_ends(rt: HostRuntime) -> Result<(), Fail> {
    let wanted = [
        Wanted::Session(Some(Err(RunFault::Office)), OUTPUT.len() as u64),
        Wanted::Call(None, ""),
        Wanted::Session(None, 0),
    ];
    let mut office = Noting::failing(rt.alloc(), true);
    let answer = Err(RunFault::Office);
    list(rt.alloc(), &rt, &mut office, false, answer, &wanted)?;
    assert_eq!(rt; office.faults(), 1);
    Ok(())
}
