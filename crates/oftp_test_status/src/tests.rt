//! How a station stands, worked out by hand: moments, counters, texts, verdicts, and what is open.

use oftp_status::{
    Ending, Grade, Held, Limits, Media, Overdue, Partner, Picture, Standing, Subject, Tallies,
    Terms, Way, add_open, last_good, metrics, moment_of, reply_with, status_json, status_lines,
    verdict_on,
};
use oftp_wire::Count;
use std::alloc::{AllocError, Global};
use std::process::Abort;
use std::test::Fail;

/// Stamps, and the seconds since 1970 that Python's calendar.timegm worked out.
const MOMENTS: [(&str, &str, u64); 7] = [
    ("19700101", "0000000000", 0),
    ("20240229", "2359590001", 1709251199),
    ("20240301", "0000000001", 1709251200),
    ("20000229", "0000000001", 951782400),
    ("21000301", "0000000001", 4107542400),
    ("20261129", "1200000001", 1795953600),
    ("20261231", "2359599999", 1798761599),
];

/// The moment of the picture: noon on 29 November 2026.
const NOW: u64 = 1795953600;

/// An hour and a day.
const HOUR: u64 = 3_600;

const DAY: u64 = 86_400;

#[test]
fn moments_of_stamps(rt: HostRuntime) {
    for (date, time, moment) in &MOMENTS {
        assert_eq!(rt; moment_of(date.as_bytes(), time.as_bytes()), *moment);
    }
    assert_eq!(rt; moment_of(b"2026112", b"1200000001"), 12 * HOUR);
}

/// A session with a partner.
fn session(alloc: Global, code: &str, way: Way, end: Ending) -> Result<Subject, AllocError> {
    Ok(Subject::Session {
        partner: String::from_str(alloc, code)?,
        way,
        end,
    })
}

/// A file of a partner.
fn file(alloc: Global, code: &str, standing: Standing) -> Result<Subject, AllocError> {
    Ok(Subject::File {
        partner: String::from_str(alloc, code)?,
        standing,
    })
}

/// Counters of a day. Three good sessions with O1, the last an hour ago, a wrong password of O2, and what else is counted, once each.
fn counters(alloc: Global) -> Result<Tallies, AllocError> {
    let mut counted = Tallies::new(alloc);
    let good = Ending::Partner(Count::new(0));
    counted.note(session(alloc, "O1", Way::Out, good)?, NOW - 3 * HOUR)?;
    counted.note(
        session(alloc, "O2", Way::Out, Ending::Partner(Count::new(4)))?,
        NOW - HOUR,
    )?;
    counted.note(session(alloc, "O1", Way::Out, good)?, NOW - HOUR)?;
    counted.note(session(alloc, "O1", Way::Out, good)?, NOW - 2 * HOUR)?;
    counted.note(
        Subject::NotLetIn {
            reason: Count::new(3),
        },
        NOW - 60,
    )?;
    let partner = String::from_str(alloc, "O2")?;
    counted.note(Subject::NotReached { partner }, NOW - 59)?;
    counted.note(Subject::Backup, NOW - 10 * HOUR)?;
    Ok(counted)
}

/// Files: two of O1 to be released, the oldest an hour old; one to O2 that waits for two days and an hour.
fn files(alloc: Global) -> Result<Tallies, AllocError> {
    let mut files = Tallies::new(alloc);
    files.note(file(alloc, "O1", Standing::Whole)?, NOW - HOUR)?;
    files.note(file(alloc, "O1", Standing::Whole)?, NOW - 5)?;
    files.note(file(alloc, "O2", Standing::Waiting)?, NOW - 49 * HOUR)?;
    Ok(files)
}

/// The partners of the book.
const PARTNERS: [Partner<'static>; 2] = [
    Partner {
        code: "O1",
        next_call: Some(NOW + 120),
    },
    Partner {
        code: "O2",
        next_call: None,
    },
];

/// The picture of these, of a station that began a day ago.
fn picture<'a>(counters: &'a Tallies, files: &'a Tallies) -> Picture<'a> {
    Picture {
        version: "1.0.0",
        moment: NOW,
        since: NOW - DAY,
        database: "s.db",
        octets: 4_096,
        going: None,
        partners: &PARTNERS,
        counters: counters.list(),
        files: files.list(),
    }
}

#[test]
fn counters_counted(rt: HostRuntime) -> Result<(), Fail> {
    let counted = counters(rt.alloc())?;
    let list = counted.list();
    assert_eq!(rt; list.len(), 5);
    assert_eq!(rt; list[0].count, 3);
    assert_eq!(rt; list[0].first, NOW - 3 * HOUR);
    assert_eq!(rt; list[0].last, NOW - HOUR);
    assert_eq!(rt; list[1].count, 1);
    assert_eq!(rt; last_good(list, "O1", Way::Out), NOW - HOUR);
    assert_eq!(rt; last_good(list, "O1", Way::In), 0);
    assert_eq!(rt; last_good(list, "O2", Way::Out), 0);
    Ok(())
}

/// The lines of the metrics that have no `#`.
const SAMPLES: [&str; 16] = [
    "oftp_up 1",
    "oftp_build_info{version=\"1.0.0\"} 1",
    "oftp_start_time_seconds 1795867200",
    "oftp_database_bytes 4096",
    "oftp_sessions_running 0",
    "oftp_last_good_session_timestamp_seconds{partner=\"O1\",way=\"out\"} 1795950000",
    "oftp_files{way=\"in\",state=\"whole\",partner=\"O1\"} 2",
    "oftp_files{way=\"out\",state=\"waiting\",partner=\"O2\"} 1",
    "oftp_oldest_seconds{way=\"in\",state=\"whole\",partner=\"O1\"} 3600",
    "oftp_oldest_seconds{way=\"out\",state=\"waiting\",partner=\"O2\"} 176400",
    "oftp_sessions_total{partner=\"O1\",way=\"out\",end=\"partner 00\"} 3",
    "oftp_sessions_total{partner=\"O2\",way=\"out\",end=\"partner 04\"} 1",
    "oftp_not_let_in_total{reason=\"03\"} 1",
    "oftp_not_reached_total{partner=\"O2\"} 1",
    "oftp_backups_total 1",
    "oftp_last_backup_timestamp_seconds 1795917600",
];

/// The picture as JSON.
const OBJECT: &str = concat!(
    "{\"version\":\"1.0.0\",\"now\":1795953600,\"since\":1795867200,\"database\":\"s.db\",\"octets\":4096,\"session",
    "\":null,\"partners\":[{\"code\":\"O1\",\"next_call\":1795953720},{\"code\":\"O2\"}],\"counters\":[{\"kind\":\"",
    "session\",\"partner\":\"O1\",\"way\":\"out\",\"end\":\"partner 00\",\"words\":\"partner 00 normal\",\"count\":",
    "3,\"first\":1795942800,\"last\":1795950000},{\"kind\":\"session\",\"partner\":\"O2\",\"way\":\"out\",\"end\":\"",
    "partner 04\",\"words\":\"partner 04 invalid password\",\"count\":1,\"first\":1795950000,\"last\":1795950000},{",
    "\"kind\":\"not let in\",\"reason\":3,\"count\":1,\"first\":1795953540,\"last\":1795953540},{\"kind\":\"not rea",
    "ched\",\"partner\":\"O2\",\"count\":1,\"first\":1795953541,\"last\":1795953541},{\"kind\":\"backup\",\"count\"",
    ":1,\"first\":1795917600,\"last\":1795917600}],\"files\":[{\"kind\":\"file\",\"partner\":\"O1\",\"way\":\"in\",",
    "\"state\":\"whole\",\"count\":2,\"first\":1795950000,\"last\":1795953595},{\"kind\":\"file\",\"partner\":\"O2\"",
    ",\"way\":\"out\",\"state\":\"waiting\",\"count\":1,\"first\":1795777200,\"last\":1795777200}]}\n",
);

/// The picture for people.
const LINES: &str = concat!(
    "version 1.0.0, up for 24 h 0 min\ndatabase s.db, 4096 octets\nno session\nO1, next call in 2 min\n  session ",
    "out: partner 00 normal, 1 h 0 min ago, 3 since the start\n  in whole: 2, the oldest of 1 h 0 min ago\nO2\n  se",
    "ssion out: partner 04 invalid password, 1 h 0 min ago, 1 since the start\n  not reached, 59 s ago, 1 since the",
    " start\n  out waiting: 1, the oldest of 2 d 1 h ago\nnot let in: own 03 user code not known, 1 min ago, 1 sinc",
    "e the start\nbackup, 10 h 0 min ago, 1 since the start\nto do: release or refuse 2 from O1\n",
);

#[test]
fn texts_of_a_picture(rt: HostRuntime) -> Result<(), Fail> {
    let (counted, stored) = (counters(rt.alloc())?, files(rt.alloc())?);
    let picture = picture(&counted, &stored);
    let json = status_json(rt.alloc(), &picture)?;
    assert!(rt; json.as_slice() == OBJECT.as_bytes());
    let lines = status_lines(rt.alloc(), &picture)?;
    assert!(rt; lines.as_slice() == LINES.as_bytes());
    Ok(())
}

#[test]
fn samples_of_a_picture(rt: HostRuntime) -> Result<(), Fail> {
    let (counted, stored) = (counters(rt.alloc())?, files(rt.alloc())?);
    let text = metrics(rt.alloc(), &picture(&counted, &stored))?;
    let mut place = 0;
    for line in text.as_slice().split(|octet| *octet == b'\n') {
        if line.first() != Some(&b'#') && !line.is_empty() {
            assert!(rt;
                SAMPLES
                    .get(place)
                    .is_some_and(|sample| sample.as_bytes() == line)
            );
            place += 1;
        }
    }
    assert_eq!(rt; place, SAMPLES.len());
    Ok(())
}

/// The verdict by these limits in hours, with one of the partner O2's own.
fn judge(
    rt: &impl Abort,
    alloc: Global,
    (warn, critical): (u64, u64),
    overdues: &[Overdue<'_>],
    grade: Grade,
    line: &str,
) -> Result<(), Fail> {
    let (counted, stored) = (counters(alloc)?, files(alloc)?);
    let limits = Limits {
        warn: warn.saturating_mul(HOUR),
        critical: critical.saturating_mul(HOUR),
    };
    let terms = Terms { limits, overdues };
    let verdict = verdict_on(alloc, &picture(&counted, &stored), terms)?;
    assert_eq!(rt; verdict.grade, grade);
    assert!(rt; verdict.line.as_slice() == line.as_bytes());
    Ok(())
}

// The file to O2 waits for 49 hours. That is well up to a limit of 49, and no more than a warning up to a second one of 49.
#[test]
fn grades_at_the_limits(rt: HostRuntime) -> Result<(), Fail> {
    judge(
        &rt,
        rt.alloc(),
        (49, 60),
        &[],
        Grade::Fine,
        concat!(
            "OFTP OK - nothing is overdue | release=3600s;176400;216000;0 send=176400s;176400;216000;0 confirm=0s;176400;21",
            "6000;0 session=86400s;176400;216000;0 backup=36000s;176400;216000;0",
        ),
    )?;
    judge(
        &rt,
        rt.alloc(),
        (48, 49),
        &[],
        Grade::Warning,
        concat!(
            "OFTP WARNING - O2: a file waits 2 d 1 h to be sent | release=3600s;172800;176400;0 send=176400s;172800;176400;",
            "0 confirm=0s;172800;176400;0 session=86400s;172800;176400;0 backup=36000s;172800;176400;0",
        ),
    )?;
    judge(
        &rt,
        rt.alloc(),
        (47, 48),
        &[],
        Grade::Critical,
        concat!(
            "OFTP CRITICAL - O2: a file waits 2 d 1 h to be sent | release=3600s;169200;172800;0 send=176400s;169200;172800",
            ";0 confirm=0s;169200;172800;0 session=86400s;169200;172800;0 backup=36000s;169200;172800;0",
        ),
    )
}

// O2 has limits of its own, and O1 the others.
#[test]
fn limits_of_a_partner(rt: HostRuntime) -> Result<(), Fail> {
    let own = [Overdue {
        code: "O2",
        seconds: 23 * HOUR,
    }];
    let line = concat!(
        "OFTP CRITICAL - O2: a file waits 2 d 1 h to be sent - O2: no good session for 24 h 0 min | release=3600s;17640",
        "0;180000;0 send=176400s;176400;180000;0 confirm=0s;176400;180000;0 session=86400s;176400;180000;0 backup=36000",
        "s;176400;180000;0",
    );
    judge(&rt, rt.alloc(), (49, 50), &own, Grade::Critical, line)
}

#[test]
fn open_files(rt: HostRuntime) -> Result<(), Fail> {
    let mut text = Vec::new(rt.alloc());
    for standing in [Standing::Handed, Standing::Delivered] {
        let held = Held {
            no: 7,
            dataset: "ORDERS.1",
            date: "20261129",
            time: "1200000001",
            partner: "O1",
            standing,
        };
        add_open(rt.alloc(), &held, &mut text)?;
    }
    let line = "out 7 ORDERS.1 20261129 1200000001 O1: its response is to come\n";
    assert!(rt; text.as_slice() == line.as_bytes());
    Ok(())
}

#[test]
fn reply_of_metrics(rt: HostRuntime) -> Result<(), Fail> {
    let reply = reply_with(rt.alloc(), Media::Metrics, b"oftp_up 1\n")?;
    let text =
        "HTTP/1.1 200 OK\r\nContent-Type: text/plain; version=0.0.4; charset=utf-8\r\nContent-Length: 10\r\nConnection: close\r\n\r\noftp_up 1\n";
    assert!(rt; reply.as_slice() == text.as_bytes());
    Ok(())
}
