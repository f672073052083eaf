//! A file that comes, is refused by its user and answered, and a file that goes: their events, and the lines of these.

use oftp_events::{Direction, Event};
use oftp_register::{
    Change, DigitString, Identity, Name, Office, OfficeFault, PlainOffice, ResponseKind, Side,
};
use oftp_vfile::{Format, Limits, Row, Rows};
use oftp_watching::{
    Account, Answer, Cause, Dismissal, Farewell, Following, Moment, News, Occasion, Speaker,
    Subject, Talk, Watched, backed_up, known_in, measured, not_let_in, not_reached,
};
use oftp_wire::{Command, Count, Digits, Efid, Efna, Efpa, Layout, Sfid, Sfna, Sfpa, Text, X};
use std::alloc::Global;
use std::process::Abort;
use std::test::Fail;

const LIMITS: Limits = Limits {
    files: 10,
    octets: 1_000,
};

// The error of a wrong fixture.
const BAD: OfficeFault = OfficeFault::Store;

const AT: &str = "2026-11-29T07:26:46.000123Z";

fn text(words: &'static str) -> Result<Text<'static>, OfficeFault> {
    Text::new(words).ok_or(BAD)
}

fn code(letters: &'static [u8]) -> Result<Name<25>, OfficeFault> {
    Ok(Name::of(&X::new(letters).ok_or(BAD)?))
}

// A file with this name, of the partner O1 if it comes and to it if it goes.
fn file(dataset: &'static [u8], side: Side) -> Result<Identity, OfficeFault> {
    let (from, to): (&[u8], &[u8]) = match side {
        Side::Incoming => (b"O1", b"O2"),
        Side::Outgoing => (b"O2", b"O1"),
    };
    Ok(Identity {
        dataset: Name::of(&X::new(dataset).ok_or(BAD)?),
        date: DigitString::of(&Digits::new(b"20240131").ok_or(BAD)?),
        time: DigitString::of(&Digits::new(b"1015300001").ok_or(BAD)?),
        originator: code(from)?,
        destination: code(to)?,
    })
}

fn rows(alloc: Global, records: &[&[u8]]) -> Result<Rows, OfficeFault> {
    let mut rows = Vec::new(alloc);
    for record in records {
        rows.push(Row::new(Vec::from_slice(alloc, record)?))?;
    }
    Ok(Rows::new(rows))
}

fn start(side: Side) -> Result<Change<'static>, OfficeFault> {
    Ok(Change::Start {
        identity: file(b"A", side)?,
        format: Format::Variable,
        longest: 3,
        description: text("")?,
        count: 0,
    })
}

fn submit(alloc: Global) -> Result<Change<'static>, OfficeFault> {
    Ok(Change::Submit {
        identity: file(b"B", Side::Outgoing)?,
        format: Format::Unstructured,
        longest: 0,
        description: text("")?,
        rows: rows(alloc, &[b"xy"])?,
    })
}

// The line of what was noted, with what the office has of the file.
fn line_of<O: Office>(
    alloc: Global,
    office: &mut O,
    occasion: Occasion,
    moment: Moment,
) -> Result<Vec<u8>, OfficeFault> {
    let known = known_in(office, &moment.subject)?;
    let units = match &known {
        Some(file) => measured(office, moment.event, file)?,
        None => None,
    };
    let account = Account::new(alloc, occasion, moment, &known, units)?;
    Ok(account.to_line(alloc, AT)?)
}

// The events of these changes are these lines, in their order.
fn tells(
    rt: &impl Abort,
    alloc: Global,
    office: &mut Watched<'_, PlainOffice>,
    news: &News,
    lines: &[&str],
) -> Result<(), OfficeFault> {
    let moments = news.take(alloc);
    assert_eq!(rt; moments.len(), lines.len());
    for (moment, line) in moments.into_iter().zip(lines.iter()) {
        let told = line_of(alloc, office, Occasion::Session(3), moment)?;
        assert!(rt; told.as_slice() == line.as_bytes());
    }
    Ok(())
}

const COMES: [&str; 2] = [
    "{\"at\":\"2026-11-29T07:26:46.000123Z\",\"event\":\"started to come\",\"session\":3,\"partner\":\"O1\",\"way\":\"in\",\
         \"no\":1,\"dataset\":\"A\",\"date\":\"20240131\",\"time\":\"1015300001\",\"originator\":\"O1\",\"destination\":\"O2\",\
         \"format\":\"V\",\"rows\":0}\n",
    "{\"at\":\"2026-11-29T07:26:46.000123Z\",\"event\":\"came\",\"session\":3,\"partner\":\"O1\",\"way\":\"in\",\"no\":1,\
         \"dataset\":\"A\",\"date\":\"20240131\",\"time\":\"1015300001\",\"originator\":\"O1\",\"destination\":\"O2\",\
         \"format\":\"V\",\"rows\":2,\"units\":3}\n",
];

const ANSWERED: [&str; 2] = [
    "{\"at\":\"2026-11-29T07:26:46.000123Z\",\"event\":\"refused here\",\"session\":3,\"partner\":\"O1\",\"way\":\"in\",\
         \"no\":1,\"dataset\":\"A\",\"date\":\"20240131\",\"time\":\"1015300001\",\"originator\":\"O1\",\"destination\":\"O2\",\
         \"format\":\"V\",\"rows\":2,\"kind\":\"NERP\",\"reason\":\"34\",\"words\":\"file processing failed\",\
         \"text\":\"no part 7\"}\n",
    "{\"at\":\"2026-11-29T07:26:46.000123Z\",\"event\":\"response sent\",\"session\":3,\"partner\":\"O1\",\"way\":\"in\",\
         \"no\":1,\"dataset\":\"A\",\"date\":\"20240131\",\"time\":\"1015300001\",\"originator\":\"O1\",\"destination\":\"O2\",\
         \"format\":\"V\",\"rows\":2,\"kind\":\"NERP\",\"reason\":\"34\",\"words\":\"file processing failed\",\
         \"text\":\"no part 7\"}\n",
];

const GOES: [&str; 2] = [
    "{\"at\":\"2026-11-29T07:26:46.000123Z\",\"event\":\"submitted\",\"session\":3,\"partner\":\"O1\",\"way\":\"out\",\
         \"no\":1,\"dataset\":\"B\",\"date\":\"20240131\",\"time\":\"1015300001\",\"originator\":\"O2\",\"destination\":\"O1\",\
         \"format\":\"U\",\"rows\":1,\"units\":2}\n",
    "{\"at\":\"2026-11-29T07:26:46.000123Z\",\"event\":\"refused\",\"session\":3,\"partner\":\"O1\",\"way\":\"out\",\"no\":1,\
         \"dataset\":\"B\",\"date\":\"20240131\",\"time\":\"1015300001\",\"originator\":\"O2\",\"destination\":\"O1\",\
         \"format\":\"U\",\"rows\":1,\"reason\":\"13\",\"words\":\"duplicate file\"}\n",
];

#[test]
fn file_that_comes(rt: HostRuntime) -> Result<(), OfficeFault> {
    let alloc = rt.alloc();
    let news = News::new(alloc);
    let office = PlainOffice::new(alloc, LIMITS);
    let mut office = Watched::new(alloc, office, Some(&news));
    office.commit(start(Side::Incoming)?)?;
    office.commit(Change::Keep {
        no: 1,
        rows: rows(alloc, &[b"ab"])?,
    })?;
    let last = rows(alloc, &[b"c"])?;
    office.commit(Change::Close { no: 1, rows: last })?;
    // The register refuses it, so it is no event.
    assert!(&rt; office.commit(Change::GiveUp { no: 1 }).is_err());
    let [_, came] = COMES;
    let moments = news.take(alloc);
    assert_eq!(&rt; moments.len(), 2);
    for moment in moments {
        let is_last = moment.event == Event::Came;
        let told = line_of(alloc, &mut office, Occasion::Session(3), moment)?;
        assert!(&rt; told.as_slice() == (if is_last { came } else { COMES[0] }).as_bytes());
    }
    office.commit(Change::Issue {
        no: 1,
        kind: ResponseKind::NegativeEndResponse,
        reason: Count::new(34),
        text: text("no part 7")?,
    })?;
    office.commit(Change::Send { no: 1 })?;
    tells(&rt, alloc, &mut office, &news, &ANSWERED)
}

#[test]
fn file_that_goes(rt: HostRuntime) -> Result<(), OfficeFault> {
    let alloc = rt.alloc();
    let news = News::new(alloc);
    let office = PlainOffice::new(alloc, LIMITS);
    let mut office = Watched::new(alloc, office, Some(&news));
    office.commit(submit(alloc)?)?;
    office.commit(Change::Refuse {
        no: 1,
        reason: Count::new(13),
    })?;
    tells(&rt, alloc, &mut office, &news, &GOES)?;
    // Nobody wants to know it.
    let mut office = Watched::new(alloc, PlainOffice::new(alloc, LIMITS), None);
    office.commit(submit(alloc)?)?;
    assert_eq!(&rt; news.take(alloc).len(), 0);
    assert_eq!(&rt; news.lost(), 0);
    news.lose();
    assert_eq!(&rt; news.lost(), 1);
    Ok(())
}

// A command that came over the station's socket: its line ends with its user.
#[test]
fn file_of_a_user(rt: HostRuntime) -> Result<(), OfficeFault> {
    let alloc = rt.alloc();
    let news = News::new(alloc);
    let office = PlainOffice::new(alloc, LIMITS);
    let mut office = Watched::new(alloc, office, Some(&news));
    office.commit(submit(alloc)?)?;
    let Some(moment) = news.take(alloc).pop() else {
        return Err(BAD);
    };
    let line = line_of(alloc, &mut office, Occasion::of(None, Some(1_000)), moment)?;
    let wanted =
        "{\"at\":\"2026-11-29T07:26:46.000123Z\",\"event\":\"submitted\",\"partner\":\"O1\",\"way\":\"out\",\"no\":1,\
         \"dataset\":\"B\",\"date\":\"20240131\",\"time\":\"1015300001\",\"originator\":\"O2\",\"destination\":\"O1\",\
         \"format\":\"U\",\"rows\":1,\"units\":2,\"uid\":1000}\n";
    assert!(&rt; line.as_slice() == wanted.as_bytes());
    Ok(())
}

fn offer() -> Result<Command<'static>, OfficeFault> {
    Ok(Command::Sfid(Sfid {
        dataset: X::new(b"A").ok_or(BAD)?,
        date: Digits::new(b"20240131").ok_or(BAD)?,
        time: Digits::new(b"1015300001").ok_or(BAD)?,
        user: X::new(b"").ok_or(BAD)?,
        destination: X::new(b"O2").ok_or(BAD)?,
        originator: X::new(b"O1").ok_or(BAD)?,
        layout: Layout::Unstructured,
        size: Count::new(0),
        original_size: Count::new(0),
        restart: Count::new(0),
        security: Count::new(0),
        cipher: Count::new(0),
        compression: Count::new(0),
        enveloping: Count::new(0),
        signed_response: false,
        description: text("")?,
    }))
}

fn refusal() -> Result<Command<'static>, OfficeFault> {
    Ok(Command::Sfna(Sfna {
        reason: Count::new(13),
        retry: false,
        text: text("")?,
    }))
}

fn end_refusal() -> Result<Command<'static>, OfficeFault> {
    Ok(Command::Efna(Efna {
        reason: Count::new(10),
        text: text("")?,
    }))
}

fn acceptance() -> Command<'static> {
    Command::Sfpa(Sfpa {
        restart: Count::new(0),
    })
}

// The station refuses a file, and then the end of one.
#[test]
fn refused_by_the_station(rt: HostRuntime) -> Result<(), OfficeFault> {
    let mut following = Following::Idle;
    assert!(&rt; following.hear(Speaker::Partner, &offer()?).is_none());
    let Some(moment) = following.hear(Speaker::Station, &refusal()?) else {
        return Err(BAD);
    };
    assert_eq!(&rt; moment.event, Event::RefusedFile);
    assert!(&rt; matches!(moment.answer, Some(Answer::Sfna(_))));
    let mut office = PlainOffice::new(rt.alloc(), LIMITS);
    let line = line_of(rt.alloc(), &mut office, Occasion::of(None, None), moment)?;
    let wanted =
        "{\"at\":\"2026-11-29T07:26:46.000123Z\",\"event\":\"refused file\",\"partner\":\"O1\",\"way\":\"in\",\"dataset\":\"A\",\
         \"date\":\"20240131\",\"time\":\"1015300001\",\"originator\":\"O1\",\"destination\":\"O2\",\"reason\":\"13\",\
         \"words\":\"duplicate file\"}\n";
    assert!(&rt; line.as_slice() == wanted.as_bytes());
    let _ = following.hear(Speaker::Partner, &offer()?);
    let _ = following.hear(Speaker::Station, &acceptance());
    let _ = following.hear(Speaker::Partner, &end_of_file());
    let Some(moment) = following.hear(Speaker::Station, &end_refusal()?) else {
        return Err(BAD);
    };
    assert_eq!(&rt; moment.event, Event::RefusedEnd);
    assert!(&rt; following.end().is_none());
    Ok(())
}

fn end_of_file() -> Command<'static> {
    Command::Efid(Efid {
        records: Count::new(0),
        units: Count::new(2),
    })
}

fn end_acceptance() -> Command<'static> {
    Command::Efpa(Efpa {
        change_direction: false,
    })
}

// A file that the partner has accepted is broken off, until EFPA has come behind EFID. What the partner refuses is no event of these.
#[test]
fn broken_off(rt: HostRuntime) -> Result<(), OfficeFault> {
    let mut following = Following::Idle;
    let _ = following.hear(Speaker::Station, &offer()?);
    assert!(&rt; following.hear(Speaker::Partner, &refusal()?).is_none());
    let _ = following.hear(Speaker::Station, &offer()?);
    let _ = following.hear(Speaker::Partner, &acceptance());
    let _ = following.hear(Speaker::Station, &end_of_file());
    let Some(moment) = following.end() else {
        return Err(BAD);
    };
    assert_eq!(&rt; moment.event, Event::BrokenOff);
    assert!(&rt; matches!(moment.subject, Subject::Named(Side::Outgoing, _)));
    let mut following = Following::Closing(Side::Outgoing, file(b"B", Side::Outgoing)?);
    assert!(&rt;
        following
            .hear(Speaker::Partner, &end_acceptance())
            .is_none()
    );
    assert!(&rt; following.end().is_none());
    Ok(())
}

// An EFPA before EFID is out of its place: the file is broken off.
#[test]
fn answered_too_early(rt: HostRuntime) -> Result<(), OfficeFault> {
    let mut following = Following::Going(Side::Outgoing, file(b"B", Side::Outgoing)?);
    assert!(&rt;
        following
            .hear(Speaker::Partner, &end_acceptance())
            .is_none()
    );
    assert!(&rt; following.end().is_some());
    Ok(())
}

fn is_line(
    rt: &impl Abort,
    alloc: Global,
    line: &oftp_events::EventLine<'_>,
    wanted: &str,
) -> Result<(), Fail> {
    let octets = line.to_line(alloc)?;
    assert!(rt; octets.as_slice() == wanted.as_bytes());
    Ok(())
}

#[test]
fn session(rt: HostRuntime) -> Result<(), Fail> {
    let mut talk = Talk {
        number: 7,
        partner: Some(String::from_str(rt.alloc(), "O1")?),
        way: Direction::Out,
        peer: None,
        sent: 0,
        received: 0,
    };
    is_line(
        &rt,
        rt.alloc(),
        &talk.begun(AT),
        "{\"at\":\"2026-11-29T07:26:46.000123Z\",\"event\":\"session begun\",\"session\":7,\"partner\":\"O1\",\"way\":\"out\"}\n",
    )?;
    for event in [
        Event::Came,
        Event::HandedOver,
        Event::ResponseSent,
        Event::Sent,
    ] {
        talk.count(event);
    }
    let farewell = Farewell {
        octets_in: 10,
        octets_out: 20,
        seconds: 3,
        end: "end: own 00",
    };
    is_line(
        &rt,
        rt.alloc(),
        &talk.ended(AT, &farewell),
        "{\"at\":\"2026-11-29T07:26:46.000123Z\",\"event\":\"session ended\",\"session\":7,\"partner\":\"O1\",\"way\":\"out\",\
             \"sent\":2,\"received\":1,\"octets_in\":10,\"octets_out\":20,\"seconds\":3,\"end\":\"end: own 00\"}\n",
    )
}

#[test]
fn notices(rt: HostRuntime) -> Result<(), Fail> {
    is_line(
        &rt,
        rt.alloc(),
        &not_reached(AT, Some("O1"), "127.0.0.1:1", Cause::Refused.words()),
        "{\"at\":\"2026-11-29T07:26:46.000123Z\",\"event\":\"not reached\",\"partner\":\"O1\",\"way\":\"out\",\"peer\":\"127.0.0.1:1\",\"words\":\"refused\"}\n",
    )?;
    let why = Dismissal {
        reason: Some("04"),
        words: Some("invalid password"),
        end: "end: own 04",
    };
    is_line(
        &rt,
        rt.alloc(),
        &not_let_in(AT, Some("O1"), None, why),
        "{\"at\":\"2026-11-29T07:26:46.000123Z\",\"event\":\"not let in\",\"partner\":\"O1\",\"way\":\"in\",\"reason\":\"04\",\
             \"words\":\"invalid password\",\"end\":\"end: own 04\"}\n",
    )?;
    is_line(
        &rt,
        rt.alloc(),
        &backed_up(AT, "/var/b"),
        "{\"at\":\"2026-11-29T07:26:46.000123Z\",\"event\":\"backup\",\"words\":\"/var/b\"}\n",
    )
}
