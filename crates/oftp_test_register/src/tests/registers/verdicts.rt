//! Each row of both tables of verdicts.

use super::*;
use oftp_wire::{Efid, EndReason, Layout, Sfid, StartReason};

// The name of a file, its date and its time.
type Named = (X<'static, 26>, Digits<'static, 8>, Digits<'static, 10>);

fn named() -> Result<Named, OfficeFault> {
    let dataset = X::new(b"D").ok_or(BAD)?;
    let date = Digits::new(b"20240131").ok_or(BAD)?;
    let time = Digits::new(b"1015300001").ok_or(BAD)?;
    Ok((dataset, date, time))
}

// The station that a file comes from, and the one that it is for.
fn way() -> Result<(X<'static, 25>, X<'static, 25>), OfficeFault> {
    let originator = X::new(b"O1").ok_or(BAD)?;
    let destination = X::new(b"O2").ok_or(BAD)?;
    Ok((originator, destination))
}

// An offer of a file in format V with records of up to 3 octets, from O1 to O2, at row 5.
fn offer() -> Result<Sfid<'static>, OfficeFault> {
    let (dataset, date, time) = named()?;
    let (originator, destination) = way()?;
    Ok(Sfid {
        dataset,
        date,
        time,
        user: X::new(b"").ok_or(BAD)?,
        destination,
        originator,
        layout: Layout::Variable(Count::new(3)),
        size: Count::new(65_536),
        original_size: Count::new(65_536),
        restart: Count::new(5),
        security: Count::new(0),
        cipher: Count::new(0),
        compression: Count::new(0),
        enveloping: Count::new(0),
        signed_response: false,
        description: text("")?,
    })
}

fn terms() -> Result<Terms, OfficeFault> {
    Ok(Terms {
        station: code(b"O2")?,
        partner: code(b"O1")?,
        receives: true,
        restart: true,
        limits: LIMITS,
    })
}

const fn refused(reason: StartReason) -> StartVerdict {
    StartVerdict::Refuse {
        reason,
        retry: false,
    }
}

const FULL: StartVerdict = StartVerdict::Refuse {
    reason: StartReason::Unspecified,
    retry: true,
};

const TOO_LONG: StartVerdict = StartVerdict::Refuse {
    reason: StartReason::MaximumRecordLengthNotSupported,
    retry: false,
};

// The verdict if each row of the table from this one on applies.
fn verdict_from(row: u32) -> Result<StartVerdict, OfficeFault> {
    let mut sfid = offer()?;
    let mut terms = terms()?;
    terms.receives = row > 1;
    sfid.signed_response = row <= 2;
    if row <= 3 {
        sfid.dataset = X::new(b"").ok_or(BAD)?;
    }
    if row <= 4 {
        sfid.destination = X::new(b"O1").ok_or(BAD)?;
    }
    if row <= 5 {
        sfid.originator = X::new(b"O3").ok_or(BAD)?;
    }
    if row <= 6 {
        sfid.layout = Layout::Fixed(Count::new(16_385));
    }
    if row <= 7 {
        sfid.size = Count::new(65_537);
    }
    Ok(start_verdict(&sfid, None, row <= 9, &terms))
}

#[test]
fn the_first_test_decides(rt: HostRuntime) -> Result<(), Fail> {
    for (row, verdict) in [
        (1, refused(StartReason::FileDirectionRefused)),
        (2, refused(StartReason::Unspecified)),
        (3, refused(StartReason::InvalidFilename)),
        (4, refused(StartReason::InvalidDestination)),
        (5, refused(StartReason::InvalidOrigin)),
        (6, refused(StartReason::MaximumRecordLengthNotSupported)),
        (7, refused(StartReason::FileSizeTooBig)),
        (9, FULL),
        (10, StartVerdict::Accept(Count::new(0))),
    ] {
        assert_eq!(rt; verdict_from(row)?, verdict, "row {row}");
    }
    Ok(())
}

// The verdict on a new file with this layout.
fn verdict_of(layout: Layout) -> Result<StartVerdict, OfficeFault> {
    let mut sfid = offer()?;
    sfid.layout = layout;
    Ok(start_verdict(&sfid, None, false, &terms()?))
}

// The verdict on records of this length, in F and in V.
fn limited(rt: &impl Abort, longest: u16, verdict: StartVerdict) -> Result<(), OfficeFault> {
    let length = Count::new(u64::from(longest));
    let fixed = verdict_of(Layout::Fixed(length))?;
    assert_eq!(rt; fixed, verdict, "F of {longest}");
    let variable = verdict_of(Layout::Variable(length))?;
    assert_eq!(rt; variable, verdict, "V of {longest}");
    Ok(())
}

#[test]
fn longest_records_are_limited(rt: HostRuntime) -> Result<(), Fail> {
    let taken = StartVerdict::Accept(Count::new(0));
    for (longest, verdict) in [
        (0, TOO_LONG),
        (1, taken),
        (16_384, taken),
        (16_385, TOO_LONG),
    ] {
        limited(&rt, longest, verdict)?;
    }
    assert_eq!(rt; verdict_of(Layout::Unstructured)?, taken);
    assert_eq!(rt; verdict_of(Layout::Text)?, taken);
    Ok(())
}

// An offer of a file that is protected in one of five ways.
fn protected(way: u32) -> Result<Sfid<'static>, OfficeFault> {
    let mut sfid = offer()?;
    match way {
        0 => sfid.security = Count::new(2),
        1 => sfid.security = Count::new(4),
        2 => sfid.cipher = Count::new(1),
        3 => sfid.compression = Count::new(1),
        _ => sfid.enveloping = Count::new(1),
    }
    Ok(sfid)
}

#[test]
fn protected_offers_are_refused(rt: HostRuntime) -> Result<(), Fail> {
    let terms = terms()?;
    for way in 0..5 {
        let verdict = start_verdict(&protected(way)?, None, false, &terms);
        assert_eq!(rt; verdict, refused(StartReason::Unspecified));
    }
    Ok(())
}

fn add_row(all: &mut String, row: &Row) -> Result<(), AllocError> {
    for octet in row.octets() {
        all.push(char::from(*octet))?;
    }
    all.push('|')?;
    Ok(())
}

// The rows of the first file, each ended by a bar.
fn rows_kept(alloc: Global, office: &mut PlainOffice) -> Result<String, OfficeFault> {
    let rows = office.rows_of(Side::Incoming, 1, 0, 9)?;
    let mut all = String::new(alloc);
    for row in rows.as_slice() {
        add_row(&mut all, row)?;
    }
    Ok(all)
}

// The verdict of an office that has a file with the offered identity, or none.
fn verdict_in(
    office: &mut PlainOffice,
    sfid: &Sfid<'_>,
    is_full: bool,
    terms: &Terms,
) -> Result<StartVerdict, OfficeFault> {
    let found = office.look_in(&file(b"D")?)?;
    Ok(start_verdict(sfid, found.as_ref(), is_full, terms))
}

// The verdict on such an offer, where a restart was agreed or not.
fn verdict_at(
    office: &mut PlainOffice,
    restart: Count<17>,
    layout: Layout,
    agreed: bool,
) -> Result<StartVerdict, OfficeFault> {
    let mut sfid = offer()?;
    sfid.layout = layout;
    sfid.restart = restart;
    let mut terms = terms()?;
    terms.restart = agreed;
    verdict_in(office, &sfid, true, &terms)
}

// The verdict if three rows are stored, and the rows that are kept.
fn goes_on(
    restart: Count<17>,
    layout: Layout,
    agreed: bool,
    alloc: Global,
) -> Result<(StartVerdict, String), OfficeFault> {
    let kept = [Act::Start(b"D", 0), Act::Keep(1, &[b"a", b"b", b"c"])];
    let mut office = office_after(alloc, &kept)?;
    let verdict = verdict_at(&mut office, restart, layout, agreed)?;
    if let StartVerdict::Accept(count) = verdict {
        carry_out(alloc, &mut office, Act::Start(b"D", count.get()))?;
    }
    let rows = rows_kept(alloc, &mut office)?;
    Ok((verdict, rows))
}

#[test]
fn offered_above_and_below(rt: HostRuntime) -> Result<(), Fail> {
    for (restart, longest, agreed, count, rows) in [
        (5, 3, true, 3, "a|b|c|"),
        (2, 3, true, 2, "a|b|"),
        (5, 3, false, 0, ""),
        (5, 4, true, 0, ""),
    ] {
        let layout = Layout::Variable(Count::new(longest));
        let (verdict, kept) = goes_on(Count::new(restart), layout, agreed, rt.alloc())?;
        assert_eq!(rt; verdict, StartVerdict::Accept(Count::new(count)));
        assert_eq!(rt; kept.as_str(), rows);
    }
    Ok(())
}

#[test]
fn another_format_begins_anew(rt: HostRuntime) -> Result<(), Fail> {
    let kept = [Act::Start(b"D", 0), Act::Keep(1, &[b"abc"])];
    let mut office = office_after(rt.alloc(), &kept)?;
    let mut sfid = offer()?;
    sfid.layout = Layout::Fixed(Count::new(3));
    let verdict = verdict_in(&mut office, &sfid, true, &terms()?)?;
    assert_eq!(rt; verdict, StartVerdict::Accept(Count::new(0)));
    Ok(())
}

#[test]
fn duplicate_file(rt: HostRuntime) -> Result<(), Fail> {
    let whole = [Act::Start(b"D", 0), Act::Close(1, &[])];
    let mut office = office_after(rt.alloc(), &whole)?;
    let verdict = verdict_in(&mut office, &offer()?, true, &terms()?)?;
    assert_eq!(rt; verdict, refused(StartReason::DuplicateFile));
    Ok(())
}

#[test]
fn table_full(rt: HostRuntime) -> Result<(), Fail> {
    let alloc = rt.alloc();
    let limits = Limits {
        files: 1,
        octets: 67_108_864,
    };
    let mut office = PlainOffice::new(alloc, limits);
    carry_out(alloc, &mut office, Act::Start(b"E", 0))?;
    let is_full = office.files_full(Side::Incoming)?;
    let verdict = verdict_in(&mut office, &offer()?, is_full, &terms()?)?;
    assert_eq!(rt; verdict, FULL);
    Ok(())
}

const RECORDS: EndVerdict = EndVerdict::Refuse(EndReason::InvalidRecordCount);

const OCTETS: EndVerdict = EndVerdict::Refuse(EndReason::InvalidByteCount);

// Two records of three octets, and a file in format U or T, which counts none.
const ENDS: [(u8, u8, u8, EndVerdict); 7] = [
    (2, 2, 3, EndVerdict::Accept),
    (2, 3, 3, RECORDS),
    (2, 3, 4, RECORDS),
    (2, 2, 4, OCTETS),
    (0, 0, 3, EndVerdict::Accept),
    (0, 1, 3, RECORDS),
    (0, 0, 2, OCTETS),
];

// The verdict on an end with these counts, if so many records of three octets in all were taken.
fn verdict_at_end(counted: u8, records: u8, units: u8) -> EndVerdict {
    let efid = Efid {
        records: Count::new(u64::from(records)),
        units: Count::new(u64::from(units)),
    };
    end_verdict(&efid, u64::from(counted), 3)
}

#[test]
fn ends_are_counted(rt: HostRuntime) -> Result<(), Fail> {
    for (counted, records, units, verdict) in &ENDS {
        assert_eq!(rt; verdict_at_end(*counted, *records, *units), *verdict);
    }
    assert_eq!(rt; longest_of(Layout::Fixed(Count::new(3))), 3);
    assert_eq!(rt; format_of(Layout::Text), Format::Text);
    Ok(())
}
