//! Which changes and files are fit, and several changes in a row.

use super::*;

// The changes of a file that is sent, in a row.
#[tactic(auto, unfolding(oftp_register::specs::Soundness::IsFit, oftp_register::specs::Soundness::AreFit))]
fn hand_over(alloc: Global, office: &mut PlainOffice) -> Result<(), OfficeFault> {
    let mut changes = Vec::new(alloc);
    changes.push(Change::BeginClosing { no: 1 })?;
    changes.push(Change::HandOver { no: 1 })?;
    commit_all(office, changes)
}

const HANDED: &str = "out N handed 0/0 mark 0; ";

// The second time its first change is refused.
fn hand_over_twice(
    alloc: Global,
    rt: &impl Abort,
    office: &mut PlainOffice,
) -> Result<(), OfficeFault> {
    hand_over(alloc, office)?;
    shows(alloc, rt, office, HANDED)?;
    let refused = Err(OfficeFault::Refused(Cause::State));
    assert_eq!(rt; hand_over(alloc, office), refused);
    shows(alloc, rt, office, HANDED)
}

#[test]
fn changes_in_turn_end_at_the_first_refusal(rt: HostRuntime) -> Result<(), Fail> {
    let alloc = rt.alloc();
    let mut office = office_after(alloc, &[Act::Submit(b"N", &[])])?;
    hand_over_twice(alloc, &rt, &mut office)?;
    let mut empty = PlainOffice::new(alloc, LIMITS);
    let unknown = Err(OfficeFault::Refused(Cause::Unknown));
    assert_eq!(rt; hand_over(alloc, &mut empty), unknown);
    Ok(())
}

// One file is open with a row, and another is whole.
const OPEN_AND_WHOLE: [Act; 4] = [
    Act::Start(b"D", 0),
    Act::Keep(1, &[b"abc"]),
    Act::Start(b"E", 0),
    Act::Close(2, &[]),
];

const FIT: [(Act, bool); 7] = [
    (Act::Submit(b"N", &[b"abc"]), true),
    (Act::Submit(b"N", &[b"abcd"]), false),
    (Act::Keep(1, &[b"abc"]), true),
    (Act::Keep(1, &[b"abcd"]), false),
    (Act::Close(1, &[b"a", b"abcd"]), false),
    // These are refused, so they can't make the register unsound.
    (Act::Keep(2, &[b"abcd"]), true),
    (Act::Close(3, &[b"abcd"]), true),
];

fn fits(alloc: Global, office: &PlainOffice, act: Act) -> Result<bool, OfficeFault> {
    let change = change(alloc, act)?;
    Ok(office.is_fit(&change))
}

// Which changes are fit, if one file is open with a row, and another is whole.
#[test]
fn changes_are_fit_or_not(rt: HostRuntime) -> Result<(), Fail> {
    let alloc = rt.alloc();
    let office = office_after(alloc, &OPEN_AND_WHOLE)?;
    for (at, (act, wanted)) in FIT.iter().enumerate() {
        assert_eq!(rt; fits(alloc, &office, *act)?, *wanted, "at {at}");
    }
    Ok(())
}

const FIT_STARTS: [(Format, u32, u64, bool); 8] = [
    (Format::Variable, 3, 2, true),
    (Format::Variable, 2, 2, false),
    (Format::Fixed, 3, 1, true),
    (Format::Fixed, 3, 2, false),
    (Format::Fixed, 0, 0, false),
    (Format::Text, 0, 0, true),
    (Format::Text, 0, 1, false),
    // It is refused, so it can't make the register unsound.
    (Format::Fixed, 3, 3, true),
];

// A file may continue in another format only if its rows fit it.
#[test]
fn starts_are_fit_or_not(rt: HostRuntime) -> Result<(), Fail> {
    let acts = [Act::Start(b"D", 0), Act::Keep(1, &[b"abc", b"de"])];
    let office = office_after(rt.alloc(), &acts)?;
    for (format, longest, count, fits) in &FIT_STARTS {
        let start = start_in(b"D", *format, *longest, *count)?;
        assert_eq!(rt; office.is_fit(&start), *fits);
    }
    Ok(())
}

#[test]
fn an_end_response_says_nothing_more(rt: HostRuntime) -> Result<(), Fail> {
    let (none, words) = (text("")?, text("NO PLANT")?);
    let end = ResponseKind::EndResponse;
    assert!(rt; is_response(end, Count::new(0), b"", &none));
    assert!(rt; !is_response(end, Count::new(9), b"", &none));
    assert!(rt; !is_response(end, Count::new(0), b"O2", &none));
    assert!(rt; !is_response(end, Count::new(0), b"", &words));
    let negative = ResponseKind::NegativeEndResponse;
    assert!(rt; is_response(negative, Count::new(9), b"O2", &words));
    Ok(())
}

// A file of one row of three octets.
fn fits_or_not(rt: &impl Abort, three: &[Row]) {
    for (format, longest, fits) in [
        (Format::Fixed, 3, true),
        (Format::Fixed, 2, false),
        (Format::Variable, 3, true),
        (Format::Variable, 0, false),
        (Format::Variable, LONGEST_RECORD + 1, false),
        (Format::Unstructured, 0, true),
        (Format::Text, 1, false),
    ] {
        assert_eq!(rt; is_file(format, longest, three), fits);
    }
    assert!(rt; Format::Fixed.allows_longest(1));
    assert!(rt; !are_full_rows(Format::Text, 0, three));
}

// Whether these are rows of a format without records.
fn are_blocks(alloc: Global, format: Format, octets: &[&[u8]]) -> Result<bool, AllocError> {
    let rows = rows(alloc, octets)?;
    Ok(are_rows(format, 0, rows.as_slice()))
}

#[test]
fn rows_fit_their_format(rt: HostRuntime) -> Result<(), Fail> {
    let alloc = rt.alloc();
    let three = rows(alloc, &[b"abc"])?;
    fits_or_not(&rt, three.as_slice());
    assert!(rt; !are_blocks(alloc, Format::Text, &[b"abc", b"a"])?);
    assert!(rt; !are_blocks(alloc, Format::Unstructured, &[b""])?);
    Ok(())
}
