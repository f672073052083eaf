//! Refused allocations: these tests also pass with each allocation refused in turn, by `rt try --test --fail-alloc N`.

use super::*;

// Changes of every kind.
const ACTS: [Act; 15] = [
    Act::Submit(b"A", &[b"abc", b""]),
    Act::Submit(b"B", &[b"x"]),
    Act::Mark(1, 1),
    Act::BeginClosing(1),
    Act::Reopen(1),
    Act::BeginClosing(1),
    Act::HandOver(1),
    Act::Refuse(2),
    Act::File(b"A", ResponseKind::NegativeEndResponse),
    Act::Start(b"D", 0),
    Act::Keep(1, &[b"abc", b"de"]),
    Act::GiveUp(1),
    Act::Close(1, &[b"f"]),
    Act::Issue(1, ResponseKind::EndResponse),
    Act::Send(1),
];

// Tries again once, since only one allocation is refused.
fn change_again(alloc: Global, act: Act) -> Result<Change<'static>, OfficeFault> {
    match change(alloc, act) {
        Ok(change) => Ok(change),
        Err(_) => change(alloc, act),
    }
}

fn shown_again(alloc: Global, office: &mut PlainOffice) -> Result<String, OfficeFault> {
    match shown(alloc, office) {
        Ok(all) => Ok(all),
        Err(_) => shown(alloc, office),
    }
}

// A change that was refused memory leaves the register as it was, and is then made.
fn carry_out_again(
    alloc: Global,
    rt: &impl Abort,
    office: &mut PlainOffice,
    before: &[Act],
    act: Act,
) -> Result<(), OfficeFault> {
    let left = shown(alloc, &mut office_after(alloc, before)?)?;
    shows(alloc, rt, office, left.as_str())?;
    carry_out(alloc, office, act)
}

fn carry_out_at_last(
    alloc: Global,
    rt: &impl Abort,
    office: &mut PlainOffice,
    before: &[Act],
    act: Act,
) -> Result<(), OfficeFault> {
    let change = change_again(alloc, act)?;
    if let Err(fault) = commit(office, change) {
        assert_eq!(rt; fault, OfficeFault::Memory);
        carry_out_again(alloc, rt, office, before, act)?;
    }
    Ok(())
}

#[test]
fn each_allocation_refused(rt: HostRuntime) -> Result<(), Fail> {
    let alloc = rt.alloc();
    let mut office = PlainOffice::new(alloc, LIMITS);
    for (at, act) in ACTS.iter().enumerate() {
        carry_out_at_last(alloc, &rt, &mut office, &ACTS[..at], *act)?;
    }
    let all =
        "in D Whole 1/1 EERP Sent; out A returned 2/3 mark 0; out B refused 1/1 mark 0; got A NERP; ";
    assert_eq!(rt; shown_again(alloc, &mut office)?.as_str(), all);
    assert_eq!(rt; office.received().len(), 1);
    Ok(())
}
