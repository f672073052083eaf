//! Operator's calls over an office in memory and over one that fails. The lines are written by hand.

use oftp_engine::{Operator, Refusal, RunFault, Submission, Told};
use oftp_partners::{Book, read};
use oftp_register::PlainOffice;
use oftp_test_parts::given::{BOOK, FILE};
use oftp_test_parts::hearing::call;
use oftp_test_parts::noting::Noting;
use oftp_vfile::{Format, Limits};
use std::alloc::Global;
use std::process::Abort;
use std::test::Fail;

/// Two files of five octets each.
const NARROW: Limits = Limits {
    files: 2,
    octets: 5,
};

const RELEASE: Operator<'static> = Operator::Release { no: 1 };

const DUPLICATE: &str = "refused: 1 duplicate\n";

const LIMIT: &str = "refused: 4 limit\n";

const FIELD: &str = "refused: 5 field\n";

/// A call, its line and its result.
type Row<'a> = (Operator<'a>, &'a str, Told);

fn tells(
    alloc: Global,
    rt: &impl Abort,
    office: &mut Noting,
    rows: &[Row<'_>],
) -> Result<(), Fail> {
    let book = read(alloc, BOOK)?;
    for (operator, wanted, told) in rows {
        let mut line = Vec::new(alloc);
        let answer = call(alloc, office, &book, operator, &mut line);
        assert!(rt; answer == Ok(*told), "{wanted}");
        assert!(rt; line.as_slice() == wanted.as_bytes(), "{wanted}");
    }
    Ok(())
}

/// A text has at most 999 octets, and a reason two digits.
#[test]
fn long_texts(rt: HostRuntime) -> Result<(), Fail> {
    let long = String::from_str(rt.alloc(), "0123456789")?.repeat(rt.alloc(), 100)?;
    let text = Operator::Refuse {
        no: 1,
        reason: 1,
        text: long.as_str(),
    };
    let reason = Operator::Refuse {
        no: 1,
        reason: 100,
        text: "",
    };
    let file = Operator::Submit(Submission {
        description: long.as_str(),
        ..FILE
    });
    let told = Told::Refused(Refusal::Field);
    let rows = [
        (text, FIELD, told),
        (reason, FIELD, told),
        (file, FIELD, told),
    ];
    tells(rt.alloc(), &rt, &mut Noting::new(rt.alloc(), None), &rows)
}

const BIG: Submission<'static> = Submission {
    content: b"abcdef",
    ..FILE
};

const VARIABLE: Submission<'static> = Submission {
    dataset: "V",
    format: Format::Variable,
    longest: 5,
    content: b"00005abcde",
    ..FILE
};

const RECORDS: Submission<'static> = Submission {
    content: b"00005abcde00001f",
    ..VARIABLE
};

const THIRD: Submission<'static> = Submission {
    dataset: "THIRD",
    ..FILE
};

const LIMITED: Told = Told::Refused(Refusal::Limit);

const DOUBLED: Told = Told::Refused(Refusal::Duplicate);

/// Before the file of very many records, which is made as the test runs, and after it.
const BEFORE_MANY: [(Operator<'static>, &str, Told); 4] = [
    (Operator::Submit(BIG), LIMIT, LIMITED),
    (Operator::Submit(FILE), "done: submit 1\n", Told::Done(1)),
    (Operator::Submit(BIG), DUPLICATE, DOUBLED),
    (Operator::Submit(RECORDS), LIMIT, LIMITED),
];

const AFTER_MANY: [(Operator<'static>, &str, Told); 3] = [
    (
        Operator::Submit(VARIABLE),
        "done: submit 2\n",
        Told::Done(2),
    ),
    (Operator::Submit(VARIABLE), DUPLICATE, DOUBLED),
    (Operator::Submit(THIRD), LIMIT, LIMITED),
];

/// The limits of octets, not counting the digits of V, of rows and of files. A duplicate is found before each.
#[test]
fn limits_of_files(rt: HostRuntime) -> Result<(), Fail> {
    let alloc = rt.alloc();
    let digits = String::from_str(alloc, "00000")?.repeat(alloc, 1_000_001)?;
    let many = Submission {
        content: digits.as_bytes(),
        ..VARIABLE
    };
    let mut office = Noting::over(PlainOffice::new(alloc, NARROW));
    tells(alloc, &rt, &mut office, &BEFORE_MANY)?;
    let rows = [(Operator::Submit(many), LIMIT, LIMITED)];
    tells(alloc, &rt, &mut office, &rows)?;
    tells(alloc, &rt, &mut office, &AFTER_MANY)
}

const EMPTY: Submission<'static> = Submission {
    content: b"",
    ..FILE
};

// A call at an office that fails.
fn fails(alloc: Global, rt: &impl Abort, book: &Book, operator: &Operator<'_>) {
    let mut office = Noting::failing(alloc, true);
    let mut line = Vec::new(alloc);
    let told = call(alloc, &mut office, book, operator, &mut line);
    assert!(rt; told == Err(RunFault::Office));
    assert_eq!(rt; office.faults(), 1);
    assert_eq!(rt; line.len(), 0);
}

/// The store fails in the commit of a response or of a file, or in the look-up of a file that is too large. No line is written.
#[test]
fn operator_at_a_failing_office(rt: HostRuntime) -> Result<(), Fail> {
    let book = read(rt.alloc(), BOOK)?;
    for operator in [RELEASE, Operator::Submit(EMPTY), Operator::Submit(FILE)] {
        fails(rt.alloc(), &rt, &book, &operator);
    }
    Ok(())
}
