//! A supplier and two car makers, each a station with its own book and its own life in memory. All files have one name and one time stamp, so
//! only codes tell them apart. A connection breaks within a file, which goes on in a later session. The second car maker offers a file under
//! the other's code, and answers one that is for the other. What it sends then, and all registers, are written by hand.

use super::lives::{converse, order};
use oftp_engine::{Operator, Role, Submission, Told};
use oftp_life::{Life, LifeSession};
use oftp_partners::{Book, read};
use oftp_register::{IncomingState, Office, OfficeFault, PlainOffice};
use oftp_test_parts::given::{BOOK_OF_TWO, FILE, LIMITS};
use oftp_test_parts::hearing::caller;
use oftp_test_parts::octets::{
    ANOTHERS_ANSWER, ANOTHERS_FILE, NOT_TAKEN, SENT_AWAY, THIRD, joined,
};
use oftp_test_parts::snapshot::snapshot;
use oftp_vfile::Format;
use std::alloc::Global;
use std::process::Abort;
use std::test::Fail;

/// The book of the first car maker, who gives the supplier one DATA at a time.
const BOOK_OF_MAKER: &str =
    "[station]\ncode = 'O0177CARMAKER'\nbuffer = 128\ncredit = 1\nrestart = true\n\
      [[partner]]\ncode = 'O0013SUPPLIER'\nexpects = 'SUPPW'\nsends = 'CARPW'\nmode = 'B'\naddress = '127.0.0.1:3305'\n";

const BOOK_OF_THIRD: &str =
    "[station]\ncode = 'O0099OTHER'\nbuffer = 128\ncredit = 2\nrestart = true\n\
      [[partner]]\ncode = 'O0013SUPPLIER'\nexpects = 'SUPPW'\nsends = 'OTHERPW'\nmode = 'B'\naddress = '127.0.0.1:3305'\n";

/// A file of the first car maker's. Its first record fits into one DATA, and its three records into three.
const LONG: Operator<'static> = Operator::Submit(Submission {
    to: "O0013SUPPLIER",
    format: Format::Variable,
    longest: 120,
    description: "",
    content: b"00120aaaaaaaaaaaaaaaaaaaaaaaaaaaaaaaaaaaaaaaaaaaaaaaaaaaaaaaaaaaaaaaaaaaaaaaaaaaaaaaaaaaaaaaaaaaaaaaaaaaaaaaaaaaaaaaaaaaaaaaa\
      00120bbbbbbbbbbbbbbbbbbbbbbbbbbbbbbbbbbbbbbbbbbbbbbbbbbbbbbbbbbbbbbbbbbbbbbbbbbbbbbbbbbbbbbbbbbbbbbbbbbbbbbbbbbbbbbbbbbbbbbbb\
      00020the rest of the file",
    ..FILE
});

const OF_THIRD: Operator<'static> = Operator::Submit(Submission {
    to: "O0013SUPPLIER",
    description: "",
    content: b"of the third",
    ..FILE
});

const FOR_MAKER: Operator<'static> = Operator::Submit(Submission {
    description: "",
    content: b"for the maker",
    ..FILE
});

const FOR_THIRD: Operator<'static> = Operator::Submit(Submission {
    to: "O0099OTHER",
    description: "",
    content: b"for the third",
    ..FILE
});

/// More octets than a session has.
const ALL: usize = 9_999;

/// SSID, SFID, a DATA, and a part of the next one.
const A_PART: usize = 65 + 169 + 132 + 7;

/// SSID, SFID, the three DATA of the whole file, and a part of EFID. They are too few for it from its first record on, and enough for its
/// last two.
const THE_REST: usize = 65 + 169 + 132 + 132 + 18 + 20;

/// A station between two sessions.
#[derive(Drop)]
struct Station<'a, O: Office> {
    code: &'static [u8],
    book: &'a Book,
    life: Life<O>,
}

impl<O: Office> Station<'_, O> {
    // Carries out an operator's call for the file with a number.
    fn does(&mut self, alloc: Global, rt: &impl Abort, call: &Operator<'_>, no: u64) {
        let told = order(alloc, &mut self.life, self.book, call);
        assert!(rt; told == Ok(Told::Done(no)));
    }

    // Whether it has one record of its first file, which isn't whole.
    fn has_a_part(&mut self) -> Result<bool, OfficeFault> {
        let file = self.life.in_by_no(1)?;
        Ok(file.is_some_and(|file| file.state == IncomingState::Open && file.rows == 1))
    }

    // Has this register.
    fn has(&mut self, alloc: Global, rt: &impl Abort, register: &str) -> Result<(), Fail> {
        let found = snapshot(alloc, &mut self.life)?;
        assert_eq!(rt; found.as_str(), register);
        Ok(())
    }
}

// A station with this code and book, and an empty register.
fn opened<'a>(alloc: Global, code: &'static [u8], book: &'a Book) -> Station<'a, PlainOffice> {
    Station {
        code,
        book,
        life: Life::new(PlainOffice::new(alloc, LIMITS)),
    }
}

// Lets two stations talk until neither says more. At most so many octets go to the one that was called: then the connection breaks.
fn talk<O: Office>(
    alloc: Global,
    caller: &mut LifeSession<'_, O>,
    called: &mut LifeSession<'_, O>,
    most: usize,
) -> Result<(), Fail> {
    let mut answer = called.take_out(alloc);
    let mut left = most;
    for _ in 0..99 {
        let said = converse(alloc, caller, answer.as_slice(), ALL)?;
        let heard = &said.as_slice()[..said.len().min(left)];
        left = left.saturating_sub(heard.len());
        answer = converse(alloc, called, heard, ALL)?;
        if answer.is_empty() {
            return Ok(());
        }
    }
    Err("they have more to say".into())
}

// A session in which one station calls another one.
fn meet<'a, O: Office + Drop>(
    alloc: Global,
    one: Station<'a, O>,
    other: Station<'a, O>,
    most: usize,
) -> Result<(Station<'a, O>, Station<'a, O>), Fail> {
    let role = caller(one.book, other.code)?;
    let mut calling = one.life.begin(alloc, one.book, role);
    let mut called = other.life.begin(alloc, other.book, Role::Responder);
    talk(alloc, &mut calling, &mut called, most)?;
    let one = Station {
        code: one.code,
        book: one.book,
        life: calling.end().0,
    };
    let other = Station {
        code: other.code,
        book: other.book,
        life: called.end().0,
    };
    Ok((one, other))
}

// The second car maker offers a file of the first one, and answers one that is for the first one.
fn hear_lies<O: Office>(
    alloc: Global,
    rt: &impl Abort,
    session: &mut LifeSession<'_, O>,
) -> Result<(), Fail> {
    let heard = joined(alloc, &[THIRD, ANOTHERS_FILE, ANOTHERS_ANSWER])?;
    let said = converse(alloc, session, heard.as_slice(), ALL)?;
    let wanted = joined(alloc, &[NOT_TAKEN, SENT_AWAY])?;
    assert!(rt; said.as_slice() == wanted.as_slice());
    Ok(())
}

// The second car maker calls the supplier, and lies.
fn lie<'a, O: Office + Drop>(
    alloc: Global,
    rt: &impl Abort,
    supplier: Station<'a, O>,
) -> Result<Station<'a, O>, Fail> {
    let Station { code, book, life } = supplier;
    let mut session = life.begin(alloc, book, Role::Responder);
    hear_lies(alloc, rt, &mut session)?;
    let (life, _out) = session.end();
    Ok(Station { code, book, life })
}

/// The supplier and both car makers.
#[derive(Drop)]
struct Three<'a, O: Office> {
    supplier: Station<'a, O>,
    maker: Station<'a, O>,
    third: Station<'a, O>,
}

// Each hands in what it has to send.
fn submit<O: Office>(alloc: Global, rt: &impl Abort, three: &mut Three<'_, O>) {
    three.supplier.does(alloc, rt, &FOR_MAKER, 1);
    three.supplier.does(alloc, rt, &FOR_THIRD, 2);
    three.maker.does(alloc, rt, &LONG, 1);
    three.third.does(alloc, rt, &OF_THIRD, 1);
}

// The supplier gets a part of the first car maker's file. Then the second one lies.
fn begin<'a, O: Office + Drop>(
    alloc: Global,
    rt: &impl Abort,
    three: Three<'a, O>,
) -> Result<Three<'a, O>, Fail> {
    let Three {
        supplier,
        maker,
        third,
    } = three;
    let (maker, mut supplier) = meet(alloc, maker, supplier, A_PART)?;
    assert!(rt; supplier.has_a_part()?);
    let supplier = lie(alloc, rt, supplier)?;
    Ok(Three {
        supplier,
        maker,
        third,
    })
}

// All files are sent, and the second car maker lies again.
fn send<'a, O: Office + Drop>(
    alloc: Global,
    rt: &impl Abort,
    three: Three<'a, O>,
) -> Result<Three<'a, O>, Fail> {
    let Three {
        supplier,
        maker,
        third,
    } = three;
    let (supplier, third) = meet(alloc, supplier, third, ALL)?;
    let (maker, supplier) = meet(alloc, maker, supplier, THE_REST)?;
    let supplier = lie(alloc, rt, supplier)?;
    Ok(Three {
        supplier,
        maker,
        third,
    })
}

// Each releases what came.
fn release<O: Office>(alloc: Global, rt: &impl Abort, three: &mut Three<'_, O>) {
    let first = Operator::Release { no: 1 };
    three.supplier.does(alloc, rt, &first, 1);
    three
        .supplier
        .does(alloc, rt, &Operator::Release { no: 2 }, 2);
    three.maker.does(alloc, rt, &first, 1);
    three.third.does(alloc, rt, &first, 1);
}

// A session of the supplier with each.
fn answer<'a, O: Office + Drop>(alloc: Global, three: Three<'a, O>) -> Result<Three<'a, O>, Fail> {
    let Three {
        supplier,
        maker,
        third,
    } = three;
    let (supplier, maker) = meet(alloc, supplier, maker, ALL)?;
    let (third, supplier) = meet(alloc, third, supplier, ALL)?;
    Ok(Three {
        supplier,
        maker,
        third,
    })
}

/// Each file of the supplier's is delivered, and each that came is whole and answered, under its own code.
const OF_THE_SUPPLIER: &str =
    "in 1 Whole 3 ABC 20240131 1015300001 O0177CARMAKER O0013SUPPLIER Variable 120  EndResponse 0  Sent\
      |aaaaaaaaaaaaaaaaaaaaaaaaaaaaaaaaaaaaaaaaaaaaaaaaaaaaaaaaaaaaaaaaaaaaaaaaaaaaaaaaaaaaaaaaaaaaaaaaaaaaaaaaaaaaaaaaaaaaaaaa\
      |bbbbbbbbbbbbbbbbbbbbbbbbbbbbbbbbbbbbbbbbbbbbbbbbbbbbbbbbbbbbbbbbbbbbbbbbbbbbbbbbbbbbbbbbbbbbbbbbbbbbbbbbbbbbbbbbbbbbbbbb|the rest of the file\n\
      in 2 Whole 1 ABC 20240131 1015300001 O0099OTHER O0013SUPPLIER Unstructured 0  EndResponse 0  Sent|of the third\n\
      out 1 Delivered 0 of 1 ABC 20240131 1015300001 O0013SUPPLIER O0177CARMAKER Unstructured 0 |for the maker\n\
      out 2 Delivered 0 of 1 ABC 20240131 1015300001 O0013SUPPLIER O0099OTHER Unstructured 0 |for the third\n\
      received 1 EndResponse 0 ABC 20240131 1015300001 O0013SUPPLIER O0177CARMAKER  \n\
      received 2 EndResponse 0 ABC 20240131 1015300001 O0013SUPPLIER O0099OTHER  \n";

const OF_THE_MAKER: &str =
    "in 1 Whole 1 ABC 20240131 1015300001 O0013SUPPLIER O0177CARMAKER Unstructured 0  EndResponse 0  Sent|for the maker\n\
      out 1 Delivered 3 of 3 ABC 20240131 1015300001 O0177CARMAKER O0013SUPPLIER Variable 120 \
      |aaaaaaaaaaaaaaaaaaaaaaaaaaaaaaaaaaaaaaaaaaaaaaaaaaaaaaaaaaaaaaaaaaaaaaaaaaaaaaaaaaaaaaaaaaaaaaaaaaaaaaaaaaaaaaaaaaaaaaaa\
      |bbbbbbbbbbbbbbbbbbbbbbbbbbbbbbbbbbbbbbbbbbbbbbbbbbbbbbbbbbbbbbbbbbbbbbbbbbbbbbbbbbbbbbbbbbbbbbbbbbbbbbbbbbbbbbbbbbbbbbbb|the rest of the file\n\
      received 1 EndResponse 0 ABC 20240131 1015300001 O0177CARMAKER O0013SUPPLIER  \n";

const OF_THE_THIRD: &str =
    "in 1 Whole 1 ABC 20240131 1015300001 O0013SUPPLIER O0099OTHER Unstructured 0  EndResponse 0  Sent|for the third\n\
      out 1 Delivered 0 of 1 ABC 20240131 1015300001 O0099OTHER O0013SUPPLIER Unstructured 0 |of the third\n\
      received 1 EndResponse 0 ABC 20240131 1015300001 O0099OTHER O0013SUPPLIER  \n";

// Their registers at the end.
fn end<O: Office>(alloc: Global, rt: &impl Abort, three: &mut Three<'_, O>) -> Result<(), Fail> {
    three.supplier.has(alloc, rt, OF_THE_SUPPLIER)?;
    three.maker.has(alloc, rt, OF_THE_MAKER)?;
    three.third.has(alloc, rt, OF_THE_THIRD)
}

// The responses go out in the sessions after the releases. In the last ones nothing is left to be sent.
fn play<O: Office + Drop>(alloc: Global, rt: &impl Abort, three: Three<'_, O>) -> Result<(), Fail> {
    let mut three = three;
    submit(alloc, rt, &mut three);
    let three = begin(alloc, rt, three)?;
    let mut three = send(alloc, rt, three)?;
    release(alloc, rt, &mut three);
    let three = answer(alloc, three)?;
    let mut three = answer(alloc, three)?;
    end(alloc, rt, &mut three)
}

/// At the end each file is whole at its destination, delivered and answered once at its sender, and in nobody else's register.
#[test]
fn three_stations(rt: HostRuntime) -> Result<(), Fail> {
    let alloc = rt.alloc();
    let book = read(alloc, BOOK_OF_TWO)?;
    let book_of_maker = read(alloc, BOOK_OF_MAKER)?;
    let book_of_third = read(alloc, BOOK_OF_THIRD)?;
    let three = Three {
        supplier: opened(alloc, b"O0013SUPPLIER", &book),
        maker: opened(alloc, b"O0177CARMAKER", &book_of_maker),
        third: opened(alloc, b"O0099OTHER", &book_of_third),
    };
    play(alloc, &rt, three)
}
