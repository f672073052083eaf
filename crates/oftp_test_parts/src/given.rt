//! What the tests here, and those over a database, are given: a partner book, a file and an office's limits.

use oftp_engine::Submission;
use oftp_vfile::{Format, Limits};

/// The book of a supplier with one partner.
pub const BOOK: &str =
    "[station]\ncode = 'O0013SUPPLIER'\nbuffer = 128\ncredit = 2\nrestart = true\n[[partner]]\ncode = 'O0177CARMAKER'\nexpects = 'CARPW'\nsends = 'SUPPW'\nmode = 'B'\naddress = '127.0.0.1:3305'\n";

/// The book of a supplier with two partners.
pub const BOOK_OF_TWO: &str =
    "[station]\ncode = 'O0013SUPPLIER'\nbuffer = 128\ncredit = 2\nrestart = true\n\
      [[partner]]\ncode = 'O0177CARMAKER'\nexpects = 'CARPW'\nsends = 'SUPPW'\nmode = 'B'\naddress = '127.0.0.1:3305'\n\
      [[partner]]\ncode = 'O0099OTHER'\nexpects = 'OTHERPW'\nsends = 'SUPPW'\nmode = 'B'\naddress = '127.0.0.1:3306'\n";

/// Room for nine files of 9,999 octets each.
pub const LIMITS: Limits = Limits {
    files: 9,
    octets: 9_999,
};

/// A file of three octets for the partner.
pub const FILE: Submission<'static> = Submission {
    dataset: "ABC",
    date: "20240131",
    time: "1015300001",
    to: "O0177CARMAKER",
    format: Format::Unstructured,
    longest: 0,
    description: "a drawing",
    content: b"abc",
};
