//! What is noted in a history.

use crate::octet_log::OctetLog;
use crate::outbox::Outbox;
use oftp_engine::{Operator, Role};
use oftp_partners::Book;

// One thing that was asked of a life.
#[derive(Clone, Copy, Drop)]
pub(crate) enum Note<'a> {
    // A session began, by a book and in a role, and has said what is in this box.
    Began(&'a Book, Role<'a>, &'a Outbox),
    // The session of a caller that was let in by a book began. It has heard these octets, and has said what is in this box.
    Admitted(&'a Book, &'a OctetLog, &'a Outbox),
    // The session heard these octets, and has said what is in this box.
    Heard(&'a [u8], &'a Outbox),
    // An operator's call was made, by a book.
    Ordered(&'a Book, &'a Operator<'a>),
}
