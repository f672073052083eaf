//! What is printed of a book: codes, modes and addresses, but no password.

ghost use Rattle.std.specs.Prelude.{◌≡◌, Some, codes};
ghost use Rattle.oftp_partners.specs.Printed.{partner_text, book_text};

use crate::book::Book;
use crate::field::{Address, Code, Password};
use crate::partner::Partner;
use std::fmt;

impl fmt::Display for Code {
    ghost output = { λ c. Some c };

    fn fmt<W: fmt::Write>(&self, f: &mut fmt::Formatter<W>) -> fmt::Result {
        let code = self.as_str();
        f.write_str(code)
    }
}

impl fmt::Display for Address {
    ghost output = { λ a. Some a };

    fn fmt<W: fmt::Write>(&self, f: &mut fmt::Formatter<W>) -> fmt::Result {
        let address = self.as_str();
        f.write_str(address)
    }
}

/// It omits the password.
impl fmt::Debug for Password {
    ghost debug_output = { λ _. Some (codes "Password(..)") };

    fn fmt<W: fmt::Write>(&self, f: &mut fmt::Formatter<W>) -> fmt::Result {
        f.write_str("Password(..)")
    }
}

/// It omits the passwords.
impl fmt::Debug for Partner {
    ghost debug_output = { λ p. Some (partner_text p.code p.mode p.address) };

    fn fmt<W: fmt::Write>(&self, f: &mut fmt::Formatter<W>) -> fmt::Result {
        write!(
            f,
            "Partner {{ code: {}, mode: {}, address: {}, .. }}",
            self.code, self.mode, self.address
        )
    }
}

/// Shows the station's code and the number of partners.
impl fmt::Debug for Book {
    ghost debug_output = { λ b. Some (book_text b) };

    fn fmt<W: fmt::Write>(&self, f: &mut fmt::Formatter<W>) -> fmt::Result {
        let station = &self.station().code;
        let count = self.count();
        write!(f, "Book {{ station: {station}, partners: {count}, .. }}")
    }
}
