//! The office over a database's files: how it is lent, and closed.

ghost use Rattle.std.specs.Prelude.{◌≡◌};
ghost use Rattle.sqlite.specs.Files.{over_files};
ghost use Rattle.oftp_register.specs.Offices.{View};
ghost use Rattle.oftp_database.specs.Seen.{seen_over};

mod asking;
mod errands;

use oftp_listing::RememberingOffice;
use oftp_outcomes::Fault;
use oftp_store::SqlOffice;
use sqlite::{Alter, FileFrom, FileStore, Unknown};

/// The office over files, which remembers the numbers of octets of their files. `S` stands for what they held as they were opened.
pub(crate) type FileOffice<S> = RememberingOffice<SqlOffice<FileStore<FileFrom<S>>>>;

/// The office over a database's files, which are closed when it is dropped. For lists and replies it remembers the numbers of octets of
/// files, as long as it lives. A torn write is assumed to leave each octet old or new ([`Unknown`]).
///
/// It hides its store. The proof of a function that drops a [`FileOffice`], or calls a generic function over offices with one, has to go
/// through the whole store. Two functions here and `limits` of its `Office` need this, and no function with a `DatabaseOffice` does.
pub struct DatabaseOffice {
    office: FileOffice<Unknown>,
}

impl Drop for DatabaseOffice {
    fn drop(self) {
        let DatabaseOffice { office } = self;
        let _ = office;
    }
}

/// An operation on an office over a store, for each kind of store.
trait StoreErrand {
    // Its result.
    type Outcome;

    // What holds of it, of the office before and after it, and of its result.
    ghost says: { Self → View → View → Self.Outcome → Type 0 };

    // Does the operation.
    fn run_over<S: Alter>(self, office: &mut RememberingOffice<SqlOffice<S>>) -> Self::Outcome
        ensures { says self (seen_over S.Store office.old) (seen_over S.Store office.new) result };
}

impl DatabaseOffice {
    /// The office over these files.
    pub(crate) fn new(office: FileOffice<Unknown>) -> DatabaseOffice
        ensures office { result.office ≡ office }
    {
        DatabaseOffice { office }
    }

    /// Writes the log into the database's file, so that it has the whole database, and closes both.
    ///
    /// # Errors
    /// [`Fault::File`]: the disk failed, or is full.
    pub fn close(self) -> Result<(), Fault> {
        let DatabaseOffice { office } = self;
        match office.into_office().into_conn().close() {
            Ok(()) => Ok(()),
            Err(_) => Err(Fault::File),
        }
    }

    /// Does an operation on the office.
    fn lend<E: StoreErrand>(&mut self, errand: E) -> E::Outcome
        ensures { E.says errand (seen_over over_files self.old.office) (seen_over over_files self.new.office) result }
    {
        errand.run_over(&mut self.office)
    }
}
