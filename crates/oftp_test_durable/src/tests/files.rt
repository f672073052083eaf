//! The files of a test's database.

use oftp_durable::open_durable;
use oftp_register::{Office, OfficeFault};
use oftp_store::SqlOffice;
use oftp_test_parts::given::LIMITS;
use sqlite::{Alter, Unknown};
use std::alloc::Global;
use std::fs;
use std::process::Abort;
use std::test::Fail;

/// Removes the files of a database.
pub(crate) fn remove_files(rt: &HostRuntime, files: &[&str; 2]) {
    for name in files {
        let _ = fs::remove_file(rt, name);
    }
}

/// How many files there are to send.
pub(crate) fn files_to_send<O: Office>(office: &mut O) -> Result<usize, OfficeFault> {
    Ok(office.list_out()?.len())
}

/// What a test does with an office over any store.
pub(crate) trait Trial {
    // What it finds.
    type Found;

    // Does it, and drops the office.
    fn carry_out<S: Alter + Drop>(
        &self,
        alloc: Global,
        rt: &impl Abort,
        office: SqlOffice<S>,
    ) -> Result<Self::Found, Fail>;
}

/// Does it with the office of a database's files. `rt` is the test's own runtime again, since a borrowed one may not end a test.
///
/// The proof of a function that uses or drops an office over files has to go through the whole store. This one does so for all tests.
pub(crate) fn over_files<T: Trial>(
    host: &HostRuntime,
    rt: &impl Abort,
    files: &[&str; 2],
    trial: &T,
) -> Result<T::Found, Fail> {
    match open_durable(host, files[0], LIMITS, Unknown) {
        Ok(office) => trial.carry_out(host.alloc(), rt, office),
        Err(_) => Err("not opened".into()),
    }
}
