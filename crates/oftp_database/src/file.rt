//! The file of a database.

use oftp_files::make_private;

/// A path for which SQLite keeps no file.
const UNKEPT: &str = ":memory:";

/// Creates the file if it doesn't exist, so that only its owner may read or write it. The log beside it gets the same mode when the
/// database is opened. If the file can't be created, opening the database returns the error.
pub(crate) fn make_file(rt: &HostRuntime, path: &str) {
    if path != UNKEPT {
        let _ = make_private(rt, path);
    }
}
