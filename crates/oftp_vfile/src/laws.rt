//! Theorems about the definitions, as contracts of functions that do nothing.
ghost use Rattle.oftp_vfile.specs.Laws.{CarriedBegins, ClosedIsFile, CountsAreFile, FillFits, FillIsOne, FillIsTaken, FillIsWhole, LendsRows, MarkIsSent, MoreAreFew, OneFault, OneFile, OneReading, PartBegins, PartCloses, RowsFrom, ShedTaken, TookIsWithin, WhollySent};

/// For given records and a size in octets, there is one list of payloads that follows the filling rule. The function does nothing; its
/// contract is the theorem.
pub fn fill_is_one()
    ensures { FillIsOne }
{}

/// The payloads that follow the filling rule aren't empty, and have at most the given size in octets. The function does nothing; its
/// contract is the theorem.
pub fn fill_fits()
    ensures { FillFits }
{}

/// The payloads of a file, as the filling rule makes them, carry exactly its rows, to the end. The function does nothing; its contract is
/// the theorem.
pub fn fill_is_whole()
    ensures { FillIsWhole }
{}

/// Payloads carry only one list of rows. The function does nothing; its contract is the theorem.
pub fn one_reading()
    ensures { OneReading }
{}

/// A taker that took the payloads of a file, as the filling rule makes them, is closed. Together with the rows that were removed from it,
/// it holds exactly the file's rows. The function does nothing; its contract is the theorem.
pub fn fill_is_taken()
    ensures { FillIsTaken }
{}

/// The first payloads of a file carry as many rows as are wholly sent after them. The function does nothing; its contract is the theorem.
pub fn wholly_sent()
    ensures { WhollySent }
{}

/// The mark of a filler is the row at which it began plus the number of rows that it has wholly sent since. The function does nothing; its
/// contract is the theorem.
pub fn mark_is_sent()
    ensures { MarkIsSent }
{}

/// The rows of a file from a row on are rows of a file of the same format and longest record. The function does nothing; its contract is
/// the theorem.
pub fn rows_from()
    ensures { RowsFrom }
{}

/// The next rows from the filler's row on, or all that are left, are such as it may borrow. The function does nothing; its contract is the
/// theorem.
pub fn lends_rows()
    ensures { LendsRows }
{}

/// More rows are asked for only where fewer were given than the payload has octets. The function does nothing; its contract is the theorem.
pub fn more_are_few()
    ensures { MoreAreFew }
{}

/// The payloads that a taker took carry its rows within the limits. The function does nothing; its contract is the theorem.
pub fn took_is_within()
    ensures { TookIsWithin }
{}

/// The counts of a taker are those of the file so far. The function does nothing; its contract is the theorem.
pub fn counts_are_file()
    ensures { CountsAreFile }
{}

/// The rows that closed payloads carry are those of a file. The function does nothing; its contract is the theorem.
pub fn closed_is_file()
    ensures { ClosedIsFile }
{}

/// A payload has only one first fault. The function does nothing; its contract is the theorem.
pub fn one_fault()
    ensures { OneFault }
{}

/// A content is the local form of only one file of its format and longest record. The function does nothing; its contract is the theorem.
pub fn one_file()
    ensures { OneFile }
{}

/// The rows that a part of a file's payloads carries, cut off anywhere, are a beginning of its rows, however the payloads were made. The
/// function does nothing; its contract is the theorem.
pub fn part_begins()
    ensures { PartBegins }
{}

/// The rows that the first payloads of a file carry, as the filling rule makes them, are a beginning of its rows. The function does
/// nothing; its contract is the theorem.
pub fn carried_begins()
    ensures { CarriedBegins }
{}

/// A part of a file's payloads that is closed, and has the counts of the file, carries all of it. The function does nothing; its contract
/// is the theorem.
pub fn part_closes()
    ensures { PartCloses }
{}

/// A taker from which rows were removed accepts and refuses what the whole one does. The function does nothing; its contract is the
/// theorem.
pub fn shed_taken()
    ensures { ShedTaken }
{}
