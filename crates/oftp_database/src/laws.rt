//! Theorems about the program's lives over a database.

ghost use Rattle.std.specs.Prelude.{Bool, List};
ghost use Rattle.sqlite.specs.Files.{over_files};
ghost use Rattle.sqlite.specs.Recovery.{Image};
ghost use Rattle.oftp_listing.specs.Remembering.{IsBlank};
ghost use Rattle.oftp_life.specs.Acts.{Act};
ghost use Rattle.oftp_life.specs.Lives.{HasLeft};
ghost use Rattle.oftp_durable.specs.Databases.{OnCleanDisk};
ghost use Rattle.oftp_durable.specs.LifeTables.{HasLeftTables};
ghost use Rattle.oftp_database.specs.GoingOn.{AfterCrash, NextGoesOn};
ghost use Rattle.oftp_database.specs.Openings.{IsOpened};
ghost use Rattle.oftp_database.specs.Seen.{OfficeOver, seen_over};

use crate::office::DatabaseOffice;
use oftp_durable::laws::lives_leave_tables;
use sqlite::{Alter, FileFrom, FileStore, Unknown};

/// What the clause `leaves` of a life says of the program's life, in the terms of the tables. A crash leaves the tables of the register with
/// which it began, after a prefix of all changes of its acts. Each change that was answered is in it. Unless it is over, a crash leaves the
/// tables of the register of its office, and nothing else. The function only calls the theorem on any database; its contract is the theorem.
pub fn lives_over_files_leave_tables()
    ensures { (began now : DatabaseOffice) (acts : List Act) (over : Bool) → IsBlank began.office.counts
        → HasLeft (λ (o : DatabaseOffice). seen_over over_files o.office) began acts over now
        → HasLeftTables over_files began.office.office acts over now.office.office }
{
    lives_leave_tables::<FileStore<FileFrom<Unknown>>>();
}

/// One life goes on where the one before it stopped, over stores of any kind. A life began with an office as an opening returns it, over any
/// files, and stopped at any moment. Files hold what a crash left then, and the next life begins with the office that an opening returns over
/// these. So it begins with the register after a prefix of all changes of the first life, which has each that was answered. Whatever it does,
/// it leaves what a life leaves that begins so. The function only calls the theorem on any database, for each of the two lives.
pub fn lives_go_on_from_files<S: Alter, T: Alter>()
    ensures { (first : Image) (began now : OfficeOver S.Store) (acts : List Act) (over : Bool) → IsOpened S.Store first began
        → HasLeft (seen_over S.Store) began acts over now
        → OnCleanDisk S.Store began.office now.office (λ r. AfterCrash S.Store now.office (λ files. NextGoesOn T.Store files r acts)) }
{
    lives_leave_tables::<S>();
    lives_leave_tables::<T>();
}
