//! Theorems about sessions and lives over any database.

ghost use Rattle.std.specs.Prelude.{Bool, List};
ghost use Rattle.oftp_store.specs.Shown.{shown};
ghost use Rattle.oftp_life.specs.Acts.{Act};
ghost use Rattle.oftp_life.specs.Lives.{HasLeft};
ghost use Rattle.oftp_durable.specs.Counts.{NoAnswerPasses};
ghost use Rattle.oftp_durable.specs.LifeTables.{HasLeftTables};

use oftp_life::laws::lives_make_the_file;
use oftp_store::SqlOffice;
use sqlite::Alter;

/// Each SFPA of a session comes after the change that starts a file with the Restart position that it answers. Before that change the file
/// had at least this many rows, and after it exactly this many. The function does nothing; its contract is the theorem.
pub fn no_answer_passes()
    ensures { NoAnswerPasses }
{}

/// What a life leaves by the clause `leaves` of its calls, it leaves in terms of the tables. A crash leaves the tables of the register with
/// which it began, after a prefix of all changes of its acts. Each change that was answered is in it. Unless it is over, it leaves those of
/// its office's register, and nothing else. The function does nothing; its contract is the theorem.
pub fn lives_leave_tables<S: Alter>()
    ensures { (began now : SqlOffice S S.Store) (acts : List Act) (over : Bool) → HasLeft (shown S.Store) began acts over now
        → HasLeftTables S.Store began acts over now }
{
    lives_make_the_file::<SqlOffice<S>>();
}
