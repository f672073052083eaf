//! The calls of a life over a database.

ghost use Rattle.std.specs.Prelude.{◌≡◌, ◌≤◌, ◌↔◌, IfErr, IfOk, [], ◌∷◌, false, true};
ghost use Rattle.sqlite.specs.Files.{HoldsDatabase, over_files};
ghost use Rattle.sqlite.specs.State.{HasCleanDisk};
ghost use Rattle.sqlite.specs.WalFiles.{image_at};
ghost use Rattle.oftp_register.specs.declared.fit.TheConstants.{MOST_FILES, MOST_OCTETS};
ghost use Rattle.oftp_register.specs.Register.{empty};
ghost use Rattle.oftp_tables.specs.Opening.{FailsToOpen};
ghost use Rattle.oftp_store.specs.Opens.{HoldsNoTable, HoldsTaken, IsOpenable, RefusesPath, TellsPath, to_open};
ghost use Rattle.oftp_store.specs.Paths.{IsKept};
ghost use Rattle.oftp_store.specs.Shown.{database_of, limits_of};
ghost use Rattle.oftp_engine.specs.Openings.{of_caller};
ghost use Rattle.oftp_engine.specs.Operated.{Operates};
ghost use Rattle.oftp_engine.specs.Served.{setting_of};
ghost use Rattle.oftp_life.specs.Acts.{Conversed};
ghost use Rattle.oftp_life.specs.Lives.{Heard, answer_of, ends_life, has_ceased, is_over_at, life_after, life_begun_with};
ghost use Rattle.oftp_life.specs.Noted.{with_call};
ghost use Rattle.oftp_life.specs.Outboxes.{octets_out};
ghost use Rattle.oftp_durable.specs.Databases.{OnCleanDisk, ReopensPrefix, WhereFilesHold, scene_over};
ghost use Rattle.oftp_durable.specs.LifeTables.{HasDoneNothing, HasLeftAtStage, HasLeftTables, LifeBegins};

use crate::laws::lives_leave_tables;
use crate::opening::open_durable;
use oftp_engine::{Operator, Port, Role, RunFault, Told};
use oftp_life::{Guest, Life, LifeSession, Outbox, Stage};
use oftp_partners::Book;
use oftp_session::Ending;
use oftp_store::{PathFault, PathRefused, SqlOffice};
use oftp_vfile::Limits;
use sqlite::{Alter, FileFrom, FileStore, Start};
use std::alloc::Global;
use std::io::Write;

/// The life that begins with this office: nothing was done in it yet.
pub fn live_durable<S: Alter>(office: SqlOffice<S>) -> Life<SqlOffice<S>>
    ensures begins { result ≡ life_begun_with office }
    // The headline.
    ensures leaves { OnCleanDisk S.Store office office (λ r. LifeBegins S.Store r result) }
{
    let life = Life::new(office);
    is_over_durable(&life);
    life
}

/// Opens the office in the files at a path, as [`open_durable`] does, and begins a life with it.
///
/// It begins with the register whose tables the files hold. If they hold what a crash left of an earlier life, it begins with the register
/// after a prefix of all changes of that life. The prefix has each change whose answer had one octet out. What a crash leaves of this life
/// is what [`hear_durable`] and [`order_durable`] say. The limits are those that `open_durable` accepts.
///
/// # Errors
///
/// Those of [`open_durable`], with what they leave.
pub fn live_at<S: Start>(
    rt: &HostRuntime,
    path: &str,
    limits: Limits,
    start: S,
) -> Result<Life<SqlOffice<FileStore<FileFrom<S>>>>, PathRefused<FileStore<FileFrom<S>>>>
    requires files { limits.files ≤ MOST_FILES }
    requires octets { limits.octets ≤ MOST_OCTETS }
    ensures unkept { (result ≡ Err (PathRefused.Path PathFault.Unkept)) ↔ ¬ IsKept path.now }
    ensures begins { IfOk result HasDoneNothing }
    ensures limits { IfOk result (λ l. limits_of l.began ≡ limits) }
    // The files hold no table, or the office's tables.
    ensures known { IfOk result (λ l. HasCleanDisk (database_of over_files l.began) → HoldsTaken IsOpenable (HoldsDatabase (image_at S.Start))) }
    // The headline, from the content of the files.
    ensures found { IfOk result (λ l. HasCleanDisk (database_of over_files l.began)
        → WhereFilesHold (image_at S.Start) limits (λ r. LifeBegins over_files r l)) }
    // If the files hold what a crash left of an earlier life, it so begins with the register after a prefix of that life's changes.
    ensures reopened { IfOk result (λ l. HasCleanDisk (database_of over_files l.began)
        → ReopensPrefix (image_at S.Start) limits (database_of over_files l.began)) }
    // The headline of a first life, from files that hold no table.
    ensures fresh { IfOk result (λ l. HasCleanDisk (database_of over_files l.began) → HoldsNoTable (image_at S.Start) → LifeBegins over_files (empty limits) l) }
    // Another database is a wrong schema and stays unchanged. After any other error the files hold their old content or the new tables.
    ensures refused { IfErr result (RefusesPath over_files to_open (image_at S.Start)) }
    // An error of the store other than a wrong schema is one of SQLite in this call.
    ensures told { IfErr result (TellsPath over_files (FailsToOpen over_files) (image_at S.Start)) }
{
    let office = open_durable(rt, path, limits, start)?;
    Ok(live_durable(office))
}

/// Begins a session, as [`Life::begin`] does.
pub fn begin_durable<'b, S: Alter>(
    life: Life<SqlOffice<S>>,
    alloc: Global,
    book: &'b Book,
    role: Role<'b>,
) -> LifeSession<'b, SqlOffice<S>>
    ensures acts { life.over ≡ false → result.acts ≡ Conversed (setting_of book.entry.now role.entry) [] (octets_out result.out.inner) ∷ life.acts }
    ensures began { result.began ≡ life.began }
    // The headline.
    ensures leaves { HasLeftTables S.Store result.began result.acts (is_over_at result.stage) result.office }
    // What this session has handed out, and what it leaves.
    ensures session { HasLeftAtStage S.Store result }
    ensures clean { HasCleanDisk (database_of S.Store result.office) → HasCleanDisk (database_of S.Store life.office) }
{
    let session = life.begin(alloc, book, role);
    stage_durable(&session);
    session
}

/// Begins the session of a caller that was let in, as [`Life::admit`] does.
pub fn admit_durable<'b, S: Alter>(
    life: Life<SqlOffice<S>>,
    alloc: Global,
    guest: Guest<'b>,
) -> LifeSession<'b, SqlOffice<S>>
    ensures acts { life.over ≡ false → result.acts ≡ Conversed (of_caller guest.entry.book) guest.entry.heard (octets_out result.out.inner) ∷ life.acts }
    ensures began { result.began ≡ life.began }
    // The headline.
    ensures leaves { HasLeftTables S.Store result.began result.acts (is_over_at result.stage) result.office }
    // What this session has handed out, and what it leaves.
    ensures session { HasLeftAtStage S.Store result }
    ensures clean { HasCleanDisk (database_of S.Store result.office) → HasCleanDisk (database_of S.Store life.office) }
{
    let session = life.admit(alloc, guest);
    stage_durable(&session);
    session
}

/// Hears the next octets, as [`LifeSession::hear`] does.
///
/// At every return a crash leaves the tables of the register with which the life began, after a prefix of all changes. They are those of all
/// its jobs and of this session so far. The prefix has each change whose answer has one octet out. Unless the life is over, a crash leaves
/// the tables of the office's register, which is the one after all these changes, and nothing else. No Restart position that was answered
/// exceeds the rows that were kept. A file that came in parts is, in what a crash leaves, not there, there in part, or the whole file.
///
/// # Errors
///
/// Those of [`LifeSession::hear`], with what they leave.
pub fn hear_durable<S: Alter>(
    session: &mut LifeSession<'_, SqlOffice<S>>,
    octets: &[u8],
) -> Result<Option<Ending>, RunFault>
    ensures began { session.new.began ≡ session.old.began }
    ensures idle { has_ceased session.old.stage ≡ true → (session.new ≡ session.old) × (result ≡ answer_of session.old.stage) }
    ensures heard { has_ceased session.old.stage ≡ false → Heard session.old session.new octets.now result }
    // The headline.
    ensures leaves { HasLeftTables S.Store session.new.began session.new.acts (is_over_at session.new.stage) session.new.office }
    // What this session has handed out, and what it leaves.
    ensures session { HasLeftAtStage S.Store session.new }
    ensures clean { HasCleanDisk (database_of S.Store session.new.office) → HasCleanDisk (database_of S.Store session.old.office) }
{
    let answer = session.hear(octets);
    stage_durable(session);
    answer
}

/// How a session stands. Whatever was called since it began, look-ups of whoever had it as an office among them, a crash leaves what
/// [`hear_durable`] says.
pub fn stage_durable<S: Alter>(session: &LifeSession<'_, SqlOffice<S>>) -> Stage
    ensures stage { result ≡ session.now.stage }
    // The headline.
    ensures leaves { HasLeftTables S.Store session.now.began session.now.acts (is_over_at session.now.stage) session.now.office }
    // What this session has handed out, and what it leaves.
    ensures session { HasLeftAtStage S.Store session.now }
{
    lives_leave_tables::<S>();
    session.stage()
}

/// Whether a life is over. Whatever was called since it began, look-ups of whoever had it as an office among them, a crash leaves what
/// [`order_durable`] says.
pub fn is_over_durable<S: Alter>(life: &Life<SqlOffice<S>>) -> bool
    ensures over { result ≡ life.now.over }
    // The headline.
    ensures leaves { HasLeftTables S.Store life.now.began life.now.acts life.now.over life.now.office }
{
    lives_leave_tables::<S>();
    life.is_over()
}

/// Ends a session, as [`LifeSession::end`] does.
pub fn end_durable<S: Alter>(session: LifeSession<'_, SqlOffice<S>>) -> (Life<SqlOffice<S>>, Outbox)
    ensures life { result.0 ≡ life_after session.entry }
    ensures out { result.1 ≡ session.entry.out.inner }
    // The headline.
    ensures leaves { HasLeftTables S.Store result.0.began result.0.acts result.0.over result.0.office }
{
    let (life, out) = session.end();
    is_over_durable(&life);
    (life, out)
}

/// Carries out an operator's call, as [`Life::order`] does.
///
/// At every return a crash leaves the tables of the register with which the life began, after a prefix of all changes. They are those of all
/// its jobs, this call among them. The prefix has each change whose answer has one octet out. Unless the life is over, a crash leaves the
/// tables of the office's register and nothing else.
///
/// # Errors
///
/// Those of [`Life::order`], with what they leave.
pub fn order_durable<S: Alter, W: Write>(
    life: &mut Life<SqlOffice<S>>,
    alloc: Global,
    book: &Book,
    call: &Operator<'_>,
    writer: &mut Port<W>,
) -> Result<Told, RunFault>
    ensures acts { life.old.over ≡ false → life.new.acts ≡ with_call book.now call.now life.old.acts result }
    ensures over { life.old.over ≡ false → life.new.over ≡ ends_life result }
    ensures idle { life.old.over ≡ true → (life.new ≡ life.old) × (result ≡ Err RunFault.Office) }
    ensures began { life.new.began ≡ life.old.began }
    // The call does over this database what it does over any office.
    ensures operates { life.old.over ≡ false → OnCleanDisk S.Store life.old.office life.new.office (λ _.
        Operates book.now call.now (scene_over S.Store W.contents life.old.office writer.old) (scene_over S.Store W.contents life.new.office writer.new) result) }
    // The headline.
    ensures leaves { HasLeftTables S.Store life.new.began life.new.acts life.new.over life.new.office }
    ensures clean { HasCleanDisk (database_of S.Store life.new.office) → HasCleanDisk (database_of S.Store life.old.office) }
{
    let answer = life.order(alloc, book, call, writer);
    is_over_durable(life);
    answer
}
