//! What is done with a file that is taken, and with one that is to be collected. Also what is done about a folder's lock, and what an error
//! concerns.

ghost use Rattle.std.specs.Prelude.{◌≡◌, ℕ};
ghost use Rattle.oftp_folders.specs.Judged.{collected, concerned, handed, lock_tried, offered};
ghost use Rattle.oftp_folders.specs.declared.judging.Collecting.TheVariants as Collecting;
ghost use Rattle.oftp_folders.specs.declared.judging.Concern.TheVariants as Concern;
ghost use Rattle.oftp_folders.specs.declared.judging.Content.TheVariants as Content;
ghost use Rattle.oftp_folders.specs.declared.judging.Held.TheVariants as Held;
ghost use Rattle.oftp_folders.specs.declared.judging.LockSeen.TheVariants as LockSeen;
ghost use Rattle.oftp_folders.specs.declared.judging.Locking.TheVariants as Locking;
ghost use Rattle.oftp_folders.specs.declared.judging.Named.TheVariants as Named;
ghost use Rattle.oftp_folders.specs.declared.judging.Step.TheVariants as Step;
ghost use Rattle.oftp_outcomes.specs.declared.outcome.Fault.TheVariants as Fault;

use oftp_outcomes::Fault;

/// What kind of name a regular file of an offered folder has.
#[derive(Clone, Copy)]
pub(super) enum FileName {
    /// A hidden one, which begins with a dot.
    Hidden,
    /// A dataset name.
    Dataset,
    /// Another one.
    Other,
}

/// Where the dataset names of offered files come from.
#[derive(Clone, Copy)]
pub(super) enum Naming {
    /// Each file's own name is it.
    Own,
    /// The command line has it.
    Given,
}

/// What is done with a regular file of an offered folder.
#[derive(Clone, Copy)]
pub(super) enum Offering {
    /// It is taken.
    Take,
    /// It stays, and gets a line.
    Tell,
    /// It stays.
    Pass,
}

/// What is done with a regular file of an offered folder. A hidden one always stays: another program is still writing it, or it is a lock.
pub(super) fn offering_of(name: FileName, naming: Naming) -> Offering
    ensures exact { result ≡ offered name naming }
{
    match (name, naming) {
        (FileName::Hidden, _) => Offering::Pass,
        (FileName::Dataset, _) | (FileName::Other, Naming::Given) => Offering::Take,
        (FileName::Other, Naming::Own) => Offering::Tell,
    }
}

/// Which call of `offer` took a file.
#[derive(Clone, Copy)]
pub(super) enum TakenBy {
    /// This one, so nobody has handed the file in under the date and time that it has now.
    ThisCall,
    /// An earlier one, which may have handed it in.
    EarlierCall,
}

/// How the content of one file compares with that of another.
#[derive(Clone, Copy)]
pub(super) enum Content {
    /// They are the same, octet for octet.
    Same,
    /// They aren't.
    Other,
}

/// What the register has under the dataset name, date, time and partner of a file that is taken.
#[derive(Clone, Copy)]
pub(super) enum Held {
    /// Nothing.
    Nothing,
    /// The file with a number, whose content compares so with that of the taken file.
    File(u64, Content),
}

/// What is done with a file that is taken.
#[derive(Clone, Copy)]
pub(super) enum Step {
    /// It is handed in.
    HandIn,
    /// It was handed in, under this number, and is put away.
    HandedIn(u64),
    /// Its date and time are another file's, so it gets the next free ones.
    TakeNextStamp,
}

/// What is done with a file that is taken. It counts as handed in only if an earlier call took it, and the register has its content. What the
/// register has under the name, date and time of a file that this call took is another file, whatever it contains.
pub(super) fn step_of(taken_by: TakenBy, held: Held) -> Step
    ensures exact { result ≡ handed taken_by held }
    ensures kept { (number : ℕ) → result ≡ Step.HandedIn number → held ≡ Held.File number Content.Same }
    ensures clear { result ≡ Step.HandIn → held ≡ Held.Nothing }
{
    match (taken_by, held) {
        (_, Held::Nothing) => Step::HandIn,
        (TakenBy::EarlierCall, Held::File(no, Content::Same)) => Step::HandedIn(no),
        _ => Step::TakeNextStamp,
    }
}

/// What is at the name of a file that is to be collected.
#[derive(Clone, Copy)]
pub(super) enum Named {
    /// Nothing.
    Nothing,
    /// A regular file, whose content compares so with that of the file.
    File(Content),
    /// Something else.
    Else,
}

/// What is done with a file that is to be collected.
#[derive(Clone, Copy)]
pub(super) enum Collecting {
    /// It is written.
    Write,
    /// It is there already.
    Leave,
    /// Its name is taken, so it is neither written nor released.
    Refuse,
}

/// What is done with a file that is to be collected. It counts as written only if a regular file with its content has its name, and it takes
/// no name that is taken.
pub(super) fn collecting_of(named: Named) -> Collecting
    ensures exact { result ≡ collected named }
    ensures kept { result ≡ Collecting.Leave → named ≡ Named.File Content.Same }
    ensures clear { result ≡ Collecting.Write → named ≡ Named.Nothing }
{
    match named {
        Named::Nothing => Collecting::Write,
        Named::File(Content::Same) => Collecting::Leave,
        Named::File(Content::Other) | Named::Else => Collecting::Refuse,
    }
}

/// What was seen at the name of a folder's lock.
#[derive(Clone, Copy)]
pub(super) enum LockSeen {
    /// Nothing, at the look or at the open behind it.
    Nothing,
    /// Something that no command makes: no regular file, another user's, or one that others may open.
    Else,
    /// A lock at the look, and another file at the open.
    Exchanged,
    /// A lock, which is open.
    Lock,
}

/// What is done about a folder's lock.
#[derive(Clone, Copy)]
pub(super) enum Locking {
    /// It is locked.
    Lock,
    /// It is looked for again after a pause, as if another command had it locked.
    TryAgain,
    /// The folder isn't locked.
    Refuse,
}

/// What is done about a folder's lock. A command removes its lock when it is done, so one that goes away is no fault: only what no command
/// makes is.
pub(super) fn locking_of(seen: LockSeen) -> Locking
    ensures exact { result ≡ lock_tried seen }
    ensures patient { result ≡ Locking.Refuse → seen ≡ LockSeen.Else }
    ensures held { result ≡ Locking.Lock → seen ≡ LockSeen.Lock }
{
    match seen {
        LockSeen::Nothing | LockSeen::Exchanged => Locking::TryAgain,
        LockSeen::Else => Locking::Refuse,
        LockSeen::Lock => Locking::Lock,
    }
}

/// What an error in the work on one file concerns.
#[derive(Drop)]
pub(super) enum Concern {
    /// This file: it gets a line, stays where it is, and the others go on.
    File,
    /// The command, which ends with this error.
    Command(Fault),
}

/// What an error in the work on one file concerns. One of its file operations is the file's own. A failed office or output and used up memory
/// would meet the other files, too.
pub(super) fn concern_of(fault: Fault) -> Concern
    ensures exact { result ≡ concerned fault }
    ensures own { result ≡ Concern.File → fault ≡ Fault.File }
{
    match fault {
        Fault::File => Concern::File,
        other => Concern::Command(other),
    }
}
