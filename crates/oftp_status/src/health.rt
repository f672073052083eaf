//! The verdict on a station: the line and the exit status of a Nagios plugin.

ghost use Rattle.std.specs.Prelude.{◌≡◌, OnOk, IfOk, fold};
ghost use Rattle.oftp_status.specs.Health.{found_in, grade_at, grade_in, grade_text, grade_without, later_backup, limits_for, line_of, line_without, measure_back, measure_front, measure_of, nothing_found, raised, status_of, weighed, with_data, with_datum, with_files, with_limits, with_partner, with_reason, worse};

use crate::picture::{Partner, Picture, last_good};
use crate::pieces::{Piece, add};
use crate::standing::Standing;
use crate::subject::Subject;
use crate::tally::Tally;
use crate::way::Way;
use std::alloc::{AllocError, Global};
use std::marker::Model;

/// How well a station is.
#[derive(Clone, Copy, Debug, Drop, PartialEq, Eq)]
pub enum Grade {
    /// Nothing is overdue.
    Fine,
    /// Something is older than the first limit.
    Warning,
    /// Something is older than the second limit.
    Critical,
    /// It can't be told.
    Unknown,
}

impl Grade {
    /// The exit status of a plugin: 0 to 3.
    pub fn status(self) -> u8
        ensures { result ≡ status_of self }
    {
        match self {
            Grade::Fine => 0,
            Grade::Warning => 1,
            Grade::Critical => 2,
            Grade::Unknown => 3,
        }
    }

    /// Its word.
    pub fn word(self) -> &'static str
        ensures { result.now ≡ grade_text self }
    {
        match self {
            Grade::Fine => "OK",
            Grade::Warning => "WARNING",
            Grade::Critical => "CRITICAL",
            Grade::Unknown => "UNKNOWN",
        }
    }

    // The worse of both.
    fn worse(self, other: Grade) -> Grade
        ensures { result ≡ worse self other }
    {
        if self.status() < other.status() {
            other
        } else {
            self
        }
    }
}

/// The ages in seconds up to which all is well, and up to which it is no more than a warning.
#[derive(Clone, Copy, Debug, Drop, PartialEq, Eq)]
pub struct Limits {
    /// Above it is a warning.
    pub warn: u64,
    /// Above it is critical.
    pub critical: u64,
}

impl Limits {
    // The grade of an age.
    fn grade(self, age: u64) -> Grade
        ensures { result ≡ grade_at self age }
    {
        if self.critical < age {
            Grade::Critical
        } else if self.warn < age {
            Grade::Warning
        } else {
            Grade::Fine
        }
    }
}

/// The first limit that a partner has of its own.
#[derive(Clone, Copy)]
pub struct Overdue<'a> {
    /// The partner's code.
    pub code: &'a str,
    /// The limit in seconds.
    pub seconds: u64,
}

// The limits with those of a partner in their place, if they are of this code. The second is as far from the first as before.
fn with_limits(general: Limits, code: &str, limits: Limits, overdue: &Overdue<'_>) -> Limits
    ensures { result ≡ with_limits general code.now limits overdue.now }
{
    if overdue.code == code {
        let between = general.critical.saturating_sub(general.warn);
        Limits {
            warn: overdue.seconds,
            critical: overdue.seconds.saturating_add(between),
        }
    } else {
        limits
    }
}

// The limits of a partner.
fn limits_for(general: Limits, overdues: &[Overdue<'_>], code: &str) -> Limits
    ensures { result ≡ limits_for general overdues.now code.now }
{
    let mut limits = general;
    for overdue in overdues {
        limits = with_limits(general, code, limits, overdue);
    }
    limits
}

/// What is measured.
#[derive(Clone, Copy, Debug, Drop, PartialEq, Eq)]
pub(crate) enum Measure {
    /// A whole file without a response.
    Release,
    /// A file that waits to be sent.
    Send,
    /// A file that the partner has and hasn't answered.
    Confirm,
    /// The last good session of a partner.
    Session,
    /// The last backup.
    Backup,
}

impl Measure {
    // What is measured of a file that stands like this.
    fn of(standing: Standing) -> Option<Measure>
        ensures { result ≡ measure_of standing }
    {
        match standing {
            Standing::Whole => Some(Measure::Release),
            Standing::Waiting | Standing::Closing => Some(Measure::Send),
            Standing::Handed => Some(Measure::Confirm),
            _ => None,
        }
    }

    // The words before the age.
    fn front(self) -> &'static str
        ensures { result.now ≡ measure_front self }
    {
        match self {
            Measure::Release | Measure::Send | Measure::Confirm => ": a file waits ",
            Measure::Session => ": no good session for ",
            Measure::Backup => "no backup for ",
        }
    }

    // The words behind it.
    fn back(self) -> &'static str
        ensures { result.now ≡ measure_back self }
    {
        match self {
            Measure::Release => " to be released",
            Measure::Send => " to be sent",
            Measure::Confirm => " for its response",
            Measure::Session | Measure::Backup => "",
        }
    }
}

/// The greatest age of each measure.
#[derive(Clone, Copy, Debug, Drop, PartialEq, Eq)]
pub(crate) struct Ages {
    release: u64,
    send: u64,
    confirm: u64,
    session: u64,
    backup: u64,
}

impl Ages {
    // The same with one more age.
    fn raised(self, measure: Measure, age: u64) -> Ages
        ensures { result ≡ raised self measure age }
    {
        match measure {
            Measure::Release => Ages {
                release: self.release.max(age),
                ..self
            },
            Measure::Send => Ages {
                send: self.send.max(age),
                ..self
            },
            Measure::Confirm => Ages {
                confirm: self.confirm.max(age),
                ..self
            },
            Measure::Session => Ages {
                session: self.session.max(age),
                ..self
            },
            Measure::Backup => Ages {
                backup: self.backup.max(age),
                ..self
            },
        }
    }
}

/// What is found so far: the grade, the reasons for it, and the ages.
#[derive(Drop)]
struct Found {
    grade: Grade,
    reasons: Vec<u8>,
    ages: Ages,
}

impl Model for Found {
    ghost use Rattle.oftp_status.specs.Health.{Finding};

    ghost Value = { Finding };

    ghost view = { λ f. record { grade = f.grade; reasons = f.reasons.items; ages = f.ages } };
}

impl Found {
    // Nothing so far.
    fn new(alloc: Global) -> Found
        ensures { result ≡ nothing_found }
    {
        Found {
            grade: Grade::Fine,
            reasons: Vec::new(alloc),
            ages: Ages {
                release: 0,
                send: 0,
                confirm: 0,
                session: 0,
                backup: 0,
            },
        }
    }

    // Appends why an age isn't well.
    fn reason(
        &mut self,
        alloc: Global,
        measure: Measure,
        code: &str,
        age: u64,
    ) -> Result<(), AllocError>
        ensures { OnOk result (self.new ≡ with_reason measure code.now age self.old) }
    {
        add(
            alloc,
            &[
                Piece::Text(" - "),
                Piece::Text(code),
                Piece::Text(measure.front()),
                Piece::Age(age),
                Piece::Text(measure.back()),
            ],
            &mut self.reasons,
        )
    }

    // Weighs an age.
    fn weigh(
        &mut self,
        alloc: Global,
        limits: Limits,
        measure: Measure,
        code: &str,
        age: u64,
    ) -> Result<(), AllocError>
        ensures { OnOk result (self.new ≡ weighed limits measure code.now age self.old) }
    {
        let grade = limits.grade(age);
        self.grade = self.grade.worse(grade);
        self.ages = self.ages.raised(measure, age);
        if grade.status() == 0 {
            return Ok(());
        }
        self.reason(alloc, measure, code, age)
    }

    // Weighs the oldest of the files of a counter.
    fn weigh_files(
        &mut self,
        alloc: Global,
        terms: Terms<'_>,
        now: u64,
        tally: &Tally,
    ) -> Result<(), AllocError>
        ensures { OnOk result (self.new ≡ with_files terms.entry now self.old tally.now) }
    {
        let Subject::File { partner, standing } = &tally.subject else {
            return Ok(());
        };
        let Some(measure) = Measure::of(*standing) else {
            return Ok(());
        };
        let limits = limits_for(terms.limits, terms.overdues, partner.as_str());
        let age = now.saturating_sub(tally.first);
        self.weigh(alloc, limits, measure, partner.as_str(), age)
    }

    // Weighs the last good session with a partner, or the start if there was none since.
    fn weigh_partner(
        &mut self,
        alloc: Global,
        terms: Terms<'_>,
        picture: &Picture<'_>,
        partner: &Partner<'_>,
    ) -> Result<(), AllocError>
        ensures { OnOk result (self.new ≡ with_partner terms.entry picture.now self.old partner.now) }
    {
        let limits = limits_for(terms.limits, terms.overdues, partner.code);
        let came = last_good(picture.counters, partner.code, Way::In);
        let went = last_good(picture.counters, partner.code, Way::Out);
        let last = picture.since.max(came).max(went);
        let age = picture.moment.saturating_sub(last);
        self.weigh(alloc, limits, Measure::Session, partner.code, age)
    }

    // Weighs all files.
    fn weigh_all_files(
        &mut self,
        alloc: Global,
        terms: Terms<'_>,
        now: u64,
        files: &[Tally],
    ) -> Result<(), AllocError>
        ensures { OnOk result (self.new ≡ fold (with_files terms.entry now) self.old files.now) }
    {
        for tally in files {
            self.weigh_files(alloc, terms, now, tally)?;
        }
        Ok(())
    }

    // Weighs the sessions with all partners.
    fn weigh_partners(
        &mut self,
        alloc: Global,
        terms: Terms<'_>,
        picture: &Picture<'_>,
    ) -> Result<(), AllocError>
        ensures { OnOk result (self.new ≡ fold (with_partner terms.entry picture.now) self.old picture.now.partners.now) }
    {
        for partner in picture.partners {
            self.weigh_partner(alloc, terms, picture, partner)?;
        }
        Ok(())
    }

    // The line.
    fn line(&self, alloc: Global, limits: Limits) -> Result<Vec<u8>, AllocError>
        ensures { IfOk result (λ line. line.items ≡ line_of limits self.now) }
    {
        let mut line = Vec::new(alloc);
        add(
            alloc,
            &[Piece::Text("OFTP "), Piece::Text(self.grade.word())],
            &mut line,
        )?;
        if self.grade.status() == 0 {
            line.extend_from_slice(b" - nothing is overdue")?;
        }
        line.extend_from_slice(self.reasons.as_slice())?;
        self.add_data(alloc, limits, &mut line)?;
        Ok(line)
    }

    // Appends the performance data: each greatest age with the limits.
    fn add_data(&self, alloc: Global, limits: Limits, line: &mut Vec<u8>) -> Result<(), AllocError>
        ensures { OnOk result (line.new.items ≡ with_data limits self.now.ages line.old.items) }
    {
        let ages = self.ages;
        add_datum(alloc, " | release=", ages.release, limits, line)?;
        add_datum(alloc, " send=", ages.send, limits, line)?;
        add_datum(alloc, " confirm=", ages.confirm, limits, line)?;
        add_datum(alloc, " session=", ages.session, limits, line)?;
        add_datum(alloc, " backup=", ages.backup, limits, line)
    }
}

// Appends an age with its limits as performance data.
fn add_datum(
    alloc: Global,
    name: &str,
    age: u64,
    limits: Limits,
    line: &mut Vec<u8>,
) -> Result<(), AllocError>
    ensures { OnOk result (line.new.items ≡ with_datum limits name.now age line.old.items) }
{
    add(
        alloc,
        &[
            Piece::Text(name),
            Piece::Number(age),
            Piece::Text("s;"),
            Piece::Number(limits.warn),
            Piece::Text(";"),
            Piece::Number(limits.critical),
            Piece::Text(";0"),
        ],
        line,
    )
}

// The later of a time and that of the last backup of which this is a counter.
fn later_backup(time: u64, tally: &Tally) -> u64
    ensures { result ≡ later_backup time tally.now }
{
    match &tally.subject {
        Subject::Backup => time.max(tally.last),
        _ => time,
    }
}

// When the last backup was made, and if none was, when the station began.
fn last_backup(since: u64, counters: &[Tally]) -> u64
    ensures { result ≡ fold later_backup since counters.now }
{
    let mut time = since;
    for tally in counters {
        time = later_backup(time, tally);
    }
    time
}

/// Why there is no verdict of a station.
#[derive(Clone, Copy, Debug, Drop, PartialEq, Eq)]
pub enum Missing {
    /// No station runs.
    Station,
    /// The station gave none.
    Verdict,
}

impl Missing {
    /// How well the station is.
    pub fn grade(self) -> Grade
        ensures { result ≡ grade_without self }
    {
        match self {
            Missing::Station => Grade::Critical,
            Missing::Verdict => Grade::Unknown,
        }
    }

    /// The line.
    pub fn line(self) -> &'static str
        ensures { result.now ≡ line_without self }
    {
        match self {
            Missing::Station => "OFTP CRITICAL - no station runs\n",
            Missing::Verdict => "OFTP UNKNOWN - the station gives no verdict\n",
        }
    }
}

/// The grade that the line of a verdict tells.
pub fn grade_in(line: &[u8]) -> Grade
    ensures { result ≡ grade_in line.now }
{
    if line.starts_with(b"OFTP OK ") {
        Grade::Fine
    } else if line.starts_with(b"OFTP WARNING ") {
        Grade::Warning
    } else if line.starts_with(b"OFTP CRITICAL ") {
        Grade::Critical
    } else {
        Grade::Unknown
    }
}

/// By which limits a station is judged.
#[derive(Clone, Copy)]
pub struct Terms<'a> {
    /// The general ones.
    pub limits: Limits,
    /// Those of partners that have their own.
    pub overdues: &'a [Overdue<'a>],
}

/// The verdict on a station.
#[derive(Debug, Drop)]
pub struct Verdict {
    /// How well it is.
    pub grade: Grade,
    /// The line, without its end.
    pub line: Vec<u8>,
}

/// The verdict on a station by these limits. They are of the oldest file of each partner that waits to be released, to be sent or for its
/// response. They are also of the last good session with each partner, and of the last backup.
///
/// # Errors
///
/// Out of memory.
pub fn verdict_on(
    alloc: Global,
    picture: &Picture<'_>,
    terms: Terms<'_>,
) -> Result<Verdict, AllocError>
    ensures grade { IfOk result (λ verdict. verdict.grade ≡ (found_in picture.now terms.entry).grade) }
    ensures line { IfOk result (λ verdict. verdict.line.items ≡ line_of terms.entry.limits (found_in picture.now terms.entry)) }
{
    let mut found = Found::new(alloc);
    found.weigh_all_files(alloc, terms, picture.moment, picture.files)?;
    found.weigh_partners(alloc, terms, picture)?;
    let backup = last_backup(picture.since, picture.counters);
    let age = picture.moment.saturating_sub(backup);
    found.weigh(alloc, terms.limits, Measure::Backup, "", age)?;
    Ok(Verdict {
        grade: found.grade,
        line: found.line(alloc, terms.limits)?,
    })
}
