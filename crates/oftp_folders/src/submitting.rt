//! Submits files that were taken from a folder, and moves them away.

use crate::folders::{
    Room, Stamps, claim_name, followed, has_something, keep, name_of, numbered, own_name_in,
    path_in, stamps_in, with_own_name,
};
use crate::judging::{Concern, Content, Held, Step, TakenBy, concern_of, step_of};
use crate::stamps::Moment;
use oftp_channel::{Ending, ListedFile, Request};
use oftp_command_line::{Offer, Submit};
use oftp_engine::{Operator, Refusal, Submission};
use oftp_files::{content_of, file_fault, open_regular};
use oftp_outcomes::{Carried, Fault, Why, write_line};
use oftp_progress::{Extent, Gauge};
use oftp_requests::{Backend, FileList, GONE, number_in};
use std::alloc::Global;
use std::collections::BTreeMap;
use std::fs::{self, File};
use std::io::{self, ErrorKind, Write};

/// The subfolder of the files that are taken.
pub(super) const TAKEN: &str = "taken";

/// The subfolder of those that the register has.
const SENT: &str = "sent";

/// The subfolder of those that it refused.
const REFUSED: &str = "refused";

/// The ending of the file with the line of a refused file.
const LINE: &str = ".line";

/// How many times are tried for a file, each a tick after the last: more than a register has files.
const MOST_MOMENTS: u32 = 1_000_001;

/// How many names are tried for a file that is put away. There is one for each database that has had a file of its number, name, date and time.
const MOST_NAMES: u32 = 10_000;

/// Why a file that can't be moved or read isn't handed in.
const UNREAD: Why = Why::Failed(Fault::File);

/// The subfolders.
#[derive(Drop)]
pub(super) struct Subfolders {
    pub(super) taken: Room,
    sent: Room,
    refused: Room,
}

impl Subfolders {
    /// The subfolders of a folder. Those that don't exist are created. Nobody else may write in that of the files that are taken.
    pub(super) fn made(rt: &HostRuntime, folder: &Room) -> Result<Subfolders, Fault> {
        let taken = folder.made(rt, TAKEN)?;
        taken.close_to_others()?;
        Ok(Subfolders {
            taken,
            sent: folder.made(rt, SENT)?,
            refused: folder.made(rt, REFUSED)?,
        })
    }
}

/// The result of a submission.
#[derive(Drop)]
enum Handed {
    /// The register has the file under this number.
    Under(u64),
    /// It was refused.
    Refused(Why),
}

/// The result of one try to submit a file.
#[derive(Drop)]
enum Tried {
    /// The register has the file under this number now.
    Under(u64),
    /// It was refused.
    Refused(Refusal),
    /// The register has another file with its name, date and time, or it has this one by a request of an earlier call.
    Duplicate,
}

/// The submission of a folder's files to a partner.
#[derive(Drop)]
pub(super) struct Submitting<'a, B> {
    rt: &'a HostRuntime,
    line: &'a Offer<'a>,
    pub(super) subfolders: &'a Subfolders,
    book: &'a [u8],
    backend: B,
    // The dataset names of the files.
    wanted: BTreeMap<Vec<u8>, bool>,
    // The numbers of the files in the register to the partner with such dataset names, by the names that they would have in `taken`.
    known: BTreeMap<Vec<u8>, u64>,
    // The names in `taken` that this call has given.
    given: BTreeMap<Vec<u8>, bool>,
    // The names that are given in `taken`, without the files' own names: no two files there have one.
    claimed: BTreeMap<Vec<u8>, bool>,
    gauge: Gauge<'a>,
    // The place of the file that is handed in among those that are taken, and how many these are.
    place: u64,
    count: u64,
}

/// How a file is named when it is taken.
#[derive(Clone, Copy)]
pub(super) struct Label<'n> {
    // Its dataset name.
    dataset: &'n str,
    // The name that it has of its own, if it is described by it.
    own: Option<&'n str>,
}

impl<'a, B: Backend> Submitting<'a, B> {
    /// A submission that hasn't looked anything up.
    pub(super) fn new(
        rt: &'a HostRuntime,
        line: &'a Offer<'a>,
        subfolders: &'a Subfolders,
        book: &'a [u8],
        backend: B,
    ) -> Submitting<'a, B> {
        Submitting {
            rt,
            line,
            subfolders,
            book,
            backend,
            wanted: BTreeMap::new(rt.alloc()),
            known: BTreeMap::new(rt.alloc()),
            given: BTreeMap::new(rt.alloc()),
            claimed: BTreeMap::new(rt.alloc()),
            gauge: Gauge::new(rt),
            place: 0,
            count: 0,
        }
    }

    /// Begins to hand in so many files.
    pub(super) fn begin(&mut self, count: usize) {
        self.count = count as u64;
    }

    /// Shows which file is handed in.
    fn show(&mut self, name: &str) {
        self.place = self.place.saturating_add(1);
        let (place, count) = (self.place, self.count);
        self.gauge.show(&Extent::Offer { place, count, name });
    }

    /// How a file with this name is named when it is taken.
    pub(super) fn label_of<'n>(&self, name: &'n str) -> Label<'n>
    where
        'a: 'n,
    {
        Label {
            dataset: self.line.dataset.unwrap_or(name),
            own: if self.line.describes {
                Some(name)
            } else {
                None
            },
        }
    }

    /// Looks up which files with the names in `files` and `claims` the register has.
    pub(super) fn look_up(&mut self, files: &[String], claims: &[String]) -> Result<(), Fault> {
        self.want_all(files)?;
        for claim in claims {
            self.want_claimed(claim.as_str())?;
        }
        self.look_again()
    }

    /// Adds the dataset name of a file in `taken` to those that are looked up, and notes its name there.
    fn want_claimed(&mut self, claim: &str) -> Result<(), Fault> {
        let name = self.register_name(claim)?;
        let name = octets_of(self.rt.alloc(), name.as_str())?;
        self.claimed.insert(name, true)?;
        match stamps_in(claim) {
            Some(stamps) => self.want(stamps.dataset),
            None => Ok(()),
        }
    }

    /// The name of a file in `taken`, without the file's own.
    fn register_name(&self, claim: &str) -> Result<String, Fault> {
        claim_name(self.rt.alloc(), stamps_of(claim), self.line.to)
    }

    /// Adds dataset names to those that are looked up.
    fn want_all(&mut self, files: &[String]) -> Result<(), Fault> {
        for name in files {
            self.want(self.label_of(name.as_str()).dataset)?;
        }
        Ok(())
    }

    /// Adds a dataset name to those that are looked up.
    fn want(&mut self, dataset: &str) -> Result<(), Fault> {
        let name = octets_of(self.rt.alloc(), dataset)?;
        self.wanted.insert(name, true)?;
        Ok(())
    }

    /// Looks up what the register has now.
    fn look_again(&mut self) -> Result<(), Fault> {
        let request = Request::Outgoing { to: self.line.to };
        let mut list = FileList::asked(self.rt.alloc(), &mut self.backend, &request)?;
        for _ in 0..u64::MAX {
            let Some(entry) = list.next_file()? else {
                break;
            };
            self.note(&entry.file()?)?;
        }
        Ok(())
    }

    /// Notes a file that the register has to the partner, if it has one of the names.
    fn note(&mut self, file: &ListedFile<'_>) -> Result<(), Fault> {
        if self.wanted.get(file.dataset.as_bytes()).is_none() {
            return Ok(());
        }
        let claim = claim_name(self.rt.alloc(), Stamps::of(file), self.line.to)?;
        let claim = octets_of(self.rt.alloc(), claim.as_str())?;
        self.known.insert(claim, file.no)?;
        Ok(())
    }

    /// The name under which a file is taken if it is given this time. `None` if a file with this time is in the register, taken or refused.
    fn claim_at(&self, name: &str, moment: Moment) -> Result<Option<String>, Fault> {
        let alloc = self.rt.alloc();
        let (date, time) = moment.stamps(alloc)?;
        let stamps = Stamps {
            dataset: name,
            date: date.as_str(),
            time: time.as_str(),
        };
        let claim = claim_name(alloc, stamps, self.line.to)?;
        Ok(if self.is_used(claim.as_str(), stamps)? {
            None
        } else {
            Some(claim)
        })
    }

    /// Whether a file with this dataset name, date and time is in the register, taken or refused.
    fn is_used(&self, claim: &str, stamps: Stamps<'_>) -> Result<bool, Fault> {
        if self.number_of(claim).is_some() || self.claimed.get(claim.as_bytes()).is_some() {
            return Ok(true);
        }
        let refused = name_of(self.rt.alloc(), stamps, self.line.to)?;
        Ok(
            self.is_there(&self.subfolders.taken, claim)?
                || self.is_there(&self.subfolders.refused, refused.as_str())?,
        )
    }

    /// The number of a file in the register, by its name in `taken`.
    fn number_of(&self, claim: &str) -> Option<u64> {
        match self.known.get(claim.as_bytes()) {
            Some(no) => Some(*no),
            None => None,
        }
    }

    /// Whether a name exists in a folder.
    fn is_there(&self, folder: &Room, name: &str) -> Result<bool, Fault> {
        let path = path_in(self.rt, folder.path(), name)?;
        has_something(self.rt, path.as_str())
    }

    /// Which call took a file.
    fn taker_of(&self, claim: &str) -> TakenBy {
        if self.given.get(claim.as_bytes()).is_some() {
            TakenBy::ThisCall
        } else {
            TakenBy::EarlierCall
        }
    }

    /// Takes a file: moves it to `taken`, under the first free name from this time on. Returns that name, or `None` if the file is gone.
    pub(super) fn take(
        &mut self,
        from: &str,
        label: Label<'_>,
        changed: Moment,
    ) -> Result<Option<String>, Fault> {
        let name = self.free_claim(label.dataset, changed)?;
        let claimed = octets_of(self.rt.alloc(), name.as_str())?;
        let claim = match label.own {
            Some(own) => with_own_name(self.rt.alloc(), name.as_str(), own)?,
            None => name,
        };
        let to = path_in(self.rt, self.subfolders.taken.path(), claim.as_str())?;
        match fs::rename(self.rt, from, to.as_str()) {
            Ok(()) => {}
            Err(error) if error.kind() == ErrorKind::NotFound => return Ok(None),
            Err(error) => return Err(file_fault(&error)),
        }
        let given = octets_of(self.rt.alloc(), claim.as_str())?;
        self.given.insert(given, true)?;
        self.claimed.insert(claimed, true)?;
        Ok(Some(claim))
    }

    /// The name under which a file is taken. It has the time of the file's last change, or a later one. That is the first that no file with this
    /// name to the partner has in the register, taken or refused.
    fn free_claim(&self, name: &str, changed: Moment) -> Result<String, Fault> {
        let mut moment = changed;
        for _ in 0..MOST_MOMENTS {
            if let Some(claim) = self.claim_at(name, moment)? {
                return Ok(claim);
            }
            moment = moment.next();
        }
        Err(Fault::File)
    }

    /// Submits a taken file, unless an earlier call did, moves it away and writes its line. Returns whether the register has it, and the file is
    /// moved away. One that can't be read or moved now stays where it is for the next call.
    pub(super) fn hand_in(&mut self, claim: String, out: &mut impl Write) -> Result<bool, Fault> {
        let dataset = dataset_of(self.rt.alloc(), claim.as_str())?;
        let name = dataset.as_str();
        self.show(name);
        let finished = self.finished(claim);
        self.gauge.take_back();
        match finished {
            Ok(Handed::Under(no)) => {
                write_line(out, &Carried::Offered { no, name })?;
                Ok(true)
            }
            Ok(Handed::Refused(why)) => {
                write_line(out, &Carried::Left { why, name })?;
                Ok(false)
            }
            Err(fault) => {
                tell_left(fault, name, out)?;
                Ok(false)
            }
        }
    }

    /// Submits a taken file, unless an earlier call did, and moves it away.
    fn finished(&mut self, claim: String) -> Result<Handed, Fault> {
        self.clear_line(claim.as_str())?;
        let (claim, handed) = match self.read(claim.as_str())? {
            Some(content) => self.settled(claim, content.as_slice())?,
            None => (claim, Handed::Refused(UNREAD)),
        };
        self.put_away(claim.as_str(), &handed)?;
        Ok(handed)
    }

    /// Reads a taken file, once its content is durable: the next call compares what is here with what the register has. Whatever error its open or
    /// its reading has may pass, so the file isn't refused for it. Returns `None` if it is no regular file.
    fn read(&self, claim: &str) -> Result<Option<Vec<u8>>, Fault> {
        let path = path_in(self.rt, self.subfolders.taken.path(), claim)?;
        match open_regular(self.rt, path.as_str())? {
            Some(file) => {
                keep(&file)?;
                let submit = self.submission_of(claim)?;
                let content = content_of(self.rt, &submit, &file)?;
                Ok(Some(content))
            }
            None => Ok(None),
        }
    }

    /// Submits a file, unless an earlier call did. Where its date and time are another file's, it gets the next free ones. Returns its name in
    /// `taken`, and the result.
    fn settled(&mut self, claim: String, content: &[u8]) -> Result<(String, Handed), Fault> {
        let mut claim = claim;
        for _ in 0..MOST_MOMENTS {
            match step_of(
                self.taker_of(claim.as_str()),
                self.held(claim.as_str(), content)?,
            ) {
                Step::HandedIn(no) => return Ok((claim, Handed::Under(no))),
                Step::TakeNextStamp => claim = self.moved_on(claim.as_str())?,
                Step::HandIn => match self.submit(claim.as_str(), content)? {
                    Tried::Under(no) => return Ok((claim, Handed::Under(no))),
                    Tried::Refused(refusal) => {
                        return Ok((claim, Handed::Refused(Why::Refused(refusal))));
                    }
                    Tried::Duplicate => self.look_again_for(claim.as_str())?,
                },
            }
        }
        Err(Fault::File)
    }

    /// What the register has under the name, date and time of a taken file, as far as it was looked up.
    fn held(&mut self, claim: &str, content: &[u8]) -> Result<Held, Fault> {
        let name = self.register_name(claim)?;
        let Some(no) = self.number_of(name.as_str()) else {
            return Ok(Held::Nothing);
        };
        let content = match self
            .backend
            .ask(&Request::Holds { no, content }, &mut io::sink())?
        {
            Ending::Same => Content::Same,
            Ending::Other => Content::Other,
            _ => return Err(GONE),
        };
        Ok(Held::File(no, content))
    }

    /// Looks up the file that was found to be there when this one was submitted.
    fn look_again_for(&mut self, claim: &str) -> Result<(), Fault> {
        self.look_again()?;
        let name = self.register_name(claim)?;
        match self.number_of(name.as_str()) {
            Some(_) => Ok(()),
            None => Err(GONE),
        }
    }

    /// Gives a taken file the next free date and time. They are durable before the file is submitted under them.
    fn moved_on(&mut self, claim: &str) -> Result<String, Fault> {
        let from = path_in(self.rt, self.subfolders.taken.path(), claim)?;
        let about = fs::symlink_metadata(self.rt, from.as_str()).map_err(|error| file_fault(
            &error,
        ))?;
        let name = self.register_name(claim)?;
        let label = Label {
            dataset: stamps_of(claim).dataset,
            own: own_name_in(claim, name.as_str()),
        };
        match self.take(from.as_str(), label, Moment::of(&about))? {
            Some(claim) => {
                self.subfolders.taken.keep()?;
                Ok(claim)
            }
            None => Err(Fault::File),
        }
    }

    /// Submits a file.
    fn submit(&mut self, claim: &str, content: &[u8]) -> Result<Tried, Fault> {
        let submit = self.submission_of(claim)?;
        let stamps = stamps_of(claim);
        let call = Operator::Submit(Submission {
            dataset: stamps.dataset,
            date: stamps.date,
            time: stamps.time,
            to: submit.to,
            format: submit.format,
            longest: submit.longest,
            description: submit.description,
            content,
        });
        let book = self.book;
        let ending = self
            .backend
            .ask(&Request::Operate { book, call }, &mut io::sink())?;
        match number_in(ending)? {
            Ok(no) => Ok(Tried::Under(no)),
            Err(Refusal::Duplicate) => Ok(Tried::Duplicate),
            Err(refusal) => Ok(Tried::Refused(refusal)),
        }
    }

    /// The submission of a taken file. Its content is read by its descriptor, so it names no file.
    fn submission_of<'c>(&self, claim: &'c str) -> Result<Submit<'c>, Fault>
    where
        'a: 'c,
    {
        let line = self.line;
        let Stamps {
            dataset,
            date,
            time,
        } = stamps_of(claim);
        let name = self.register_name(claim)?;
        Ok(Submit {
            files: line.files,
            dataset,
            date: Some(date),
            time: Some(time),
            to: line.to,
            format: line.format,
            longest: line.longest,
            description: own_name_in(claim, name.as_str()).unwrap_or(line.description),
            file: "",
        })
    }

    /// Moves a file to `sent` or `refused`.
    fn put_away(&self, claim: &str, handed: &Handed) -> Result<(), Fault> {
        match handed {
            Handed::Under(no) => self.put_to_sent(claim, *no),
            Handed::Refused(why) => self.put_to_refused(claim, *why),
        }
    }

    /// Moves a file that the register has to `sent`.
    fn put_to_sent(&self, claim: &str, no: u64) -> Result<(), Fault> {
        let name = name_of(self.rt.alloc(), stamps_of(claim), self.line.to)?;
        let name = numbered(self.rt.alloc(), no, name.as_str())?;
        let name = self.unused_name(&self.subfolders.sent, name)?;
        self.put(claim, &self.subfolders.sent, name.as_str())
    }

    /// Moves a refused file to `refused`, after its line was written there. If the file can't be moved, its line is removed.
    fn put_to_refused(&self, claim: &str, why: Why) -> Result<(), Fault> {
        let name = self.refused_name(claim)?;
        let path = path_in(self.rt, self.subfolders.refused.path(), name.as_str())?;
        write_beside(self.rt, path.as_str(), why)?;
        let moved = self.moved_to_line(claim, name.as_str());
        if moved.is_err() {
            self.clear_line(claim)?;
        }
        moved
    }

    /// Moves a taken file to `refused`, once the name of its line there is durable.
    fn moved_to_line(&self, claim: &str, name: &str) -> Result<(), Fault> {
        self.subfolders.refused.keep()?;
        self.put(claim, &self.subfolders.refused, name)
    }

    /// Removes the line that this taken file would have in `refused`. A call that was killed before it moved the file there may have left one. If
    /// it can't be removed, it stays.
    fn clear_line(&self, claim: &str) -> Result<(), Fault> {
        let name = self.refused_name(claim)?;
        let path = path_in(self.rt, self.subfolders.refused.path(), name.as_str())?;
        let line = line_path(self.rt.alloc(), path.as_str())?;
        if fs::remove_file(self.rt, line.as_str()).is_ok() {
            self.subfolders.refused.keep()?;
        }
        Ok(())
    }

    /// The name that a taken file gets in `refused` if it is refused.
    fn refused_name(&self, claim: &str) -> Result<String, Fault> {
        let name = name_of(self.rt.alloc(), stamps_of(claim), self.line.to)?;
        self.unused_name(&self.subfolders.refused, name)
    }

    /// A name in a folder that nothing has: this one, or the first of those with a number behind it, from 2 on.
    fn unused_name(&self, folder: &Room, name: String) -> Result<String, Fault> {
        if !self.is_there(folder, name.as_str())? {
            return Ok(name);
        }
        for number in 2..MOST_NAMES {
            let other = followed(self.rt.alloc(), name.as_str(), number)?;
            if !self.is_there(folder, other.as_str())? {
                return Ok(other);
            }
        }
        Err(Fault::File)
    }

    /// Moves a taken file to another folder, under a new name.
    fn put(&self, claim: &str, folder: &Room, name: &str) -> Result<(), Fault> {
        let from = path_in(self.rt, self.subfolders.taken.path(), claim)?;
        let to = path_in(self.rt, folder.path(), name)?;
        fs::rename(self.rt, from.as_str(), to.as_str()).map_err(|error| file_fault(&error))
    }
}

/// Writes the line of a file that stays where it is, if this error concerns no other one. Else returns the error.
pub(super) fn tell_left(fault: Fault, name: &str, out: &mut impl Write) -> Result<(), Fault> {
    match concern_of(fault) {
        Concern::File => write_line(out, &Carried::Left { why: UNREAD, name }),
        Concern::Command(fault) => Err(fault),
    }
}

/// Writes the line of a refused file to a file beside it.
fn write_beside(rt: &HostRuntime, path: &str, why: Why) -> Result<(), Fault> {
    let alloc = rt.alloc();
    let path = line_path(alloc, path)?;
    let line = format!(in alloc; "{why}\n")?;
    write_anew(rt, path.as_str(), line.as_bytes()).map_err(|error| file_fault(&error))
}

/// The path of the file with the line of a refused file.
fn line_path(alloc: Global, path: &str) -> Result<String, Fault> {
    Ok(format!(in alloc; "{path}{}", LINE)?)
}

/// Writes a new file in place of what is at a path, and syncs it. A link there isn't followed.
fn write_anew(rt: &HostRuntime, path: &str, octets: &[u8]) -> io::Result<()> {
    match fs::remove_file(rt, path) {
        Ok(()) => {}
        Err(error) if error.kind() == ErrorKind::NotFound => {}
        Err(error) => return Err(error),
    }
    let mut file = File::create_new(rt, path)?;
    file.write_all(octets)?;
    file.sync_all()
}

/// The dataset name, date and time in the name of a file that is taken for the partner, which has them all.
fn stamps_of<'a>(claim: &'a str) -> Stamps<'a> {
    stamps_in(claim).unwrap_or(Stamps {
        dataset: claim,
        date: "",
        time: "",
    })
}

/// The dataset name in the name of a file that is taken for the partner.
fn dataset_of(alloc: Global, claim: &str) -> Result<String, Fault> {
    Ok(String::from_str(alloc, stamps_of(claim).dataset)?)
}

/// A text as a key of a map.
fn octets_of(alloc: Global, text: &str) -> Result<Vec<u8>, Fault> {
    Ok(Vec::from_slice(alloc, text.as_bytes())?)
}
