//! How the station stands: what is counted of its sessions and backups, and the replies over HTTP that tell it.

use crate::home::Home;
use crate::peer::{Peer, Reading};
use crate::service::{Shell, peer_in};
use oftp_channel::Form;
use oftp_command_line::VERSION;
use oftp_engine::RunFault;
use oftp_life::Life;
use oftp_listing::OfficeState;
use oftp_outcomes::{self as outcomes, Fault};
use oftp_register::Office;
use oftp_requests::{
    Counting, Made, Pace, Sought, Whose, counted_as, files_in, office_within, stopping,
};
use oftp_sockets::Keeper;
use oftp_status::{
    Going, Limits, Media, Overdue, Partner, Picture, Subject, Tally, Terms, Way, metrics,
    reply_with, status_json, status_lines, verdict_on,
};
use oftp_waiting::share_of;
use std::alloc::{AllocError, Global};
use std::fs;
use std::time::{SystemTime, UNIX_EPOCH};

/// The milliseconds of a second.
const MILLIS: u64 = 1_000;

/// The seconds since 1970, 0 if the clock can't be read.
pub(crate) fn moment(rt: &HostRuntime) -> u64 {
    let Ok(now) = SystemTime::now(rt) else {
        return 0;
    };
    match now.duration_since(UNIX_EPOCH) {
        Ok(passed) => passed.as_secs(),
        Err(_) => 0,
    }
}

/// The number in the line of the program's version.
fn version() -> &'static str {
    let (_, number) = VERSION.split_once(' ').unwrap_or(("", VERSION));
    match number.split_once(',') {
        Some((number, _)) => number,
        None => number,
    }
}

impl Shell<'_> {
    /// Counts how a session ended, a caller that wasn't let in, or a call that didn't connect. What there is no memory for isn't counted.
    pub(crate) fn count_end(&mut self, id: u64) {
        let alloc = self.rt.alloc();
        let now = moment(self.rt);
        if let Some(peer) = peer_in(&mut self.peers, id)
            && let Some(subject) = peer.subject(alloc)
        {
            let _ = self.counters.note(subject, now);
        }
    }

    /// Counts a backup, if a command copied the database's files.
    pub(crate) fn count_backup(&mut self, id: u64) {
        let now = moment(self.rt);
        if let Some(peer) = peer_in(&mut self.peers, id)
            && peer.has_copied()
        {
            let _ = self.counters.note(Subject::Backup, now);
        }
    }

    /// Counts the events that couldn't be written since they were counted last.
    fn count_lost(&mut self) {
        let lost = match self.config.events {
            Some(events) => events.lost(),
            None => 0,
        };
        let now = moment(self.rt);
        for _ in self.lost..lost {
            let _ = self.counters.note(Subject::EventLost, now);
        }
        self.lost = lost;
    }

    /// The answer to a request for how the station stands.
    pub(crate) fn made_of_station<O: Office + Drop>(
        &mut self,
        id: u64,
        sought: Sought,
        home: &mut Home<'_, O>,
        keeper: &mut impl Keeper<Life<O>>,
    ) -> Made {
        let rt = self.rt;
        let alloc = rt.alloc();
        if let Err(trouble) = home.open(rt, keeper)
            && let Some(peer) = peer_in(&mut self.peers, id)
        {
            peer.note(Err(trouble));
        }
        self.count_lost();
        let told = self.told(alloc, sought, home);
        match (sought, told) {
            (Sought::Told(_) | Sought::Verdict(_), told) => {
                let mut made = Made::told(alloc, told);
                made.office = office_within(keeper.term(), made.office);
                made
            }
            (_, Ok(octets)) => Made::replied(octets, OfficeState::Working),
            (_, Err(Fault::Run(RunFault::Office))) => Made::replied(
                stopping(alloc),
                office_within(keeper.term(), OfficeState::Failed),
            ),
            (_, Err(_)) => Made::nothing(alloc),
        }
    }

    /// What is told to such a request, of a life that is here.
    fn told<O: Office + Drop>(
        &self,
        alloc: Global,
        sought: Sought,
        home: &mut Home<'_, O>,
    ) -> Result<Vec<u8>, Fault> {
        let files = match home {
            Home::Idle(life) => files_in(alloc, life)?,
            Home::Talking(session) => files_in(alloc, session)?,
            Home::Away => return Err(Fault::MEMORY),
        };
        let going = match home {
            Home::Talking(_) => self.going(),
            Home::Idle(_) | Home::Away => None,
        };
        let partners = self.partners(alloc)?;
        let picture = self.picture(partners.as_slice(), files.list(), going);
        Ok(self.text_of(alloc, sought, &picture)?)
    }

    /// What a picture tells to such a request.
    fn text_of(
        &self,
        alloc: Global,
        sought: Sought,
        picture: &Picture<'_>,
    ) -> Result<Vec<u8>, AllocError> {
        match sought {
            Sought::Status => {
                let text = status_json(alloc, picture)?;
                reply_with(alloc, Media::Json, text.as_slice())
            }
            Sought::Metrics => {
                let text = metrics(alloc, picture)?;
                reply_with(alloc, Media::Metrics, text.as_slice())
            }
            // These aren't of a picture.
            Sought::Events => Ok(Vec::new(alloc)),
            Sought::Told(Form::Json) => status_json(alloc, picture),
            Sought::Told(Form::Lines) => status_lines(alloc, picture),
            Sought::Verdict(limits) => self.verdict(alloc, picture, limits),
        }
    }

    /// The line of the verdict on a picture.
    fn verdict(
        &self,
        alloc: Global,
        picture: &Picture<'_>,
        limits: Limits,
    ) -> Result<Vec<u8>, AllocError> {
        let mut overdues = Vec::with_capacity(alloc, self.config.limits.len())?;
        for limit in self.config.limits {
            overdues.push(Overdue {
                code: limit.code.as_str(),
                seconds: limit.seconds,
            })?;
        }
        let overdues = overdues.as_slice();
        let verdict = verdict_on(alloc, picture, Terms { limits, overdues })?;
        let mut line = verdict.line;
        line.push(b'\n')?;
        Ok(line)
    }

    /// The partners of the book.
    fn partners(&self, alloc: Global) -> Result<Vec<Partner<'_>>, AllocError> {
        let mut partners = Vec::with_capacity(alloc, self.config.codes.len())?;
        for (code, pace) in self.config.codes.iter().zip(self.paces.iter()) {
            partners.push(Partner {
                code: code.as_str(),
                next_call: self.next_call(*pace),
            })?;
        }
        Ok(partners)
    }

    /// When the clock calls a partner next, if it does.
    fn next_call(&self, pace: Pace) -> Option<u64> {
        if self.config.interval == 0 {
            return None;
        }
        let review = self.reviewed.saturating_add(self.config.interval);
        let ripe = self.since.saturating_add(pace.ripe_at() / MILLIS);
        Some(review.max(ripe))
    }

    /// The station at this moment.
    fn picture<'p>(
        &'p self,
        partners: &'p [Partner<'p>],
        files: &'p [Tally],
        going: Option<Going<'p>>,
    ) -> Picture<'p> {
        Picture {
            version: version(),
            moment: moment(self.rt),
            since: self.since,
            database: self.config.database,
            octets: self.octets_of_database(),
            going,
            partners,
            counters: self.counters.list(),
            files,
        }
    }

    /// The size of the database's file, 0 if it can't be told.
    fn octets_of_database(&self) -> u64 {
        match fs::metadata(self.rt, self.config.database) {
            Ok(about) => about.len(),
            Err(_) => 0,
        }
    }

    /// The partner with whom a session is going on.
    fn going(&self) -> Option<Going<'_>> {
        let peer = self.peers.iter().find(|peer| {
            peer.reading == Reading::Session || peer.reading == Reading::Sending
        })?;
        let code = peer.code.as_ref()?;
        let (dataset, share) = peer.under_way();
        Some(Going {
            partner: code.as_str(),
            way: way_of(peer.way()),
            dataset,
            share,
        })
    }
}

impl Peer<'_> {
    /// The dataset name of the file on its way in its session, and how many of a hundred parts came or went. They are known where events are
    /// written; else the name is empty.
    pub(crate) fn under_way(&self) -> (&str, u64) {
        let Some(diary) = &self.diary else {
            return ("", 0);
        };
        match diary.under_way() {
            Some(file) => (file.dataset.as_str(), share_of(file.octets, file.blocks)),
            None => ("", 0),
        }
    }

    /// Whether it is a command that has copied the database's files, and still waits for its answer. A copy that failed doesn't.
    fn has_copied(&self) -> bool {
        self.reading == Reading::Copy && !self.readiness.is_gone
    }

    /// What its end is counted as. `None` if it has none, or there is no memory for that.
    fn subject(&self, alloc: Global) -> Option<Subject> {
        let ended = self.ended?;
        let whose = match &self.code {
            Some(_) => Whose::Partner,
            None => Whose::Stranger,
        };
        match counted_as(whose, self.way(), &ended) {
            Counting::NotLetIn(reason) => Some(Subject::NotLetIn { reason }),
            Counting::NotReached => Some(Subject::NotReached {
                partner: self.partner(alloc)?,
            }),
            Counting::Session(end) => Some(Subject::Session {
                partner: self.partner(alloc)?,
                way: way_of(self.way()),
                end,
            }),
        }
    }

    /// A copy of the partner's code.
    fn partner(&self, alloc: Global) -> Option<String> {
        String::from_str(alloc, self.code.as_ref()?.as_str()).ok()
    }
}

/// The way of a session that this side called.
fn way_of(way: outcomes::Way) -> Way {
    match way {
        outcomes::Way::In => Way::In,
        outcomes::Way::Out => Way::Out,
    }
}
