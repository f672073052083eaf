//! The counters of a station: how often something was noted, and when first and last.

ghost use Rattle.std.specs.Prelude.{◌≡◌, [], OnOk, OnErr, map};
ghost use Rattle.std.specs.List.{list_any};
ghost use Rattle.oftp_status.specs.Subjects.{same_subject};
ghost use Rattle.oftp_status.specs.Tallies.{again, counted, fresh, noted};

use crate::subject::Subject;
use std::alloc::{AllocError, Global};
use std::marker::Model;

/// How often something was noted. Times are seconds since 1970.
#[derive(Drop)]
pub struct Tally {
    /// What is counted.
    pub subject: Subject,
    /// How often.
    pub count: u64,
    /// The earliest time of these.
    pub first: u64,
    /// The latest.
    pub last: u64,
}

impl Tally {
    // One that was noted once.
    fn new(subject: Subject, at: u64) -> Tally
        ensures { result ≡ fresh subject at }
    {
        Tally {
            subject,
            count: 1,
            first: at,
            last: at,
        }
    }

    // Counts once more. The greatest count stays.
    fn add(&mut self, at: u64)
        ensures { self.new ≡ again self.old at }
    {
        self.count = self.count.saturating_add(1);
        self.first = self.first.min(at);
        self.last = self.last.max(at);
    }
}

impl Tally {
    // Counts once more if it is of a subject.
    fn add_if(&mut self, subject: &Subject, at: u64)
        ensures { self.new ≡ counted subject.now at self.old }
    {
        if self.subject.is(subject) {
            self.add(at);
        }
    }
}

/// The counters of a station. Each subject is counted from its first event on.
#[derive(Drop)]
pub struct Tallies {
    list: Vec<Tally>,
}

impl Model for Tallies {
    ghost use Rattle.std.specs.Prelude.{List};
    ghost use Rattle.oftp_status.specs.declared.tally.Tally.{Tally};

    ghost Value = { List Tally };

    ghost view = { λ t. t.list.items };
}

impl Tallies {
    /// Counters that counted nothing.
    pub fn new(alloc: Global) -> Tallies
        ensures { result ≡ [] }
    {
        Tallies {
            list: Vec::new(alloc),
        }
    }

    /// All of them, in the order of their first events.
    pub fn list(&self) -> &[Tally]
        ensures { result.now ≡ self.now }
    {
        self.list.as_slice()
    }

    // Whether there is a counter of a subject.
    fn has(&self, subject: &Subject) -> bool
        ensures { result ≡ list_any (λ tally. same_subject tally.subject subject.now) self.now }
    {
        self.list.iter().any(|tally| tally.subject.is(subject))
    }

    /// Counts an event of a subject at a time.
    ///
    /// # Errors
    ///
    /// Out of memory. Nothing is counted then.
    pub fn note(&mut self, subject: Subject, at: u64) -> Result<(), AllocError>
        ensures noted { OnOk result (self.new ≡ noted self.old subject at) }
        ensures err { OnErr result (self.new ≡ self.old) }
    {
        if self.has(&subject) {
            add_each(self.list.as_mut_slice(), &subject, at);
            Ok(())
        } else {
            self.list.push(Tally::new(subject, at))?;
            Ok(())
        }
    }
}

// Counts once more in each counter of a subject.
#[tactic(auto, using(std::proofs::lemmas::List::Edits::map_over_more))]
fn add_each(tallies: &mut [Tally], subject: &Subject, at: u64)
    ensures { tallies.new ≡ map (counted subject.now at) tallies.old }
{
    for tally in tallies.iter_mut() {
        tally.add_if(subject, at);
    }
}
