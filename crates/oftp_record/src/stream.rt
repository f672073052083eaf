//! Reading a record whose octets come in pieces.

ghost use Rattle.std.specs.Prelude.{◌≡◌, ◌++◌, [], OnErr, OnOk, length};
ghost use Rattle.oftp_record.specs.Entries.{no_digest};
ghost use Rattle.oftp_record.specs.Next.{IsNext};
ghost use Rattle.oftp_record.specs.Streams.{LooksOn, Streamed, shown_look};

use crate::ahead::ReadAhead;
use crate::chain::{ChainDigest, DIGEST_LEN};
use crate::eight_read::PassedEntry;
use crate::header::HEADER_LEN;
use crate::next::{Alteration, NextEntry};
use std::alloc::{AllocError, Global};
use std::marker::Model;

/// What stands behind the entry that was told last, as far as octets came.
#[derive(Clone, Copy, Debug, Drop)]
pub enum Look {
    /// The next entry. It is told now.
    Entry(PassedEntry),
    /// No octets.
    End,
    /// An entry of which octets are lacking: so many, unless it is cut off in its header.
    Cut(Option<usize>),
    /// No entry as it was written behind the one before.
    Changed(Alteration),
}

/// A record that is read from its beginning, entry after entry. Its octets come in pieces, and are kept until they are forgotten.
#[derive(Drop)]
pub struct RecordStream {
    octets: Vec<u8>,
    // Where the octets begin that weren't told, and how many there are of the content of the entry before.
    at: usize,
    begin: usize,
    end: usize,
    // Entries there that were read already.
    ahead: ReadAhead,
    digest: ChainDigest,
}

impl Model for RecordStream {
    ghost use Rattle.std.specs.Prelude.{◌-◌, take, drop};
    ghost use Rattle.oftp_record.specs.Ahead.{ahead_in};
    ghost use Rattle.oftp_record.specs.Streams.{IsStreamed, Streamed};

    ghost Value = { Streamed };

    ghost view = { λ s. record {
      digest = s.digest.0;
      content = take (s.end - s.begin) (drop s.begin s.octets.items);
      rest = drop s.at s.octets.items;
    } };

    ghost invariant = { λ s. IsStreamed s.octets.items s.begin s.end s.at s.digest.0 (ahead_in s.ahead) };
}

impl RecordStream {
    /// A record of which no octet came.
    pub fn new(alloc: Global) -> RecordStream
        ensures { result ≡ record { digest = no_digest; content = []; rest = [] } }
    {
        RecordStream {
            octets: Vec::new(alloc),
            at: 0,
            begin: 0,
            end: 0,
            ahead: ReadAhead::new(),
            digest: ChainDigest::first(),
        }
    }

    /// Takes the octets that come next.
    ///
    /// # Errors
    ///
    /// Out of memory. The record is as it was.
    pub fn add(&mut self, piece: &[u8]) -> Result<(), AllocError>
        ensures added { OnOk result (self.new ≡ record { digest = self.old.digest; content = self.old.content; rest = self.old.rest ++ piece.now }) }
        ensures err { OnErr result (self.new ≡ self.old) }
    {
        self.octets.extend_from_slice(piece)?;
        Ok(())
    }

    /// What stands behind the entry that was told last. If that is a whole entry, it is told now, and the next look is behind it. It takes no memory.
    pub fn look(&mut self) -> Look
        ensures told { IsNext self.old.digest self.old.rest (shown_look self.old.rest result) }
        ensures stands { LooksOn self.old self.new result }
    {
        let rest = &self.octets[self.at..];
        match self.ahead.next(rest, &self.digest) {
            NextEntry::Whole(stored) => {
                let passed = PassedEntry {
                    kind: stored.entry.kind,
                    moment: stored.entry.moment,
                    length: stored.length,
                    digest: stored.digest,
                };
                self.begin = self.at + HEADER_LEN;
                self.at += passed.length;
                self.end = self.at - DIGEST_LEN;
                self.digest = passed.digest;
                Look::Entry(passed)
            }
            NextEntry::End => Look::End,
            NextEntry::Cut(lacking) => Look::Cut(lacking),
            NextEntry::Changed(sign) => Look::Changed(sign),
        }
    }

    /// Forgets the octets of the entries that were told, and the content of the last one.
    pub fn forget(&mut self)
        ensures { self.new ≡ record { digest = self.old.digest; content = []; rest = self.old.rest } }
    {
        let len = self.left();
        self.octets.copy_within(self.at.., 0);
        self.octets.truncate(len);
        self.at = 0;
        self.begin = 0;
        self.end = 0;
    }

    /// The content of the entry that was told last; nothing before the first one.
    pub fn content(&self) -> &[u8]
        ensures { result.now ≡ self.now.content }
    {
        &self.octets[self.begin..self.end]
    }

    /// The digest of the entry that was told last, or what takes its place before the first one.
    pub fn digest(&self) -> [u8; DIGEST_LEN]
        ensures { result ≡ self.now.digest }
    {
        self.digest.0
    }

    /// How many octets there are behind it.
    pub fn left(&self) -> usize
        ensures { result ≡ length self.now.rest }
    {
        self.octets.len() - self.at
    }
}
