//! The passwords of a session, which no record has.

ghost use Rattle.std.specs.Prelude.{◌≡◌, IfOk, OnOk, [], option_map};
ghost use Rattle.oftp_contents.specs.Passwords.{followed, hidden_octet, shown_octet};
ghost use Rattle.oftp_recording.specs.Passwords.{expected_of, instead, sent_of, stand_in, unheard};

use oftp_contents::{PasswordFinder, RecordSide};
use oftp_partners::Partner;
use std::alloc::{AllocError, Global};
use std::marker::Model;

/// What stands for a password where nobody knows it.
const STAND_IN: &[u8; 8] = b"XXXXXXXX";

/// The passwords of a session, and how far its octets were followed to them.
#[derive(Drop)]
pub struct SessionPasswords {
    alloc: Global,
    // What the partner sends by the book, and what the station sends.
    expected: Vec<u8>,
    sent: Vec<u8>,
    heard: PasswordFinder,
    said: PasswordFinder,
}

impl Model for SessionPasswords {
    ghost use Rattle.oftp_recording.specs.Passwords.{Guarded};

    ghost Value = { Guarded };

    ghost view = { λ p. record { expected = p.expected.items; sent = p.sent.items; heard = p.heard; said = p.said } };
}

impl SessionPasswords {
    /// Those of a session with a partner of the book, in which the station is on this side. Without a partner both are empty.
    ///
    /// # Errors
    /// Out of memory.
    pub fn of_partner(
        alloc: Global,
        side: RecordSide,
        partner: Option<&Partner>,
    ) -> Result<SessionPasswords, AllocError>
        ensures { let partner = option_map (λ p. p.now) partner.entry in IfOk result (λ passwords. passwords ≡ unheard side (expected_of partner) (sent_of partner)) }
    {
        match partner {
            Some(partner) => SessionPasswords::new(
                alloc,
                side,
                partner.expects.field().octets(),
                partner.sends.field().octets(),
            ),
            None => SessionPasswords::new(alloc, side, &[], &[]),
        }
    }

    /// Those of a session that is only read: each character that a record doesn't have is X.
    ///
    /// # Errors
    /// Out of memory.
    pub fn stand_in(alloc: Global, side: RecordSide) -> Result<SessionPasswords, AllocError>
        ensures { IfOk result (λ passwords. passwords ≡ unheard side stand_in stand_in) }
    {
        let password = STAND_IN.as_slice();
        SessionPasswords::new(alloc, side, password, password)
    }

    /// These, of a session that has heard and said nothing.
    fn new(
        alloc: Global,
        side: RecordSide,
        expected: &[u8],
        sent: &[u8],
    ) -> Result<SessionPasswords, AllocError>
        ensures { IfOk result (λ passwords. passwords ≡ unheard side expected.now sent.now) }
    {
        Ok(SessionPasswords {
            alloc,
            expected: Vec::from_slice(alloc, expected)?,
            sent: Vec::from_slice(alloc, sent)?,
            heard: PasswordFinder::heard(side),
            said: PasswordFinder::said(),
        })
    }

    /// What the session hears next, as it is recorded. `None` if these octets are recorded as they are.
    ///
    /// # Errors
    /// Out of memory.
    pub fn hide_heard(&mut self, octets: &[u8]) -> Result<Option<Vec<u8>>, AllocError>
        ensures octets { IfOk result (λ other. followed hidden_octet self.old.expected self.old.heard [] octets.now ≡ record { finder = self.new.heard; octets = instead other octets.now }) }
        ensures others { OnOk result (self.new ≡ record self.old { heard = self.new.heard }) }
    {
        hidden(
            self.alloc,
            &mut self.heard,
            self.expected.as_slice(),
            octets,
        )
    }

    /// What the session says next, as it is recorded. `None` if these octets are recorded as they are.
    ///
    /// # Errors
    /// Out of memory.
    pub fn hide_said(&mut self, octets: &[u8]) -> Result<Option<Vec<u8>>, AllocError>
        ensures octets { IfOk result (λ other. followed hidden_octet self.old.sent self.old.said [] octets.now ≡ record { finder = self.new.said; octets = instead other octets.now }) }
        ensures others { OnOk result (self.new ≡ record self.old { said = self.new.said }) }
    {
        hidden(self.alloc, &mut self.said, self.sent.as_slice(), octets)
    }

    /// What the session heard next, by its record. `None` if it has these octets as they are.
    ///
    /// # Errors
    /// Out of memory.
    pub fn show_heard(&mut self, octets: &[u8]) -> Result<Option<Vec<u8>>, AllocError>
        ensures octets { IfOk result (λ other. followed shown_octet self.old.expected self.old.heard [] octets.now ≡ record { finder = self.new.heard; octets = instead other octets.now }) }
        ensures others { OnOk result (self.new ≡ record self.old { heard = self.new.heard }) }
    {
        shown(
            self.alloc,
            &mut self.heard,
            self.expected.as_slice(),
            octets,
        )
    }

    /// What the session said next, by its record. `None` if it has these octets as they are.
    ///
    /// # Errors
    /// Out of memory.
    pub fn show_said(&mut self, octets: &[u8]) -> Result<Option<Vec<u8>>, AllocError>
        ensures octets { IfOk result (λ other. followed shown_octet self.old.sent self.old.said [] octets.now ≡ record { finder = self.new.said; octets = instead other octets.now }) }
        ensures others { OnOk result (self.new ≡ record self.old { said = self.new.said }) }
    {
        shown(self.alloc, &mut self.said, self.sent.as_slice(), octets)
    }
}

/// Octets as they are recorded, unless that is as they are.
fn hidden(
    alloc: Global,
    finder: &mut PasswordFinder,
    password: &[u8],
    octets: &[u8],
) -> Result<Option<Vec<u8>>, AllocError>
    ensures { IfOk result (λ other. followed hidden_octet password.now finder.old [] octets.now ≡ record { finder = finder.new; octets = instead other octets.now }) }
{
    if finder.is_over() {
        return Ok(None);
    }
    let mut hidden = Vec::new(alloc);
    finder.hide(password, octets, &mut hidden)?;
    Ok(Some(hidden))
}

/// Recorded octets as they are played, unless that is as they are.
fn shown(
    alloc: Global,
    finder: &mut PasswordFinder,
    password: &[u8],
    octets: &[u8],
) -> Result<Option<Vec<u8>>, AllocError>
    ensures { IfOk result (λ other. followed shown_octet password.now finder.old [] octets.now ≡ record { finder = finder.new; octets = instead other octets.now }) }
{
    if finder.is_over() {
        return Ok(None);
    }
    let mut shown = Vec::new(alloc);
    finder.show(password, octets, &mut shown)?;
    Ok(Some(shown))
}

/// Octets, in the place of which others may be there.
pub fn instead<'o>(other: &'o Option<Vec<u8>>, octets: &'o [u8]) -> &'o [u8]
    ensures { result.now ≡ instead other.entry.now octets.entry.now }
{
    match other {
        Some(other) => other.as_slice(),
        None => octets,
    }
}
