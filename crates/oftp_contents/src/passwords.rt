//! The password of an SSID (RFC 5024, section 5.3.2) in what a session hears or says: hidden where that is recorded, and put back where it is played.
//!
//! A record has `*` for each character that is the one of the book, `?` for another one that a password may have, and `!` for any other octet. Spaces
//! stay, so that the length is seen. None of the three is allowed in a password, so a record of another program may have the password itself.

ghost use Rattle.std.specs.Prelude.{◌≡◌, IsTrue, OnOk};
ghost use Rattle.oftp_contents.specs.Passwords.{LeavesOctets, followed, heard_order, hidden_octet, octets_before, own_octet, passed_by, shown_octet, unfollowed};
ghost use Rattle.oftp_contents.specs.declared.passwords.SsidOrder.TheVariants.{First};

use crate::codes::RecordSide;
use oftp_wire::is_allowed;
use std::alloc::AllocError;

/// The octets of an exchange buffer with SSRM: its header, and the command (sections 5.3.1 and 8).
const SSRM_LEN: u8 = 23;

/// Where the letter of a command stands in an exchange buffer, behind the header (section 8).
const LETTER_AT: u8 = 4;

/// The letter of SSID (section 5.3.2).
const SSID: u8 = b'X';

/// Where the password of an SSID begins in its exchange buffer, and where it ends.
const PASSWORD_AT: u8 = 31;

const PASSWORD_END: u8 = 39;

/// What comes before the SSID in what one side of a session says, as a record has it.
#[derive(Clone, Copy, Debug, PartialEq, Eq, Drop)]
pub enum SsidOrder {
    /// Nothing.
    First,
    /// SSRM.
    BehindSsrm,
}

impl SsidOrder {
    // How many octets that is.
    fn octets_before(self) -> u8
        ensures { result ≡ octets_before self }
    {
        match self {
            SsidOrder::First => 0,
            SsidOrder::BehindSsrm => SSRM_LEN,
        }
    }
}

/// How far the octets of one side of a session were followed, up to the password of its SSID.
#[derive(Clone, Copy, Debug, PartialEq, Eq, Drop)]
pub struct PasswordFinder {
    order: SsidOrder,
    // How many octets were followed, up to the end of the password.
    passed: u8,
    // Whether the command is an SSID, once its letter was followed.
    is_ssid: bool,
}

impl PasswordFinder {
    /// For what a session hears, in which the station is on this side.
    pub fn heard(side: RecordSide) -> PasswordFinder
        ensures { result ≡ unfollowed (heard_order side) }
    {
        let order = match side {
            RecordSide::Initiator => SsidOrder::BehindSsrm,
            RecordSide::Responder => SsidOrder::First,
        };
        PasswordFinder {
            order,
            passed: 0,
            is_ssid: false,
        }
    }

    /// For what a session says, as a record has it.
    pub fn said() -> PasswordFinder
        ensures { result ≡ unfollowed First }
    {
        PasswordFinder {
            order: SsidOrder::First,
            passed: 0,
            is_ssid: false,
        }
    }

    /// Whether the place of the password is passed, so that octets are recorded and played as they are.
    pub fn is_over(&self) -> bool
        ensures hidden { IsTrue result → LeavesOctets hidden_octet self.now }
        ensures shown { IsTrue result → LeavesOctets shown_octet self.now }
    {
        self.passed >= self.order.octets_before() + PASSWORD_END
    }

    // The octet of a password that belongs where the next octet is, if a password is there. Behind its characters there are spaces.
    #[tactic(auto, unfolding(crate::specs::Passwords::own_octet))]
    fn own_octet(&self, password: &[u8]) -> Option<u8>
        ensures { result ≡ own_octet password.now self.now }
    {
        let begin = self.order.octets_before() + PASSWORD_AT;
        let end = self.order.octets_before() + PASSWORD_END;
        if !self.is_ssid || self.passed < begin || self.passed >= end {
            return None;
        }
        match password.get(usize::from(self.passed - begin)) {
            Some(own) => Some(*own),
            None => Some(b' '),
        }
    }

    // Follows an octet.
    #[tactic(auto, unfolding(crate::specs::Passwords::passed_by))]
    fn pass(&mut self, octet: u8)
        ensures { self.new ≡ passed_by self.old octet }
    {
        let before = self.order.octets_before();
        if self.passed == before + LETTER_AT {
            self.is_ssid = octet == SSID;
        }
        if self.passed < before + PASSWORD_END {
            self.passed += 1;
        }
    }

    /// Appends octets as they are recorded. `password` is the one that belongs into the SSID, without spaces behind it.
    ///
    /// # Errors
    /// Out of memory. Some of them may have been appended.
    pub fn hide(
        &mut self,
        password: &[u8],
        octets: &[u8],
        to: &mut Vec<u8>,
    ) -> Result<(), AllocError>
        ensures hidden { OnOk result (followed hidden_octet password.now self.old to.old.items octets.now ≡ record { finder = self.new; octets = to.new.items }) }
    {
        for octet in octets {
            to.push(hidden_octet(self.own_octet(password), *octet))?;
            self.pass(*octet);
        }
        Ok(())
    }

    /// Appends recorded octets as they are played. `password` is the one that belongs into the SSID, without spaces behind it.
    ///
    /// # Errors
    /// Out of memory. Some of them may have been appended.
    pub fn show(
        &mut self,
        password: &[u8],
        octets: &[u8],
        to: &mut Vec<u8>,
    ) -> Result<(), AllocError>
        ensures shown { OnOk result (followed shown_octet password.now self.old to.old.items octets.now ≡ record { finder = self.new; octets = to.new.items }) }
    {
        for octet in octets {
            to.push(shown_octet(self.own_octet(password), *octet))?;
            self.pass(*octet);
        }
        Ok(())
    }
}

// An octet as it is recorded. `own` is the one that belongs there, if it is one of a password.
#[tactic(auto, unfolding(crate::specs::Passwords::hidden_octet))]
fn hidden_octet(own: Option<u8>, octet: u8) -> u8
    ensures { result ≡ hidden_octet own octet }
{
    match own {
        None => octet,
        Some(_) if octet == b' ' => octet,
        Some(own) if octet == own => b'*',
        Some(_) if is_allowed(octet) => b'?',
        Some(_) => b'!',
    }
}

// An octet as it is played.
#[tactic(auto, unfolding(crate::specs::Passwords::shown_octet))]
fn shown_octet(own: Option<u8>, octet: u8) -> u8
    ensures { result ≡ shown_octet own octet }
{
    match (own, octet) {
        (Some(own), b'*') => own,
        (Some(b'A'), b'?') => b'B',
        (Some(_), b'?') => b'A',
        _ => octet,
    }
}
