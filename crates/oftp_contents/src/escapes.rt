//! The spelling of a character by its number in the text of a book, as `\u0041`, and what a record has in the place of a string's characters.

ghost use Rattle.std.specs.Prelude.{◌≡◌, IfOk, OnOk, []};
ghost use Rattle.oftp_contents.specs.Escapes.{begun_by, digit_step, escape_step, hex_value, hidden_all, hidden_octet, hidden_string, letter_step, next_hidden, with_digit, with_spelled};

use oftp_wire::is_allowed;
use std::alloc::{AllocError, Global};
use std::marker::Model;

/// The digits of a spelling that are left, and the number of those that were read. 255 stands for each greater number too.
#[derive(Clone, Copy, Debug, PartialEq, Eq, Drop)]
pub(crate) struct EscapeDigits {
    pub(crate) left: u8,
    pub(crate) value: u8,
}

/// How far the spelling of a character by its number is read: `\x41`, `\u0041` or `\U00000041`.
#[derive(Clone, Copy, Debug, PartialEq, Eq, Drop)]
pub(crate) enum Escape {
    /// None was begun.
    Outside,
    /// Its backslash was read.
    Backslash,
    /// Its letter too, and maybe digits.
    Digits(EscapeDigits),
}

/// What an octet is to the spelling that was read.
#[derive(Clone, Copy, Debug, PartialEq, Eq, Drop)]
pub(crate) enum EscapeStep {
    /// It is a character of its own, and so is each octet that was read of a spelling.
    Plain,
    /// One begins with it. Each octet that was read of another one is a character of its own.
    Begins,
    /// It goes on.
    Goes(Escape),
    /// It is whole, and spells this character.
    Spells(u8),
}

impl Escape {
    /// What the next octet is.
    pub(crate) fn step(&self, octet: u8) -> EscapeStep
        ensures { result ≡ escape_step self.now octet }
    {
        match *self {
            Escape::Outside => begun_by(octet),
            Escape::Backslash => letter_step(octet),
            Escape::Digits(digits) => digits.step(octet),
        }
    }
}

impl EscapeDigits {
    // What the next octet is, behind these digits.
    #[tactic(auto, unfolding(crate::specs::Escapes::digit_step))]
    fn step(&self, octet: u8) -> EscapeStep
        ensures { result ≡ digit_step self.now octet }
    {
        let Some(digit) = hex_value(octet) else {
            return begun_by(octet);
        };
        let value = with_digit(self.value, digit);
        if self.left <= 1 {
            return EscapeStep::Spells(value);
        }
        EscapeStep::Goes(Escape::Digits(EscapeDigits {
            left: self.left - 1,
            value,
        }))
    }
}

// What an octet is where no spelling goes on.
fn begun_by(octet: u8) -> EscapeStep
    ensures { result ≡ begun_by octet }
{
    if octet == b'\\' {
        EscapeStep::Begins
    } else {
        EscapeStep::Plain
    }
}

// What an octet is behind a backslash.
fn letter_step(octet: u8) -> EscapeStep
    ensures { result ≡ letter_step octet }
{
    let left = match octet {
        b'x' => 2,
        b'u' => 4,
        b'U' => 8,
        _ => return EscapeStep::Plain,
    };
    EscapeStep::Goes(Escape::Digits(EscapeDigits { left, value: 0 }))
}

// The number of a hexadecimal digit.
fn hex_value(octet: u8) -> Option<u8>
    ensures { result ≡ hex_value octet }
{
    match octet {
        b'0'..=b'9' => Some(octet - 48),
        b'A'..=b'F' => Some(octet - 55),
        b'a'..=b'f' => Some(octet - 87),
        _ => None,
    }
}

// A number with one digit more, or 255 where it is greater.
fn with_digit(value: u8, digit: u8) -> u8
    ensures { result ≡ with_digit value digit }
{
    let number = u16::from(value) * 16 + u16::from(digit);
    if number < 255 { number as u8 } else { 255 }
}

// What a record has in the place of an octet of a password: X for a character that one may have.
#[tactic(auto, unfolding(crate::specs::Escapes::hidden_octet))]
fn hidden_octet(octet: u8) -> u8
    ensures { result ≡ hidden_octet octet }
{
    if is_allowed(octet) { b'X' } else { octet }
}

// Appends what a record has in the place of octets, each of which is a character.
fn hide_all(octets: &[u8], to: &mut Vec<u8>) -> Result<(), AllocError>
    ensures { OnOk result (to.new.items ≡ hidden_all to.old.items octets.now) }
{
    for octet in octets {
        to.push(hidden_octet(*octet))?;
    }
    Ok(())
}

/// The characters of a string that were read.
#[derive(Drop)]
struct HiddenString {
    // What a record has in the place of those that are whole.
    done: Vec<u8>,
    // What was read of a spelling, and how far that is.
    held: Vec<u8>,
    escape: Escape,
}

impl Model for HiddenString {
    ghost use Rattle.oftp_contents.specs.Escapes.{Hiding};

    ghost Value = { Hiding };

    ghost view = { λ s. record { done = s.done.items; held = s.held.items; escape = s.escape } };
}

impl HiddenString {
    // Reads one more octet.
    #[tactic(auto, unfolding(crate::specs::Escapes::next_hidden))]
    fn take(&mut self, octet: u8) -> Result<(), AllocError>
        ensures { OnOk result (self.new ≡ next_hidden self.old octet) }
    {
        match self.escape.step(octet) {
            EscapeStep::Plain => {
                hide_all(self.held.as_slice(), &mut self.done)?;
                self.held.clear();
                self.done.push(hidden_octet(octet))?;
                self.escape = Escape::Outside;
            }
            EscapeStep::Begins => {
                hide_all(self.held.as_slice(), &mut self.done)?;
                self.held.clear();
                self.held.push(octet)?;
                self.escape = Escape::Backslash;
            }
            EscapeStep::Goes(escape) => {
                self.held.push(octet)?;
                self.escape = escape;
            }
            EscapeStep::Spells(character) => self.end(character, octet)?,
        }
        Ok(())
    }

    // Reads the last octet of a spelling.
    fn end(&mut self, character: u8, octet: u8) -> Result<(), AllocError>
        ensures { OnOk result (self.new ≡ with_spelled self.old character octet) }
    {
        if is_allowed(character) {
            self.done.push(b'X')?;
        } else {
            self.done.extend_from_slice(self.held.as_slice())?;
            self.done.push(octet)?;
        }
        self.held.clear();
        self.escape = Escape::Outside;
        Ok(())
    }
}

/// What a record has in the place of a string in double quotes.
///
/// # Errors
/// Out of memory.
#[tactic(auto, unfolding(crate::specs::Escapes::hidden_string))]
pub(crate) fn hidden_string(alloc: Global, octets: &[u8]) -> Result<Vec<u8>, AllocError>
    ensures { IfOk result (λ hidden. hidden.items ≡ hidden_string octets.now) }
{
    let mut string = HiddenString {
        done: Vec::new(alloc),
        held: Vec::new(alloc),
        escape: Escape::Outside,
    };
    for octet in octets {
        string.take(*octet)?;
    }
    let HiddenString {
        mut done,
        held,
        escape: _,
    } = string;
    hide_all(held.as_slice(), &mut done)?;
    Ok(done)
}

/// What a record has in the place of a string in single quotes, in which no character is spelled by its number.
///
/// # Errors
/// Out of memory.
pub(crate) fn hidden_literal(alloc: Global, octets: &[u8]) -> Result<Vec<u8>, AllocError>
    ensures { IfOk result (λ hidden. hidden.items ≡ hidden_all [] octets.now) }
{
    let mut hidden = Vec::new(alloc);
    hide_all(octets, &mut hidden)?;
    Ok(hidden)
}
