//! Commands and their values as an operator reads them.

ghost use Rattle.std.specs.Prelude.{◌≡◌, Some};
ghost use Rattle.std.specs.Fmt.{DisplaysOnOk, decimal};
ghost use Rattle.oftp_wire.specs.Messages.{printable, shown_text, text_after_colon, mode_text, offer_text, ssid_text, sfid_text, sfna_text, eerp_text, nerp_text, command_text};

use crate::command::{Command, Eerp, Mode, Nerp, Sfid, Sfna, Ssid};
use crate::field::{Count, Digits, Octets, Text, X};
use crate::words::{
    write_end_reason, write_negative_reason, write_session_reason, write_start_reason,
};
use std::fmt;

impl<const N: usize> fmt::Display for X<'_, N> {
    ghost output = { λ x. Some x };

    fn fmt<W: fmt::Write>(&self, f: &mut fmt::Formatter<W>) -> fmt::Result {
        f.write_str(self.text())
    }
}

impl<const N: usize> fmt::Display for Digits<'_, N> {
    ghost output = { λ x. Some x };

    fn fmt<W: fmt::Write>(&self, f: &mut fmt::Formatter<W>) -> fmt::Result {
        f.write_str(self.text())
    }
}

impl<const N: usize> fmt::Display for Count<N> {
    ghost output = { λ n. Some (decimal n) };

    fn fmt<W: fmt::Write>(&self, f: &mut fmt::Formatter<W>) -> fmt::Result {
        write!(f, "{}", self.get())
    }
}

/// Writes `?` for each control character, so that a partner's text can't disturb a terminal or a log.
impl fmt::Display for Text<'_> {
    ghost output = { λ t. Some (shown_text t) };

    fn fmt<W: fmt::Write>(&self, f: &mut fmt::Formatter<W>) -> fmt::Result {
        for c in self.text().chars() {
            f.write_char(printable(c))?;
        }
        Ok(())
    }
}

/// The character, or `?` for a control character.
fn printable(c: char) -> char
    ensures { result ≡ printable c }
{
    if c.is_control() { '?' } else { c }
}

/// Writes a text after a colon, or nothing for the empty text.
fn write_text<W: fmt::Write>(f: &mut fmt::Formatter<W>, text: &Text) -> fmt::Result
    ensures { DisplaysOnOk W.write_str_gives f.old result (Some (text_after_colon text.now)) f.new }
{
    if text.text().is_empty() {
        return Ok(());
    }
    write!(f, ": {text}")
}

/// The kind, and the fields that distinguish the command from others of its kind, but never the password.
impl fmt::Display for Command<'_> {
    ghost output = { λ c. Some (command_text c) };

    fn fmt<W: fmt::Write>(&self, f: &mut fmt::Formatter<W>) -> fmt::Result {
        match self {
            Command::Ssrm => f.write_str("SSRM"),
            Command::Ssid(s) => write!(f, "SSID from {}", s.code),
            Command::Sfid(s) => write_sfid(f, s),
            Command::Sfpa(s) => write!(f, "SFPA from position {}", s.restart),
            Command::Sfna(s) => write_sfna(f, s),
            Command::Data(s) => write!(f, "DATA of {} octets", s.octets().len()),
            Command::Cdt => f.write_str("CDT"),
            Command::Efid(s) => write!(f, "EFID of {} records and {} octets", s.records, s.units),
            Command::Efpa(s) => f.write_str(if s.change_direction {
                "EFPA, change of direction"
            } else {
                "EFPA"
            }),
            Command::Efna(s) => {
                f.write_str("EFNA ")?;
                write_end_reason(f, s.reason)?;
                write_text(f, &s.text)
            }
            Command::Esid(s) => {
                f.write_str("ESID ")?;
                write_session_reason(f, s.reason)?;
                write_text(f, &s.text)
            }
            Command::Cd => f.write_str("CD"),
            Command::Eerp(s) => write_eerp(f, s),
            Command::Nerp(s) => write_nerp(f, s),
            Command::Rtr => f.write_str("RTR"),
        }
    }
}

/// Writes SFID.
fn write_sfid<W: fmt::Write>(f: &mut fmt::Formatter<W>, s: &Sfid) -> fmt::Result
    ensures { DisplaysOnOk W.write_str_gives f.old result (Some (sfid_text s.now)) f.new }
{
    write!(f, "SFID {} {} {}", s.dataset, s.date, s.time)?;
    write!(f, " from {} to {}", s.originator, s.destination)
}

/// Writes SFNA.
fn write_sfna<W: fmt::Write>(f: &mut fmt::Formatter<W>, s: &Sfna) -> fmt::Result
    ensures { DisplaysOnOk W.write_str_gives f.old result (Some (sfna_text s.now)) f.new }
{
    f.write_str("SFNA ")?;
    write_start_reason(f, s.reason)?;
    f.write_str(if s.retry { ", retry" } else { "" })?;
    write_text(f, &s.text)
}

/// Writes EERP.
fn write_eerp<W: fmt::Write>(f: &mut fmt::Formatter<W>, s: &Eerp) -> fmt::Result
    ensures { DisplaysOnOk W.write_str_gives f.old result (Some (eerp_text s.now)) f.new }
{
    write!(f, "EERP {} {} {}", s.dataset, s.date, s.time)?;
    write!(f, " to {}", s.destination)
}

/// Writes NERP.
fn write_nerp<W: fmt::Write>(f: &mut fmt::Formatter<W>, s: &Nerp) -> fmt::Result
    ensures { DisplaysOnOk W.write_str_gives f.old result (Some (nerp_text s.now)) f.new }
{
    write!(f, "NERP {} {} {}", s.dataset, s.date, s.time)?;
    write!(f, " to {}, ", s.destination)?;
    write_negative_reason(f, s.reason)?;
    write_text(f, &s.text)
}

impl<const N: usize> fmt::Debug for X<'_, N> {
    fn fmt<W: fmt::Write>(&self, f: &mut fmt::Formatter<W>) -> fmt::Result {
        fmt::Debug::fmt(self.text(), f)
    }
}

impl<const N: usize> fmt::Debug for Digits<'_, N> {
    fn fmt<W: fmt::Write>(&self, f: &mut fmt::Formatter<W>) -> fmt::Result {
        fmt::Debug::fmt(self.text(), f)
    }
}

impl fmt::Debug for Text<'_> {
    fn fmt<W: fmt::Write>(&self, f: &mut fmt::Formatter<W>) -> fmt::Result {
        fmt::Debug::fmt(self.text(), f)
    }
}

impl fmt::Debug for Octets<'_> {
    fn fmt<W: fmt::Write>(&self, f: &mut fmt::Formatter<W>) -> fmt::Result {
        fmt::Debug::fmt(self.octets(), f)
    }
}

impl fmt::Display for Mode {
    ghost output = { λ m. Some (mode_text m) };

    fn fmt<W: fmt::Write>(&self, f: &mut fmt::Formatter<W>) -> fmt::Result {
        f.write_str(match self {
            Mode::Send => "Send",
            Mode::Receive => "Receive",
            Mode::Both => "Both",
        })
    }
}

/// Writes what an SSID negotiates.
fn write_offer<W: fmt::Write>(f: &mut fmt::Formatter<W>, s: &Ssid) -> fmt::Result
    ensures { DisplaysOnOk W.write_str_gives f.old result (Some (offer_text s.now)) f.new }
{
    write!(
        f,
        ", buffer: {}, mode: {}, compression: {}, restart: {}, special_logic: {}, credit: {}",
        s.buffer, s.mode, s.compression, s.restart, s.special_logic, s.credit
    )
}

/// All fields but the password, which must not be logged.
impl fmt::Debug for Ssid<'_> {
    ghost debug_output = { λ s. Some (ssid_text s) };

    fn fmt<W: fmt::Write>(&self, f: &mut fmt::Formatter<W>) -> fmt::Result {
        write!(f, "Ssid {{ level: {}, code: {}", self.level, self.code)?;
        write_offer(f, self)?;
        write!(
            f,
            ", authentication: {}, user: {}, .. }}",
            self.authentication, self.user
        )
    }
}
