//! Encoding commands. The octets of each kind are a list of pieces, one for each field.

ghost use Rattle.std.specs.Prelude.{◌≡◌, ◌<◌, ◌≤◌, ◌^◌, length, true, false};
ghost use Rattle.std.specs.List.{list_any};
ghost use Rattle.std.specs.Str.{IsUtf8, bytes_eq};
ghost use Rattle.oftp_wire.specs.Octets.{padded, decimal, IsName, IsDigits};
ghost use Rattle.oftp_codec.specs.Piece.{octets_of, IsRight, Writes};
ghost use Rattle.oftp_codec.specs.Row.{IsWord, EachFits};
ghost use Rattle.oftp_codec.specs.Tables.{flag_octets, mode_octets, format_octets, longest_of, is_recorded, esid_table, sfpa_table, eerp_table, ssid_table, sfid_table_of, nerp_table, ssrm_table, sfna_table, data_table, cdt_table, efid_table, efpa_table, efna_table, single_table, flag_words, mode_words, format_words};
ghost use Rattle.oftp_codec.specs.Spelling.{Canon, IsFit, IsWritten};

use crate::piece::{Piece, write};
use oftp_wire::{
    Command, Count, Digits, Eerp, Efid, Efna, Efpa, Esid, Layout, Mode, Nerp, Octets, Sfid, Sfna,
    Sfpa, Ssid, Text, WireFault, X,
};

/// A field X(N): the value, then spaces.
fn name_piece<'a, const N: usize>(name: &X<'a, N>) -> Piece<'a>
    ensures right { IsRight result }
    ensures octets { octets_of result ≡ padded N name.now }
    ensures fit { IsName N name.now }
{
    Piece::Padded(name.octets(), N)
}

/// A field 9(N) of digits.
fn digits_piece<'a, const N: usize>(digits: &Digits<'a, N>) -> Piece<'a>
    ensures right { IsRight result }
    ensures octets { octets_of result ≡ digits.now }
    ensures fit { IsDigits N digits.now }
{
    Piece::Octets(digits.octets())
}

/// A field 9(N) of a number, with leading zeros.
fn count_piece<const N: usize>(count: Count<N>) -> Piece<'static>
    ensures right { IsRight result }
    ensures octets { octets_of result ≡ decimal N count.entry }
    ensures fit { count.entry < 10 ^ N }
{
    Piece::Decimal(count.get(), N)
}

/// A field T(n).
fn text_piece<'a>(text: &Text<'a>) -> Piece<'a>
    ensures right { IsRight result }
    ensures octets { octets_of result ≡ text.now }
    ensures fit { IsUtf8 text.now }
{
    Piece::Octets(text.text().as_bytes())
}

/// The length field before a text.
fn length_piece(text: &Text<'_>) -> Piece<'static>
    ensures right { IsRight result }
    ensures octets { octets_of result ≡ decimal 3 (length text.now) }
    ensures fit { length text.now ≤ 999 }
{
    Piece::Decimal(text.text().len() as u64, 3)
}

/// Y or N.
fn flag_piece(flag: bool) -> Piece<'static>
    ensures right { IsRight result }
    ensures octets { octets_of result ≡ flag_octets flag }
    ensures fit { IsWord 1 flag_words (flag_octets flag) }
{
    if flag {
        Piece::Octets(b"Y")
    } else {
        Piece::Octets(b"N")
    }
}

/// S, R or B.
fn mode_piece(mode: Mode) -> Piece<'static>
    ensures right { IsRight result }
    ensures octets { octets_of result ≡ mode_octets mode }
    ensures fit { IsWord 1 mode_words (mode_octets mode) }
{
    match mode {
        Mode::Send => Piece::Octets(b"S"),
        Mode::Receive => Piece::Octets(b"R"),
        Mode::Both => Piece::Octets(b"B"),
    }
}

/// F, V, U or T.
fn format_piece(layout: Layout) -> Piece<'static>
    ensures right { IsRight result }
    ensures octets { octets_of result ≡ format_octets layout }
    ensures fit { IsWord 1 format_words (format_octets layout) }
{
    match layout {
        Layout::Fixed(_) => Piece::Octets(b"F"),
        Layout::Variable(_) => Piece::Octets(b"V"),
        Layout::Unstructured => Piece::Octets(b"U"),
        Layout::Text => Piece::Octets(b"T"),
    }
}

/// The longest record, 0 in a format without records.
fn longest_piece(layout: Layout) -> Piece<'static>
    ensures right { IsRight result }
    ensures octets { octets_of result ≡ decimal 5 (longest_of layout) }
    ensures fit { (longest_of layout < 10 ^ 5)
        × (is_recorded layout ≡ false → longest_of layout ≡ 0) }
{
    match layout {
        Layout::Fixed(longest) | Layout::Variable(longest) => count_piece(longest),
        Layout::Unstructured | Layout::Text => Piece::Decimal(0, 5),
    }
}

/// Encodes SSID.
fn put_ssid(out: &mut [u8], s: &Ssid) -> Result<usize, WireFault>
    ensures written { Writes ssid_table s.now result out.old out.new }
    ensures fit { EachFits ssid_table.rows s.now }
{
    write(
        out,
        &[
            Piece::Octets(b"X"),
            count_piece(s.level),
            name_piece(&s.code),
            name_piece(&s.password),
            count_piece(s.buffer),
            mode_piece(s.mode),
            flag_piece(s.compression),
            flag_piece(s.restart),
            flag_piece(s.special_logic),
            count_piece(s.credit),
            flag_piece(s.authentication),
            Piece::Spaces(4),
            name_piece(&s.user),
            Piece::Octets(b"\r"),
        ],
    )
}

/// Encodes SFID.
fn put_sfid(out: &mut [u8], s: &Sfid) -> Result<usize, WireFault>
    ensures written { Writes (sfid_table_of s.now) s.now result out.old out.new }
    ensures fit { EachFits (sfid_table_of s.now).rows s.now }
{
    write(
        out,
        &[
            Piece::Octets(b"H"),
            name_piece(&s.dataset),
            Piece::Spaces(3),
            digits_piece(&s.date),
            digits_piece(&s.time),
            name_piece(&s.user),
            name_piece(&s.destination),
            name_piece(&s.originator),
            format_piece(s.layout),
            longest_piece(s.layout),
            count_piece(s.size),
            count_piece(s.original_size),
            count_piece(s.restart),
            count_piece(s.security),
            count_piece(s.cipher),
            count_piece(s.compression),
            count_piece(s.enveloping),
            flag_piece(s.signed_response),
            length_piece(&s.description),
            text_piece(&s.description),
        ],
    )
}

/// Encodes SFPA.
fn put_sfpa(out: &mut [u8], s: &Sfpa) -> Result<usize, WireFault>
    ensures written { Writes sfpa_table s.now result out.old out.new }
    ensures fit { EachFits sfpa_table.rows s.now }
{
    write(out, &[Piece::Octets(b"2"), count_piece(s.restart)])
}

/// Encodes SFNA.
fn put_sfna(out: &mut [u8], s: &Sfna) -> Result<usize, WireFault>
    ensures written { Writes (sfna_table (length s.now.text)) s.now result out.old out.new }
    ensures fit { EachFits (sfna_table (length s.now.text)).rows s.now }
{
    write(
        out,
        &[
            Piece::Octets(b"3"),
            count_piece(s.reason),
            flag_piece(s.retry),
            length_piece(&s.text),
            text_piece(&s.text),
        ],
    )
}

/// Encodes DATA.
fn put_data(out: &mut [u8], s: &Octets) -> Result<usize, WireFault>
    ensures written { Writes (data_table (length s.now)) s.now result out.old out.new }
    ensures fit { EachFits (data_table (length s.now)).rows s.now }
{
    write(out, &[Piece::Octets(b"D"), Piece::Octets(s.octets())])
}

/// Encodes EFID.
fn put_efid(out: &mut [u8], s: &Efid) -> Result<usize, WireFault>
    ensures written { Writes efid_table s.now result out.old out.new }
    ensures fit { EachFits efid_table.rows s.now }
{
    write(
        out,
        &[
            Piece::Octets(b"T"),
            count_piece(s.records),
            count_piece(s.units),
        ],
    )
}

/// Encodes EFPA.
fn put_efpa(out: &mut [u8], s: &Efpa) -> Result<usize, WireFault>
    ensures written { Writes efpa_table s.now result out.old out.new }
    ensures fit { EachFits efpa_table.rows s.now }
{
    write(out, &[Piece::Octets(b"4"), flag_piece(s.change_direction)])
}

/// Encodes EFNA.
fn put_efna(out: &mut [u8], s: &Efna) -> Result<usize, WireFault>
    ensures written { Writes (efna_table (length s.now.text)) s.now result out.old out.new }
    ensures fit { EachFits (efna_table (length s.now.text)).rows s.now }
{
    write(
        out,
        &[
            Piece::Octets(b"5"),
            count_piece(s.reason),
            length_piece(&s.text),
            text_piece(&s.text),
        ],
    )
}

/// Encodes ESID.
fn put_esid(out: &mut [u8], s: &Esid) -> Result<usize, WireFault>
    ensures written { Writes (esid_table (length s.now.text)) s.now result out.old out.new }
    ensures fit { EachFits (esid_table (length s.now.text)).rows s.now }
{
    write(
        out,
        &[
            Piece::Octets(b"F"),
            count_piece(s.reason),
            length_piece(&s.text),
            text_piece(&s.text),
            Piece::Octets(b"\r"),
        ],
    )
}

/// Encodes EERP.
fn put_eerp(out: &mut [u8], s: &Eerp) -> Result<usize, WireFault>
    ensures written { Writes eerp_table s.now result out.old out.new }
    ensures fit { EachFits eerp_table.rows s.now }
{
    write(
        out,
        &[
            Piece::Octets(b"E"),
            name_piece(&s.dataset),
            Piece::Spaces(3),
            digits_piece(&s.date),
            digits_piece(&s.time),
            name_piece(&s.user),
            name_piece(&s.destination),
            name_piece(&s.originator),
            Piece::Octets(&[0, 0]),
            Piece::Octets(&[0, 0]),
        ],
    )
}

/// Encodes NERP.
fn put_nerp(out: &mut [u8], s: &Nerp) -> Result<usize, WireFault>
    ensures written { Writes (nerp_table (length s.now.text)) s.now result out.old out.new }
    ensures fit { EachFits (nerp_table (length s.now.text)).rows s.now }
{
    write(
        out,
        &[
            Piece::Octets(b"N"),
            name_piece(&s.dataset),
            Piece::Spaces(6),
            digits_piece(&s.date),
            digits_piece(&s.time),
            name_piece(&s.destination),
            name_piece(&s.originator),
            name_piece(&s.creator),
            count_piece(s.reason),
            length_piece(&s.text),
            text_piece(&s.text),
            Piece::Octets(&[0, 0]),
            Piece::Octets(&[0, 0]),
        ],
    )
}

/// Writes the canonical encoding of a command to the beginning of a slice, and returns its length in octets (RFC 5024, section 5.3).
///
/// Values are padded with spaces, numbers have leading zeros, reserved fields are spaces and a carriage return is 0D. It allocates nothing.
///
/// # Errors
///
/// [`WireFault::NoRoom`] where the slice is shorter than the encoding. The slice is unchanged.
pub fn encode(command: &Command, out: &mut [u8]) -> Result<usize, WireFault>
    // The canonical octets are written, or there is no room for them and nothing changed.
    ensures written { IsWritten result (Canon command.now) out.old out.new }
    // Each field is in its range, so `parse` reads the octets as this command.
    ensures fit { IsFit command.now }
{
    match command {
        Command::Ssrm => write(
            out,
            &[
                Piece::Octets(b"I"),
                Piece::Octets(b"ODETTE FTP READY "),
                Piece::Octets(b"\r"),
            ],
        ),
        Command::Ssid(s) => put_ssid(out, s),
        Command::Sfid(s) => put_sfid(out, s),
        Command::Sfpa(s) => put_sfpa(out, s),
        Command::Sfna(s) => put_sfna(out, s),
        Command::Data(s) => put_data(out, s),
        Command::Cdt => write(out, &[Piece::Octets(b"C"), Piece::Spaces(2)]),
        Command::Efid(s) => put_efid(out, s),
        Command::Efpa(s) => put_efpa(out, s),
        Command::Efna(s) => put_efna(out, s),
        Command::Esid(s) => put_esid(out, s),
        Command::Cd => write(out, &[Piece::Octets(b"R")]),
        Command::Eerp(s) => put_eerp(out, s),
        Command::Nerp(s) => put_nerp(out, s),
        Command::Rtr => write(out, &[Piece::Octets(b"P")]),
    }
}
