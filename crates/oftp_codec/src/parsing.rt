//! Parsing commands. The fields are at fixed offsets and are read from left to right, so that the first fault is found first.

ghost use Rattle.std.specs.Prelude.{◌≡◌, ◌+◌, Some, List, ℕ, IfOk, IfErr, IsSome};
ghost use Rattle.oftp_codec.specs.Spelling.{Spells, IsFit, Canon, Fault};
ghost use Rattle.oftp_wire.specs.Reasons.{reason_of};
ghost use Rattle.oftp_wire.specs.declared.command.Command.{Command};
ghost use Rattle.oftp_wire.specs.declared.command.Command.TheVariants as commands;
ghost use Rattle.oftp_codec.specs.Reading.{ends_at, skipped_at};
ghost use Rattle.oftp_codec.specs.Kinds.{esid_of, sfpa_of, cdt_of, eerp_of, ssid_of, sfid_of, nerp_of, ssrm_of, sfna_of, data_of, efid_of, efpa_of, efna_of, single_of, as_command, by_letter, command_of};

use crate::read::{
    count_at, digits_at, ends_at, flag_at, format_at, last_text_at, layout_at, mode_at, name_at,
    ready_at, reserved_at, rest_at, return_at, text_at, zero_at,
};
use oftp_wire::{Command, Eerp, Efid, Efna, Efpa, Esid, Nerp, Sfid, Sfna, Sfpa, Ssid, WireFault};

/// SSRM, which has no field with a value.
#[tactic(auto, unfolding(crate::specs::Kinds::ssrm_of))]
fn ssrm(frame: &[u8]) -> Result<(), WireFault>
    ensures { result ≡ ssrm_of frame.now }
{
    ready_at(frame, 1)?;
    return_at(frame, 18)?;
    ends_at(frame, 19)?;
    Ok(())
}

/// The fields of SSID.
#[tactic(auto, unfolding(crate::specs::Kinds::ssid_of))]
fn ssid(frame: &[u8]) -> Result<Command<'_>, WireFault>
    ensures { result ≡ as_command commands.Ssid (ssid_of frame.now) }
{
    let level = count_at::<1>(frame, 1)?;
    let code = name_at::<25>(frame, 2)?;
    let password = name_at::<8>(frame, 27)?;
    let buffer = count_at::<5>(frame, 35)?;
    let mode = mode_at(frame, 40)?;
    let compression = flag_at(frame, 41)?;
    let restart = flag_at(frame, 42)?;
    let special_logic = flag_at(frame, 43)?;
    let credit = count_at::<3>(frame, 44)?;
    let authentication = flag_at(frame, 47)?;
    reserved_at(frame, 48, 4)?;
    let user = name_at::<8>(frame, 52)?;
    return_at(frame, 60)?;
    ends_at(frame, 61)?;
    Ok(Command::Ssid(Ssid {
        level,
        code,
        password,
        buffer,
        mode,
        compression,
        restart,
        special_logic,
        credit,
        authentication,
        user,
    }))
}

/// The fields of SFID.
#[tactic(auto, unfolding(crate::specs::Kinds::sfid_of))]
fn sfid(frame: &[u8]) -> Result<Command<'_>, WireFault>
    ensures { result ≡ as_command commands.Sfid (sfid_of frame.now) }
{
    let dataset = name_at::<26>(frame, 1)?;
    reserved_at(frame, 27, 3)?;
    let date = digits_at::<8>(frame, 30)?;
    let time = digits_at::<10>(frame, 38)?;
    let user = name_at::<8>(frame, 48)?;
    let destination = name_at::<25>(frame, 56)?;
    let originator = name_at::<25>(frame, 81)?;
    let layout = layout_at(frame, 107, format_at(frame, 106)?)?;
    let size = count_at::<13>(frame, 112)?;
    let original_size = count_at::<13>(frame, 125)?;
    let restart = count_at::<17>(frame, 138)?;
    let security = count_at::<2>(frame, 155)?;
    let cipher = count_at::<2>(frame, 157)?;
    let compression = count_at::<1>(frame, 159)?;
    let enveloping = count_at::<1>(frame, 160)?;
    let signed_response = flag_at(frame, 161)?;
    let description = last_text_at(frame, 162)?;
    Ok(Command::Sfid(Sfid {
        dataset,
        date,
        time,
        user,
        destination,
        originator,
        layout,
        size,
        original_size,
        restart,
        security,
        cipher,
        compression,
        enveloping,
        signed_response,
        description,
    }))
}

/// The fields of SFPA.
#[tactic(auto, unfolding(crate::specs::Kinds::sfpa_of))]
fn sfpa(frame: &[u8]) -> Result<Command<'_>, WireFault>
    ensures { result ≡ as_command commands.Sfpa (sfpa_of frame.now) }
{
    let restart = count_at::<17>(frame, 1)?;
    ends_at(frame, 18)?;
    Ok(Command::Sfpa(Sfpa { restart }))
}

/// The fields of SFNA.
#[tactic(auto, unfolding(crate::specs::Kinds::sfna_of))]
fn sfna(frame: &[u8]) -> Result<Command<'_>, WireFault>
    ensures { result ≡ as_command commands.Sfna (sfna_of frame.now) }
{
    let reason = count_at::<2>(frame, 1)?;
    let retry = flag_at(frame, 3)?;
    let text = last_text_at(frame, 4)?;
    Ok(Command::Sfna(Sfna {
        reason,
        retry,
        text,
    }))
}

/// The payload of DATA.
#[tactic(auto, unfolding(crate::specs::Kinds::data_of))]
fn data(frame: &[u8]) -> Result<Command<'_>, WireFault>
    ensures { result ≡ as_command commands.Data (data_of frame.now) }
{
    let octets = rest_at(frame, 1)?;
    Ok(Command::Data(octets))
}

/// CDT, which has no field with a value.
#[tactic(auto, unfolding(crate::specs::Kinds::cdt_of))]
fn cdt(frame: &[u8]) -> Result<(), WireFault>
    ensures { result ≡ cdt_of frame.now }
{
    reserved_at(frame, 1, 2)?;
    ends_at(frame, 3)?;
    Ok(())
}

/// The fields of EFID.
#[tactic(auto, unfolding(crate::specs::Kinds::efid_of))]
fn efid(frame: &[u8]) -> Result<Command<'_>, WireFault>
    ensures { result ≡ as_command commands.Efid (efid_of frame.now) }
{
    let records = count_at::<17>(frame, 1)?;
    let units = count_at::<17>(frame, 18)?;
    ends_at(frame, 35)?;
    Ok(Command::Efid(Efid { records, units }))
}

/// The fields of EFPA.
#[tactic(auto, unfolding(crate::specs::Kinds::efpa_of))]
fn efpa(frame: &[u8]) -> Result<Command<'_>, WireFault>
    ensures { result ≡ as_command commands.Efpa (efpa_of frame.now) }
{
    let change_direction = flag_at(frame, 1)?;
    ends_at(frame, 2)?;
    Ok(Command::Efpa(Efpa { change_direction }))
}

/// The fields of EFNA.
#[tactic(auto, unfolding(crate::specs::Kinds::efna_of))]
fn efna(frame: &[u8]) -> Result<Command<'_>, WireFault>
    ensures { result ≡ as_command commands.Efna (efna_of frame.now) }
{
    let reason = count_at::<2>(frame, 1)?;
    let text = last_text_at(frame, 3)?;
    Ok(Command::Efna(Efna { reason, text }))
}

/// The fields of ESID.
#[tactic(auto, unfolding(crate::specs::Kinds::esid_of))]
fn esid(frame: &[u8]) -> Result<Command<'_>, WireFault>
    ensures { result ≡ as_command commands.Esid (esid_of frame.now) }
{
    let reason = count_at::<2>(frame, 1)?;
    let len = count_at::<3>(frame, 3)?;
    let text = text_at(frame, 6, len)?;
    let after = 6 + len.get() as usize;
    return_at(frame, after)?;
    ends_at(frame, after + 1)?;
    Ok(Command::Esid(Esid { reason, text }))
}

/// CD or RTR, which are only a letter.
#[tactic(auto, unfolding(crate::specs::Kinds::single_of))]
fn single(frame: &[u8]) -> Result<(), WireFault>
    ensures { result ≡ single_of frame.now }
{
    ends_at(frame, 1)?;
    Ok(())
}

/// The fields of EERP.
#[tactic(auto, unfolding(crate::specs::Kinds::eerp_of))]
fn eerp(frame: &[u8]) -> Result<Command<'_>, WireFault>
    ensures { result ≡ as_command commands.Eerp (eerp_of frame.now) }
{
    let dataset = name_at::<26>(frame, 1)?;
    reserved_at(frame, 27, 3)?;
    let date = digits_at::<8>(frame, 30)?;
    let time = digits_at::<10>(frame, 38)?;
    let user = name_at::<8>(frame, 48)?;
    let destination = name_at::<25>(frame, 56)?;
    let originator = name_at::<25>(frame, 81)?;
    zero_at(frame, 106)?;
    zero_at(frame, 108)?;
    ends_at(frame, 110)?;
    Ok(Command::Eerp(Eerp {
        dataset,
        date,
        time,
        user,
        destination,
        originator,
    }))
}

/// The fields of NERP.
#[tactic(auto, unfolding(crate::specs::Kinds::nerp_of))]
fn nerp(frame: &[u8]) -> Result<Command<'_>, WireFault>
    ensures { result ≡ as_command commands.Nerp (nerp_of frame.now) }
{
    let dataset = name_at::<26>(frame, 1)?;
    reserved_at(frame, 27, 6)?;
    let date = digits_at::<8>(frame, 33)?;
    let time = digits_at::<10>(frame, 41)?;
    let destination = name_at::<25>(frame, 51)?;
    let originator = name_at::<25>(frame, 76)?;
    let creator = name_at::<25>(frame, 101)?;
    let reason = count_at::<2>(frame, 126)?;
    let len = count_at::<3>(frame, 128)?;
    let text = text_at(frame, 131, len)?;
    let after = 131 + len.get() as usize;
    zero_at(frame, after)?;
    zero_at(frame, after + 2)?;
    ends_at(frame, after + 4)?;
    Ok(Command::Nerp(Nerp {
        dataset,
        date,
        time,
        destination,
        originator,
        creator,
        reason,
        text,
    }))
}

/// The command of the kind with this letter.
#[tactic(auto, unfolding(crate::specs::Kinds::by_letter))]
fn by_letter(letter: u8, frame: &[u8]) -> Result<Command<'_>, WireFault>
    ensures { result ≡ by_letter letter frame.now }
{
    match letter {
        b'I' => {
            ssrm(frame)?;
            Ok(Command::Ssrm)
        }
        b'X' => ssid(frame),
        b'H' => sfid(frame),
        b'2' => sfpa(frame),
        b'3' => sfna(frame),
        b'D' => data(frame),
        b'C' => {
            cdt(frame)?;
            Ok(Command::Cdt)
        }
        b'T' => efid(frame),
        b'4' => efpa(frame),
        b'5' => efna(frame),
        b'F' => esid(frame),
        b'R' => {
            single(frame)?;
            Ok(Command::Cd)
        }
        b'E' => eerp(frame),
        b'N' => nerp(frame),
        b'P' => {
            single(frame)?;
            Ok(Command::Rtr)
        }
        _ => Err(WireFault::UnknownCommand),
    }
}

/// The command in the octets.
#[tactic(auto, unfolding(crate::specs::Kinds::command_of))]
fn command(frame: &[u8]) -> Result<Command<'_>, WireFault>
    ensures { result ≡ command_of frame.now }
{
    match frame {
        [] => Err(WireFault::UnknownCommand),
        [letter, ..] => by_letter(*letter, frame),
    }
}

/// Parses the octets of a frame, without the stream header (RFC 5024, section 5.3).
///
/// Either carriage return and any reserved octets are accepted. It allocates nothing, and the command's texts are slices of the frame.
///
/// # Errors
///
/// The first fault from left to right: [`WireFault::UnknownCommand`], [`WireFault::WrongLength`], [`WireFault::BadField`] or
/// [`WireFault::BadText`], and never [`WireFault::NoRoom`].
pub fn parse(frame: &[u8]) -> Result<Command<'_>, WireFault>
    // `command_of` computes the result. By the theorem `one_spelling` it says the same as the clauses below.
    ensures value { result ≡ command_of frame.now }
    // The octets encode the command that was read.
    ensures found { IfOk result (λ c. Spells c frame.now) }
    // A command that the octets encode is read.
    ensures only { (c : Command) → Spells c frame.now → result ≡ Ok c }
    // A command that was encoded canonically is read back.
    ensures again { (c : Command) → IsFit c → frame.now ≡ Canon c → result ≡ Ok c }
    // The error is the first fault from the left.
    ensures fault { IfErr result (λ e. Fault frame.now ≡ Some e) }
    // There is a reason for the ESID that answers it.
    ensures reason { IfErr result (λ e. IsSome (reason_of e)) }
{
    command(frame)
}
