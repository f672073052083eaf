//! The DATA of the next payload of a file, from rows that are looked up as they are needed (RFC 5024, section 5.3.6).

ghost use Rattle.std.specs.Prelude.{◌≡◌, ◌↔◌, ◌-◌, ◌*◌, ◌≤◌, ◌++◌, [], None, IfErr, IfOk, OnErr, OnOk, IsTrue, length, max, min};
ghost use Rattle.oftp_vfile.specs.declared.format.TheConstants.{MOST_ROWS};
ghost use Rattle.oftp_session.specs.Standings.{at_hand};
ghost use Rattle.oftp_session.specs.Calls.{IsFailure, IsMade};
ghost use Rattle.oftp_session.specs.InsidePayloads.{FillsFrom, FindsRows, IsSameTransfer, MayLend, SaysFrom, next_row, without};
ghost use Rattle.oftp_session.specs.declared.frame.TheConstants.{LARGEST_PAYLOAD};
ghost use Rattle.oftp_session.specs.declared.payloads.TheConstants.{FIRST_ROWS};

use crate::frame::Frame;
use crate::link::Link;
use crate::sending::OutgoingTransfer;
use crate::session::SessionFault;
use oftp_register::{Office, Side, are_rows};
use oftp_vfile::{Filled, MOST_ROWS, Row, Rows};

// The number of rows that are looked up at first.
const FIRST_ROWS: usize = 64;

// The greatest payload in octets: a DATA is its command octet and a payload (RFC 5024, section 5.3.6).
pub(crate) fn payload_size(link: &Link) -> usize
    ensures value { result ≡ link.now.buffer - 1 }
    ensures least { 2 ≤ result }
    ensures most { result ≤ LARGEST_PAYLOAD }
{
    link.buffer.get() as usize - 1
}

// The rows that were looked up and aren't wholly sent.
fn at_hand(page: &Option<Rows>) -> &[Row]
    ensures { result.now ≡ at_hand page.now }
{
    match page {
        Some(rows) => rows.as_slice(),
        None => &[],
    }
}

// The same rows without the first `count`.
fn without(page: Option<Rows>, count: usize) -> Option<Rows>
    ensures { result ≡ without count page }
{
    let mut rows = page?.into_vec();
    drop(rows.drain(..count.min(rows.len())));
    Some(Rows::new(rows))
}

// These rows, with others appended. The one error is out of memory.
fn joined(page: Option<Rows>, more: Rows) -> Result<Rows, SessionFault>
    ensures value { IfOk result (λ rows. rows ≡ at_hand page ++ more) }
    ensures err { IfErr result (λ fault. fault ≡ SessionFault.Memory) }
{
    let Some(rows) = page else {
        return Ok(more);
    };
    let mut rows = rows.into_vec();
    let mut more = more.into_vec();
    match rows.append(&mut more) {
        Ok(()) => Ok(Rows::new(rows)),
        Err(_) => Err(SessionFault::Memory),
    }
}

// Whether the rows may be given to the filler: they fit the file's format and begin where the filler is.
fn may_lend(outgoing: &OutgoingTransfer) -> bool
    ensures { IsTrue result ↔ MayLend outgoing.now (at_hand outgoing.now.page) }
{
    let filler = &outgoing.filler;
    let rows = at_hand(&outgoing.page);
    let row = filler.row();
    let all = outgoing.rows.get() as usize;
    row <= all
        && rows.len() <= all - row
        && rows.len() <= MOST_ROWS
        && row <= MOST_ROWS - rows.len()
        && are_rows(filler.format(), outgoing.longest, rows)
        && filler.is_in(rows)
}

// Makes the DATA of the next payload from the rows at hand, and drops those that are wholly sent. It is an error of the office where the rows
// don't fit the file, and out of memory where there is no buffer.
fn fill(
    outgoing: &mut OutgoingTransfer,
    size: usize,
    frame: &mut Frame,
) -> Result<Filled, SessionFault>
    requires room { 2 ≤ size }
    requires size { size ≤ LARGEST_PAYLOAD }
    ensures { FillsFrom size outgoing.old outgoing.new frame.new result }
{
    if !may_lend(outgoing) {
        return Err(SessionFault::Office);
    }
    let row = outgoing.filler.row();
    let rows = at_hand(&outgoing.page);
    let last = row + rows.len() == outgoing.rows.get() as usize;
    let filled = frame.fill(&mut outgoing.filler, rows, last, size)?;
    let sent = outgoing.filler.row().saturating_sub(row);
    outgoing.page = without(outgoing.page.take(), sent);
    Ok(filled)
}

// Looks up `most` rows after those at hand, or all that are left.
fn look_up<O: Office>(
    outgoing: &OutgoingTransfer,
    most: usize,
    office: &mut O,
) -> Result<Rows, SessionFault>
    requires { next_row outgoing.now ≤ MOST_ROWS }
    ensures clean { (O.view office.new).clean → (O.view office.old).clean }
    ensures finds { FindsRows outgoing.now most (O.view office.old) (O.view office.new) result }
    ensures stays { (O.view office.new).clean → (O.view office.old).stands
        → OnOk result (IsMade None None (O.view office.old) (O.view office.new) []) }
    // This needs no clean disk.
    ensures count { IfOk result (λ rows. length rows ≡ min most (outgoing.now.rows - next_row outgoing.now)) }
    ensures err { IfErr result (λ fault. fault ≡ SessionFault.Office) }
{
    let next = outgoing.filler.row() + at_hand(&outgoing.page).len();
    let left = (outgoing.rows.get() as usize).saturating_sub(next);
    let rows = office.rows_of(Side::Outgoing, outgoing.number, next as u64, most as u64)?;
    if rows.len() != most.min(left) {
        return Err(SessionFault::Office);
    }
    Ok(rows)
}

// The number of rows to look up if those at hand don't fill a payload. It is twice as many, at least `FIRST_ROWS`, and at most as many as a
// payload has octets.
fn next_count(outgoing: &OutgoingTransfer, size: usize) -> usize
    requires { next_row outgoing.now ≤ MOST_ROWS }
    ensures { result ≡ min size (max FIRST_ROWS (2 * length (at_hand outgoing.now.page))) }
{
    size.min(FIRST_ROWS.max(2 * at_hand(&outgoing.page).len()))
}

// Makes the DATA of the next payload, if one is left. It looks up rows when those at hand don't fill it and aren't the last.
pub(crate) fn set_payload<O: Office>(
    outgoing: &mut OutgoingTransfer,
    size: usize,
    office: &mut O,
    frame: &mut Frame,
) -> Result<bool, SessionFault>
    requires room { 2 ≤ size }
    requires size { size ≤ LARGEST_PAYLOAD }
    ensures clean { (O.view office.new).clean → (O.view office.old).clean }
    ensures says { SaysFrom size outgoing.old outgoing.new (O.view office.old) (O.view office.new) frame.new result }
    // This needs no clean disk.
    ensures same { IsSameTransfer outgoing.old outgoing.new }
    ensures kept { OnErr result (outgoing.new ≡ record outgoing.old { page = outgoing.new.page }) }
    ensures err { IfErr result IsFailure }
{
    loop {
        match fill(outgoing, size, frame)? {
            Filled::Buffer(_) => return Ok(true),
            Filled::Done => return Ok(false),
            Filled::More => {}
        }
        let most = next_count(outgoing, size);
        let more = look_up(outgoing, most, office)?;
        outgoing.page = Some(joined(outgoing.page.take(), more)?);
    }
}
