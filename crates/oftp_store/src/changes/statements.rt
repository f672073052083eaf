//! The SQL statements of the changes. Each runs in a transaction, with a number below 2^63.

ghost use Rattle.std.specs.Prelude.{◌≡◌, ◌+◌, ◌<◌, ◌^◌, length};
ghost use Rattle.sqlite.specs.Values.{bound};
ghost use Rattle.oftp_wire.specs.Octets.{decimal};
ghost use Rattle.oftp_tables.specs.Statements.{Performs, uncounted};
ghost use Rattle.oftp_tables.specs.Tables.{HasRefusal, format_text, kind_text, out_state_text, reason_text, refusal_text};
ghost use Rattle.oftp_store.specs.Edits.{Makes, MakesNote, MakesNoteless, MakesRows, header_params};
ghost use Rattle.oftp_store.specs.Texts.{add_file_text, add_row_text};
ghost use Rattle.oftp_store.specs.declared.changes.edit.EditKind.TheVariants.{AddFile, AddIssued, AddReceived, CutRows, SetHeader, SetOutgoing, SetSent, SetWhole};

use super::edit::{NewHeader, NewIssued, NewReceived};
use arrayvec::ArrayVec;
use oftp_register::{Identity, Name, OutgoingState, ResponseKind, Side};
use oftp_tables::number;
use oftp_vfile::{Format, Rows};
use oftp_wire::{Count, Text};
use sqlite::types::{ToSql, ValueRef};
use sqlite::{Alter, Error, Transaction, params};

// The outcome of a statement, without the number of rows that it changed.
fn done(count: Result<usize, Error>) -> Result<(), Error>
    ensures { result ≡ uncounted count }
{
    count?;
    Ok(())
}

// The two decimal digits of a reason code.
fn two_digits(reason: Count<2>) -> ArrayVec<u8, 2>
    ensures digits { result.items ≡ decimal 2 reason }
    ensures small { reason < 100 }
{
    let value = reason.get();
    let mut digits = ArrayVec::new();
    digits.push(b'0' + (value / 10) as u8);
    digits.push(b'0' + (value % 10) as u8);
    digits
}

// The reason of a refused file as the database stores it, and an empty text for any other file.
fn refusal_text(state: OutgoingState) -> ArrayVec<u8, 2>
    ensures text { result.items ≡ refusal_text state }
    ensures small { HasRefusal state }
{
    match state {
        OutgoingState::Refused(reason) => two_digits(reason),
        _ => ArrayVec::new(),
    }
}

// The reason of a Negative End Response as the database stores it, and an empty text for an End-to-End Response.
fn reason_text(kind: ResponseKind, reason: Count<2>) -> ArrayVec<u8, 2>
    ensures text { result.items ≡ reason_text kind reason }
    ensures small { reason < 100 }
{
    let digits = two_digits(reason);
    match kind {
        ResponseKind::EndResponse => ArrayVec::new(),
        ResponseKind::NegativeEndResponse => digits,
    }
}

// The state of an outgoing file as the database stores it.
fn state_text(state: &OutgoingState) -> &'static str
    ensures { result.now ≡ out_state_text state.now }
{
    match state {
        OutgoingState::Waiting => "waiting",
        OutgoingState::Closing => "closing",
        OutgoingState::Handed => "handed",
        OutgoingState::Refused(_) => "refused",
        OutgoingState::Delivered => "delivered",
        OutgoingState::Returned => "returned",
    }
}

// The format as the database stores it.
fn format_text(format: Format) -> &'static str
    ensures { result.now ≡ format_text format }
{
    match format {
        Format::Fixed => "F",
        Format::Variable => "V",
        Format::Unstructured => "U",
        Format::Text => "T",
    }
}

// The kind of response as the database stores it.
fn kind_text(kind: ResponseKind) -> &'static str
    ensures { result.now ≡ kind_text kind }
{
    match kind {
        ResponseKind::EndResponse => "EERP",
        ResponseKind::NegativeEndResponse => "NERP",
    }
}

/// Sets the mark and the state of an outgoing file.
pub(crate) fn set_outgoing<S: Alter>(
    tx: &mut Transaction<'_, S>,
    no: u64,
    mark: u32,
    progress: OutgoingState,
) -> Result<(), Error>
    requires { no < 2 ^ 63 }
    ensures same_reference { tx.new.conn.ghost_name ≡ tx.old.conn.ghost_name }
    ensures performs { Performs (Makes no (SetOutgoing mark progress)) S.Store tx.old.conn.now tx.new.conn.now result }
{
    let reason = refusal_text(progress);
    done(tx.execute(
        "UPDATE out_file SET mark = ?2, state = ?3, reason = ?4 WHERE no = ?1",
        &[
            ValueRef::Int(number(no)),
            ValueRef::Int(i64::from(mark)),
            ValueRef::Text(state_text(&progress).as_bytes()),
            ValueRef::Text(reason.as_slice()),
        ],
    ))
}

/// Sets the header of an incoming file, except its identity.
pub(crate) fn set_header<S: Alter>(
    tx: &mut Transaction<'_, S>,
    no: u64,
    header: &NewHeader<'_>,
) -> Result<(), Error>
    requires { no < 2 ^ 63 }
    ensures same_reference { tx.new.conn.ghost_name ≡ tx.old.conn.ghost_name }
    ensures performs { Performs (Makes no (SetHeader header.entry)) S.Store tx.old.conn.now tx.new.conn.now result }
{
    done(tx.execute(
        "UPDATE in_file SET format = ?2, longest = ?3, description = ?4 WHERE no = ?1",
        params![
            number(no),
            format_text(header.format),
            header.longest,
            header.description.text(),
        ],
    ))
}

/// Marks an incoming file as whole.
pub(crate) fn set_whole<S: Alter>(tx: &mut Transaction<'_, S>, no: u64) -> Result<(), Error>
    requires { no < 2 ^ 63 }
    ensures same_reference { tx.new.conn.ghost_name ≡ tx.old.conn.ghost_name }
    ensures performs { Performs (Makes no SetWhole) S.Store tx.old.conn.now tx.new.conn.now result }
{
    done(tx.execute(
        "UPDATE in_file SET state = 'whole' WHERE no = ?1",
        params![number(no)],
    ))
}

/// Marks the response to an incoming file as sent.
pub(crate) fn set_sent<S: Alter>(tx: &mut Transaction<'_, S>, no: u64) -> Result<(), Error>
    requires { no < 2 ^ 63 }
    ensures same_reference { tx.new.conn.ghost_name ≡ tx.old.conn.ghost_name }
    ensures performs { Performs (Makes no SetSent) S.Store tx.old.conn.now tx.new.conn.now result }
{
    done(tx.execute(
        "UPDATE issued SET sent = 1 WHERE no = ?1",
        params![number(no)],
    ))
}

// The parameters of the columns that the tables of incoming and outgoing files share.
fn header_values<'x>(no: u64, header: &NewHeader<'x>) -> [ValueRef<'x>; 9]
    requires { no < 2 ^ 63 }
    ensures { bound result ≡ header_params no header.now }
{
    let identity = header.identity;
    [
        ValueRef::Int(number(no)),
        ValueRef::Text(identity.dataset.octets()),
        ValueRef::Text(identity.date.octets()),
        ValueRef::Text(identity.time.octets()),
        ValueRef::Text(identity.originator.octets()),
        ValueRef::Text(identity.destination.octets()),
        ValueRef::Text(format_text(header.format).as_bytes()),
        header.longest.to_sql(),
        ValueRef::Text(header.description.text().as_bytes()),
    ]
}

// The SQL that adds a file.
fn add_file_text(side: Side) -> &'static str
    ensures { result.now ≡ add_file_text side }
{
    match side {
        Side::Incoming => {
            "INSERT INTO in_file (no, dataset, date, time, originator, destination, format, longest, description, state) VALUES (?1, ?2, ?3, ?4, ?5, ?6, ?7, ?8, ?9, 'open')"
        }
        Side::Outgoing => {
            "INSERT INTO out_file (no, dataset, date, time, originator, destination, format, longest, description, mark, state, reason) VALUES (?1, ?2, ?3, ?4, ?5, ?6, ?7, ?8, ?9, 0, 'waiting', '')"
        }
    }
}

/// Adds a file without rows. An incoming file is then open, an outgoing file waits.
pub(crate) fn add_file<S: Alter>(
    tx: &mut Transaction<'_, S>,
    side: Side,
    no: u64,
    header: &NewHeader<'_>,
) -> Result<(), Error>
    requires { no < 2 ^ 63 }
    ensures same_reference { tx.new.conn.ghost_name ≡ tx.old.conn.ghost_name }
    ensures performs { Performs (Makes no (AddFile side header.entry)) S.Store tx.old.conn.now tx.new.conn.now result }
{
    done(tx.execute(add_file_text(side), &header_values(no, header)))
}

/// Adds a response, which is due, to an incoming file.
pub(crate) fn add_issued<S: Alter>(
    tx: &mut Transaction<'_, S>,
    no: u64,
    response: &NewIssued<'_>,
) -> Result<(), Error>
    requires { no < 2 ^ 63 }
    ensures same_reference { tx.new.conn.ghost_name ≡ tx.old.conn.ghost_name }
    ensures performs { Performs (Makes no (AddIssued response.entry)) S.Store tx.old.conn.now tx.new.conn.now result }
{
    let digits = reason_text(response.kind, response.reason);
    done(tx.execute(
        "INSERT INTO issued (no, kind, reason, note, sent) VALUES (?1, ?2, ?3, ?4, 0)",
        &[
            ValueRef::Int(number(no)),
            ValueRef::Text(kind_text(response.kind).as_bytes()),
            ValueRef::Text(digits.as_slice()),
            ValueRef::Text(response.text.text().as_bytes()),
        ],
    ))
}

// Adds a received response without its note.
fn add_noteless<S: Alter>(
    tx: &mut Transaction<'_, S>,
    no: u64,
    kind: ResponseKind,
    identity: &Identity,
    reason: Count<2>,
) -> Result<(), Error>
    requires { no < 2 ^ 63 }
    ensures same_reference { tx.new.conn.ghost_name ≡ tx.old.conn.ghost_name }
    ensures performs { Performs (MakesNoteless no kind identity.now reason) S.Store tx.old.conn.now tx.new.conn.now result }
{
    let digits = reason_text(kind, reason);
    done(tx.execute(
        "INSERT INTO received (no, kind, dataset, date, time, originator, destination, reason) VALUES (?1, ?2, ?3, ?4, ?5, ?6, ?7, ?8)",
        &[
            ValueRef::Int(number(no)),
            ValueRef::Text(kind_text(kind).as_bytes()),
            ValueRef::Text(identity.dataset.octets()),
            ValueRef::Text(identity.date.octets()),
            ValueRef::Text(identity.time.octets()),
            ValueRef::Text(identity.originator.octets()),
            ValueRef::Text(identity.destination.octets()),
            ValueRef::Text(digits.as_slice()),
        ],
    ))
}

// Adds the note of a received Negative End Response.
fn add_note<'x, S: Alter>(
    tx: &mut Transaction<'_, S>,
    no: u64,
    creator: &'x Name<25>,
    text: &'x Text<'x>,
) -> Result<(), Error>
    requires { no < 2 ^ 63 }
    ensures same_reference { tx.new.conn.ghost_name ≡ tx.old.conn.ghost_name }
    ensures performs { Performs (MakesNote no creator.now text.now) S.Store tx.old.conn.now tx.new.conn.now result }
{
    done(tx.execute(
        "INSERT INTO received_note (no, creator, note) VALUES (?1, ?2, ?3)",
        &[
            ValueRef::Int(number(no)),
            ValueRef::Text(creator.octets()),
            ValueRef::Text(text.text().as_bytes()),
        ],
    ))
}

/// Deletes the rows of an incoming file from position `count` on.
pub(crate) fn cut_rows<S: Alter>(
    tx: &mut Transaction<'_, S>,
    no: u64,
    count: u32,
) -> Result<(), Error>
    requires { no < 2 ^ 63 }
    ensures same_reference { tx.new.conn.ghost_name ≡ tx.old.conn.ghost_name }
    ensures performs { Performs (Makes no (CutRows count)) S.Store tx.old.conn.now tx.new.conn.now result }
{
    done(tx.execute(
        "DELETE FROM in_row WHERE no = ?1 AND pos >= ?2",
        params![number(no), count],
    ))
}

// The SQL that adds a row to a file.
fn add_row_text(side: Side) -> &'static str
    ensures { result.now ≡ add_row_text side }
{
    match side {
        Side::Incoming => "INSERT INTO in_row (no, pos, body) VALUES (?1, ?2, ?3)",
        Side::Outgoing => "INSERT INTO out_row (no, pos, body) VALUES (?1, ?2, ?3)",
    }
}

/// Appends rows to a file that has `from` rows.
pub(crate) fn add_rows<S: Alter>(
    tx: &mut Transaction<'_, S>,
    side: Side,
    no: u64,
    from: u32,
    rows: &Rows,
) -> Result<(), Error>
    requires number { no < 2 ^ 63 }
    requires room { from + length rows.now < 2 ^ 32 }
    ensures same_reference { tx.new.conn.ghost_name ≡ tx.old.conn.ghost_name }
    ensures performs { Performs (MakesRows side no from rows.now) S.Store tx.old.conn.now tx.new.conn.now result }
{
    let text = add_row_text(side);
    let mut at = from;
    'rows: for row in rows.as_slice() {
        tx.execute(text, params![number(no), at, row.octets()])?;
        at += 1;
    }
    Ok(())
}

/// Adds a received response. An End-to-End Response has neither creator nor text.
pub(crate) fn add_received<S: Alter>(
    tx: &mut Transaction<'_, S>,
    no: u64,
    response: &NewReceived<'_>,
) -> Result<(), Error>
    requires { no < 2 ^ 63 }
    ensures same_reference { tx.new.conn.ghost_name ≡ tx.old.conn.ghost_name }
    ensures performs { Performs (Makes no (AddReceived response.entry)) S.Store tx.old.conn.now tx.new.conn.now result }
{
    add_noteless(tx, no, response.kind, response.identity, response.reason)?;
    match response.kind {
        ResponseKind::EndResponse => Ok(()),
        ResponseKind::NegativeEndResponse => add_note(tx, no, response.creator, response.text),
    }
}
