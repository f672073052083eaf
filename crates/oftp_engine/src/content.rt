//! Writing the content of an incoming file, as `fetch` needs it.

ghost use Rattle.std.specs.Prelude.{◌≡◌, ◌≢◌, ◌+◌, ◌≤◌, ◌↔◌, IfErr, IfOk, IsTrue};
ghost use Rattle.oftp_io.specs.Ports.{Puts};
ghost use Rattle.oftp_engine.specs.Fetched.{FetchedOut, FetchesFrom, fetched, piece_of};
ghost use Rattle.oftp_engine.specs.InsideContent.{IsPiece};
ghost use Rattle.oftp_engine.specs.Served.{WriterTold};
ghost use Rattle.oftp_engine.specs.Serving.{OnCleanStore, WasClean};
ghost use Rattle.oftp_engine.specs.declared.serving.RunFault.TheVariants as RunFault;

use crate::serving::RunFault;
use oftp_io::Port;
use oftp_register::{IncomingEntry, Office, Side, are_full_rows, is_file};
use oftp_vfile::{Row, VFile};
use std::alloc::Global;
use std::io::Write;

/// The number of rows in memory at a time.
const WINDOW: u64 = 64;

/// Writes the local form of an incoming file, some rows at a time. The register is unchanged.
///
/// # Errors
///
/// - [`RunFault::Office`]: the office returned an error, or rows that aren't those of the file. An office that has the file returns no such
///   rows.
/// - [`RunFault::Write`]: the writer returned an error.
/// - [`RunFault::Memory`]: out of memory.
///
/// After an error a beginning of the file is written.
#[tactic(auto, using(crate::proofs::Fetching::fetched_none, crate::proofs::Fetching::fetched_whole, crate::proofs::Fetching::fetches_err, crate::proofs::Fetching::unwritten))]
pub fn write_content<O: Office, W: Write>(
    alloc: Global,
    office: &mut O,
    entry: &IncomingEntry,
    out: &mut Port<W>,
) -> Result<(), RunFault>
    ensures text { OnCleanStore (O.view office.old) (O.view office.new)
        (FetchedOut (fetched (O.view office.old).register entry.now) (W.contents out.old.inner) (W.contents out.new.inner) result) }
    ensures out { Puts W.contents out.old out.new }
    ensures writer { WriterTold out.old out.new result }
    ensures clean { WasClean (O.view office.old) (O.view office.new) }
    ensures office { FetchesFrom entry.now (O.view office.old) (O.view office.new) result }
{
    let mut from = 0;
    'rows: while from < entry.rows {
        let most = WINDOW.min(entry.rows - from);
        let piece = piece_of(alloc, office, entry, from, most)?;
        if !out.send(piece.as_slice()) {
            return Err(RunFault::Write);
        }
        from += most;
    }
    Ok(())
}

// The local form of `most` rows of a file from row `from` on. Rows that aren't those of the file are an error of the office.
#[tactic(auto, using(crate::proofs::Pieces::answered_once, crate::proofs::Pieces::misfits, crate::proofs::Pieces::unanswered_once))]
fn piece_of<O: Office>(
    alloc: Global,
    office: &mut O,
    entry: &IncomingEntry,
    from: u64,
    most: u64,
) -> Result<Vec<u8>, RunFault>
    requires { from + most ≤ entry.now.rows }
    ensures piece { OnCleanStore (O.view office.old) (O.view office.new)
        (IfOk result (λ piece. piece.items ≡ piece_of (O.view office.old).register entry.now from most)) }
    ensures unwritten { IfErr result (λ fault. fault ≢ RunFault.Write) }
    ensures clean { WasClean (O.view office.old) (O.view office.new) }
    ensures office { FetchesFrom entry.now (O.view office.old) (O.view office.new) result }
{
    let Ok(rows) = office.rows_of(Side::Incoming, entry.no, from, most) else {
        return Err(RunFault::Office);
    };
    if !is_piece(entry, rows.as_slice(), from, most) {
        return Err(RunFault::Office);
    }
    let piece = VFile {
        format: entry.format,
        longest: entry.longest,
        rows,
    };
    match piece.to_local(alloc) {
        Ok(octets) => Ok(octets),
        Err(_) => Err(RunFault::Memory),
    }
}

// Whether these are `most` rows of a file from row `from` on. Only the last block of a file may be shorter than the others.
fn is_piece(entry: &IncomingEntry, rows: &[Row], from: u64, most: u64) -> bool
    requires { from + most ≤ entry.now.rows }
    ensures { IsTrue result ↔ IsPiece entry.now from most rows.now }
{
    rows.len() as u64 == most
        && is_file(entry.format, entry.longest, rows)
        && (most == entry.rows - from || are_full_rows(entry.format, entry.longest, rows))
}
