//! The lives of a station over the database that a command line names.

ghost use Rattle.std.specs.Prelude.{IfOk};
ghost use Rattle.sqlite.specs.Files.{over_files};
ghost use Rattle.sqlite.specs.WalFiles.{image_at};
ghost use Rattle.oftp_durable.specs.LifeTables.{HasDoneNothing};
ghost use Rattle.oftp_database.specs.Openings.{IsOpened};

use crate::office::DatabaseOffice;
use crate::opening::{open, open_if_free, open_shared};
use oftp_life::Life;
use oftp_outcomes::Fault;
use oftp_store::PathFault;
use oftp_watching::{News, Watched};
use sqlite::{Start, Unknown};

/// The office over a database's files, whose accepted changes are noted if somebody wants to know them.
pub type WatchedOffice<'w> = Watched<'w, DatabaseOffice>;

/// Opens the office of a database as [`open`] does, and begins a life with it. Its accepted changes are noted, if somebody wants to know them.
///
/// # Errors
/// Those of [`open`], with what they leave.
pub fn live<'w>(
    rt: &HostRuntime,
    path: &str,
    patience: u32,
    news: Option<&'w News>,
) -> Result<Life<WatchedOffice<'w>>, Fault>
    ensures begins { IfOk result HasDoneNothing }
    ensures opened { IfOk result (λ l. IsOpened over_files (image_at ⟦<Unknown as Start>⟧) l.began.office.office) }
{
    let office = open(rt, path, patience)?;
    Ok(Life::new(Watched::new(rt.alloc(), office, news)))
}

/// Opens the office as [`open_shared`] does, and begins a life with it as [`live`] does.
///
/// # Errors
/// Those of [`open_shared`], with what they leave.
pub fn live_shared<'w>(
    rt: &HostRuntime,
    path: &str,
    news: Option<&'w News>,
) -> Result<Life<WatchedOffice<'w>>, Fault>
    ensures begins { IfOk result HasDoneNothing }
    ensures opened { IfOk result (λ l. IsOpened over_files (image_at ⟦<Unknown as Start>⟧) l.began.office.office) }
{
    let office = open_shared(rt, path)?;
    Ok(Life::new(Watched::new(rt.alloc(), office, news)))
}

/// Opens the office as [`open_if_free`] does, and begins a life with it as [`live`] does.
///
/// # Errors
/// Those of [`open_if_free`], with what they leave.
pub fn live_if_free<'w>(
    rt: &HostRuntime,
    path: &str,
    patience: u32,
    news: Option<&'w News>,
) -> Result<Life<WatchedOffice<'w>>, PathFault>
    ensures begins { IfOk result HasDoneNothing }
    ensures opened { IfOk result (λ l. IsOpened over_files (image_at ⟦<Unknown as Start>⟧) l.began.office.office) }
{
    let office = open_if_free(rt, path, patience)?;
    Ok(Life::new(Watched::new(rt.alloc(), office, news)))
}
