//! What a change needs to know of the file with a number.

ghost use Rattle.std.specs.Prelude.{◌≤◌, ◌<◌, ◌^◌, ℕ, ⊤, Option, None, IfOk, IfSome, IfErr};
ghost use Rattle.sqlite.specs.Tree.{Trees};
ghost use Rattle.oftp_vfile.specs.declared.format.TheConstants.{MOST_ROWS};
ghost use Rattle.oftp_register.specs.Register.{Register};
ghost use Rattle.oftp_tables.specs.Tables.{Tables};
ghost use Rattle.oftp_tables.proofs.SpotLemmas.{entry_far};
ghost use Rattle.oftp_store.specs.FileProgress.{incoming_told, outgoing_told, response_told};
ghost use Rattle.oftp_store.specs.Tells.{OnlyLooks, TellsStored};
ghost use Rattle.oftp_store.specs.Causes.{HasCause};

use super::by_number::find;
use super::header::{IncomingHeader, OutgoingHeader};
use super::rows::count_rows;
use oftp_register::{Dispatch, IncomingState, IssuedResponse, OfficeFault, OutgoingState, Side};
use sqlite::{Alter, Connection};
use std::alloc::Global;

/// What a change needs to know of the file with a number.
pub(crate) trait Progress: Sized {
    // what is read, compared with the file with a number in a register
    ghost told: { Register → ℕ → Option Self → Type 0 };

    // what holds of it whatever the register
    ghost is_within: { Self → Type 0 };

    /// Reads it for the file with a number, if there is one.
    fn find<S: Alter>(
        alloc: Global,
        conn: &mut Connection<S>,
        no: u64,
    ) -> Result<Option<Self>, OfficeFault>
        requires { no < 2 ^ 63 }
        ensures looks { OnlyLooks S.Store conn.old conn.new result }
        ensures answer { TellsStored S.Store (λ r found. told r no found) conn.old conn.new result }
        ensures within { IfOk result (λ found. IfSome found is_within) }
        ensures told { IfErr result (HasCause S.Store conn.old conn.new) };

    ghost beyond: { (r : Register) (db : Trees) (n : ℕ) → Tables r db → 2 ^ 63 ≤ n → told r n None };
}

/// What a change needs to know of an incoming file.
#[derive(Drop)]
pub(crate) struct IncomingProgress {
    pub state: IncomingState,
    /// How many rows were received.
    pub rows: u32,
}

/// What a change needs to know of an outgoing file.
#[derive(Drop)]
pub(crate) struct OutgoingProgress {
    pub mark: u32,
    pub state: OutgoingState,
    /// How many rows it has.
    pub rows: u32,
}

/// The state of an incoming file, and whether its response was sent, if one was issued.
#[derive(Drop)]
pub(crate) struct ResponseProgress {
    pub state: IncomingState,
    pub response: Option<Dispatch>,
}

impl Progress for IncomingProgress {
    ghost told = { incoming_told };

    ghost is_within = { λ progress. progress.rows ≤ MOST_ROWS };

    fn find<S: Alter>(
        alloc: Global,
        conn: &mut Connection<S>,
        no: u64,
    ) -> Result<Option<IncomingProgress>, OfficeFault> {
        let Some(header) = find::<IncomingHeader, S>(alloc, conn, no)? else {
            return Ok(None);
        };
        let rows = count_rows(conn, Side::Incoming, no)?;
        Ok(Some(IncomingProgress {
            state: header.state,
            rows,
        }))
    }

    ghost beyond = { λ r db n tables far. entry_far n r.incoming tables.incoming.few far };
}

impl Progress for OutgoingProgress {
    ghost told = { outgoing_told };

    ghost is_within = { λ progress. progress.rows ≤ MOST_ROWS };

    fn find<S: Alter>(
        alloc: Global,
        conn: &mut Connection<S>,
        no: u64,
    ) -> Result<Option<OutgoingProgress>, OfficeFault> {
        let Some(header) = find::<OutgoingHeader, S>(alloc, conn, no)? else {
            return Ok(None);
        };
        let rows = count_rows(conn, Side::Outgoing, no)?;
        Ok(Some(OutgoingProgress {
            mark: header.mark,
            state: header.state,
            rows,
        }))
    }

    ghost beyond = { λ r db n tables far. entry_far n r.outgoing tables.outgoing.few far };
}

impl Progress for ResponseProgress {
    ghost told = { response_told };

    ghost is_within = { λ _. ⊤ };

    fn find<S: Alter>(
        alloc: Global,
        conn: &mut Connection<S>,
        no: u64,
    ) -> Result<Option<ResponseProgress>, OfficeFault> {
        let Some(header) = find::<IncomingHeader, S>(alloc, conn, no)? else {
            return Ok(None);
        };
        let response = find::<IssuedResponse, S>(alloc, conn, no)?;
        Ok(Some(ResponseProgress {
            state: header.state,
            response: response.map(|response| response.dispatch),
        }))
    }

    ghost beyond = { λ r db n tables far sound. entry_far n r.incoming tables.incoming.few far };
}
