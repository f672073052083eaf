//! Writing a folder of evidence.

use crate::bundle::Bundle;
use crate::searching::{FoundSession, Search, find_sessions};
use oftp_command_line::Evidence;
use oftp_engine::{Port, Refusal, RunFault, write_content};
use oftp_events::Direction;
use oftp_evidence::{
    FileFacts, ResponseFacts, SessionFacts, StationFacts, readme, response_in, verify_script,
};
use oftp_outcomes::{DONE, FAILED, Fault, Outcome, tell, write_line};
use oftp_recording::moment_text;
use oftp_register::{Identity, IncomingEntry, Office, OutgoingEntry, ResponseKind, Side};
use oftp_requests::{GONE, entry_to_fetch, standing_in, standing_out, write_outgoing};
use oftp_status::Standing;
use oftp_vfile::Format;
use oftp_wire::Count;
use std::alloc::{AllocError, Global};
use std::io::Write;

/// What stands for what the record doesn't tell.
const UNTOLD: &str = "not in the record";

/// The name of the file that has the content.
const CONTENT: &str = "content";

/// The response to a file, as the register has it.
#[derive(Drop)]
struct Answered {
    kind: ResponseKind,
    reason: Count<2>,
    text: String,
}

/// A file, as the register has it.
#[derive(Drop)]
struct Filed {
    side: Side,
    no: u64,
    identity: Identity,
    format: Format,
    longest: u32,
    rows: u64,
    units: u64,
    description: String,
    response: Option<Answered>,
    standing: Standing,
}

/// Writes a folder of what proves the delivery of a file, by the register of an office and a record, and then its line. It is refused if the register has
/// no such file, or has not all of it, or if no session of the record says anything of it. A record that is cut off or was changed is told of, and the
/// folder has no sums then. Returns the exit status.
///
/// # Errors
/// [`Fault::File`] if the record can't be read, the folder is there, or it can't be written; [`Fault::Run`] if the office failed, or `out` returned an
/// error; [`Fault::MEMORY`]. The folder has no sums then, unless `out` returned the error.
pub fn write_evidence<O: Office>(
    rt: &HostRuntime,
    line: &Evidence<'_>,
    office: &mut O,
    out: &mut impl Write,
) -> Result<u8, Fault> {
    let filed = match filed_of(rt.alloc(), office, line)? {
        Ok(filed) => filed,
        Err(refusal) => return tell(Outcome::Refused(refusal), out),
    };
    let mut bundle = Bundle::make(rt, line.to)?;
    let search = find_sessions(rt, line.folder, line.side, &filed.identity, &mut bundle)?;
    if let Some(told) = &search.broken {
        return tell_broken(told.as_str(), out);
    }
    if search.found.is_empty() {
        bundle.remove();
        return tell(Outcome::Refused(Refusal::Unknown), out);
    }
    fill(line.folder, office, &filed, &search, &mut bundle)?;
    tell_done(rt.alloc(), line.no, out)
}

/// Writes what is wrong with a record. Returns the exit status.
fn tell_broken(told: &str, out: &mut impl Write) -> Result<u8, Fault> {
    write_line(out, &told)?;
    Ok(FAILED)
}

/// Writes the line of a folder that is whole. Returns the exit status.
fn tell_done(alloc: Global, no: u64, out: &mut impl Write) -> Result<u8, Fault> {
    let line = format!(in alloc; "done: evidence {no}")?;
    write_line(out, &line.as_str())?;
    Ok(DONE)
}

/// Writes what the folder has beside its sessions.
fn fill<O: Office>(
    record: &str,
    office: &mut O,
    filed: &Filed,
    search: &Search,
    bundle: &mut Bundle<'_>,
) -> Result<(), Fault> {
    let alloc = bundle.alloc();
    let sum = write_local(alloc, office, filed, bundle)?;
    bundle.copy_days(record, search.findings.days)?;
    write_texts(alloc, filed, search, sum.as_str(), bundle)?;
    bundle.seal()
}

/// Looks up the file that a line names, or why it is refused.
fn filed_of<O: Office>(
    alloc: Global,
    office: &mut O,
    line: &Evidence<'_>,
) -> Result<Result<Filed, Refusal>, Fault> {
    match line.side {
        Side::Incoming => filed_in(alloc, office, line.no),
        Side::Outgoing => filed_out(alloc, office, line.no),
    }
}

/// Looks up a whole incoming file.
fn filed_in<O: Office>(
    alloc: Global,
    office: &mut O,
    no: u64,
) -> Result<Result<Filed, Refusal>, Fault> {
    match entry_to_fetch(office, no)? {
        Ok(entry) => {
            let units = units_of(office, Side::Incoming, no)?;
            let filed = filed_by(alloc, &entry, units)?;
            Ok(Ok(filed))
        }
        Err(refusal) => Ok(Err(refusal)),
    }
}

/// Looks up an outgoing file.
fn filed_out<O: Office>(
    alloc: Global,
    office: &mut O,
    no: u64,
) -> Result<Result<Filed, Refusal>, Fault> {
    match office.out_by_no(no) {
        Ok(Some(entry)) => {
            let units = units_of(office, Side::Outgoing, no)?;
            let response = received_for(alloc, office, &entry)?;
            let filed = sent_by(alloc, &entry, units, response)?;
            Ok(Ok(filed))
        }
        Ok(None) => Ok(Err(Refusal::Unknown)),
        Err(_) => Err(GONE),
    }
}

/// How many octets a file has.
fn units_of<O: Office>(office: &mut O, side: Side, no: u64) -> Result<u64, Fault> {
    match office.units_of(side, no) {
        Ok(units) => Ok(units),
        Err(_) => Err(GONE),
    }
}

/// An incoming file with so many octets.
fn filed_by(alloc: Global, entry: &IncomingEntry, units: u64) -> Result<Filed, AllocError> {
    let response = match &entry.response {
        Some(issued) => {
            let text = String::from_str(alloc, issued.text.as_str())?;
            let kind = issued.kind;
            let reason = issued.reason;
            Some(Answered { kind, reason, text })
        }
        None => None,
    };
    Ok(Filed {
        side: Side::Incoming,
        no: entry.no,
        identity: entry.identity.again(),
        format: entry.format,
        longest: entry.longest,
        rows: entry.rows,
        units,
        description: String::from_str(alloc, entry.description.as_str())?,
        response,
        standing: standing_in(entry),
    })
}

/// An outgoing file with so many octets, and its response.
fn sent_by(
    alloc: Global,
    entry: &OutgoingEntry,
    units: u64,
    response: Option<Answered>,
) -> Result<Filed, AllocError> {
    let description = String::from_str(alloc, entry.description.as_str())?;
    Ok(Filed {
        side: Side::Outgoing,
        no: entry.no,
        identity: entry.identity.again(),
        format: entry.format,
        longest: entry.longest,
        rows: entry.rows,
        units,
        description,
        response,
        standing: standing_out(entry.state),
    })
}

/// Looks up the response to an outgoing file, if it has one.
fn received_for<O: Office>(
    alloc: Global,
    office: &mut O,
    entry: &OutgoingEntry,
) -> Result<Option<Answered>, Fault> {
    let Ok(entries) = office.list_received() else {
        return Err(GONE);
    };
    let Some(received) = response_in(entries.as_slice(), entry) else {
        return Ok(None);
    };
    let response = &received.response;
    Ok(Some(Answered {
        kind: response.kind,
        reason: response.reason,
        text: String::from_str(alloc, response.text.as_str())?,
    }))
}

/// Writes the content of a file in its local form. Returns its sum.
fn write_local<O: Office>(
    alloc: Global,
    office: &mut O,
    filed: &Filed,
    bundle: &mut Bundle<'_>,
) -> Result<String, Fault> {
    match filed.side {
        Side::Incoming => write_incoming(alloc, office, filed.no, bundle),
        Side::Outgoing => write_sent(alloc, office, filed.no, bundle),
    }
}

/// Writes the content of an incoming file.
fn write_incoming<O: Office>(
    alloc: Global,
    office: &mut O,
    no: u64,
    bundle: &mut Bundle<'_>,
) -> Result<String, Fault> {
    let Ok(Some(entry)) = office.in_by_no(no) else {
        return Err(GONE);
    };
    let mut port = Port::new(bundle.begin(CONTENT)?, 0);
    match write_content(alloc, office, &entry, &mut port) {
        Ok(()) => bundle.end(CONTENT, port.into_inner()),
        Err(fault) => Err(unwritten(Fault::Run(fault))),
    }
}

/// Writes the content of an outgoing file.
fn write_sent<O: Office>(
    alloc: Global,
    office: &mut O,
    no: u64,
    bundle: &mut Bundle<'_>,
) -> Result<String, Fault> {
    let mut file = bundle.begin(CONTENT)?;
    match write_outgoing(alloc, office, no, &mut file) {
        Ok(_) => bundle.end(CONTENT, file),
        Err(fault) => Err(unwritten(fault)),
    }
}

/// The error for a content that isn't written: what can't be written is a file here.
fn unwritten(fault: Fault) -> Fault {
    match fault {
        Fault::Run(RunFault::Write) => Fault::File,
        other => other,
    }
}

/// Writes what tells of the folder, and what checks it.
fn write_texts(
    alloc: Global,
    filed: &Filed,
    search: &Search,
    sum: &str,
    bundle: &mut Bundle<'_>,
) -> Result<(), Fault> {
    let readme = readme_of(alloc, filed, search, sum)?;
    bundle.put("README", readme.as_bytes())?;
    bundle.put("verify.sh", verify_script().as_bytes())
}

/// What is told of the folder.
fn readme_of(
    alloc: Global,
    filed: &Filed,
    search: &Search,
    sum: &str,
) -> Result<String, AllocError> {
    let moment = answered_text(alloc, search.findings.answered)?;
    let sessions = facts_of(alloc, search.found.as_slice())?;
    readme(
        alloc,
        &filed.facts(sum),
        &filed.answer(moment.as_str()),
        sessions.as_slice(),
        &station_of(search.found.last()),
        filed.standing,
    )
}

/// When a file was answered, as text.
fn answered_text(alloc: Global, moment: Option<u64>) -> Result<String, AllocError> {
    match moment {
        Some(moment) => moment_text(alloc, moment),
        None => String::from_str(alloc, UNTOLD),
    }
}

/// What is told of each session.
fn facts_of<'a>(
    alloc: Global,
    found: &'a [FoundSession],
) -> Result<Vec<SessionFacts<'a>>, AllocError> {
    let mut facts = Vec::new(alloc);
    for session in found {
        facts.push(session.facts())?;
    }
    Ok(facts)
}

/// What is told of the station, by the last session.
fn station_of(last: Option<&FoundSession>) -> StationFacts<'_> {
    match last {
        Some(session) => {
            let (version, sources) = session.program();
            StationFacts {
                version,
                sources: sources.unwrap_or(UNTOLD),
                book: session.book.as_str(),
            }
        }
        None => StationFacts {
            version: UNTOLD,
            sources: UNTOLD,
            book: UNTOLD,
        },
    }
}

impl Filed {
    /// What is told of it, whose content has this sum.
    fn facts<'a>(&'a self, sum: &'a str) -> FileFacts<'a> {
        FileFacts {
            way: match self.side {
                Side::Incoming => Direction::In,
                Side::Outgoing => Direction::Out,
            },
            no: self.no,
            identity: &self.identity,
            format: self.format,
            longest: self.longest,
            rows: self.rows,
            units: self.units,
            description: self.description.as_str(),
            digest: sum,
        }
    }

    /// What is told of its response, if it has one, which went or came at this moment.
    fn answer<'a>(&'a self, moment: &'a str) -> Option<ResponseFacts<'a>> {
        match &self.response {
            Some(response) => Some(ResponseFacts {
                kind: response.kind,
                moment,
                reason: response.reason,
                text: response.text.as_str(),
            }),
            None => None,
        }
    }
}
