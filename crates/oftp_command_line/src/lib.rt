//! The command line of the station's program: how its arguments are parsed.
#![tactic(auto)]

mod line;

pub use line::{
    Argument, Audit, Backup, Call, Collect, Declaration, Entrance, Evidence, Explain, Feed,
    FeedRole, Fetch, Files, Health, History, Http, Kind, Line, LineFault, Listen, Offer,
    RecordSync, Refuse, Release, Replay, Report, Resend, Run, SessionTerms, Status, Stop, Submit,
    VERSION, Ways, declarations, help, line_of,
};
