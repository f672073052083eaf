//! The limits of a schedule.

use crate::words::Words;
use oftp_schedule::connection::{Counted, Limits};

/// The limits in a line: their numbers, in the order of their fields.
pub fn read(line: &mut Words) -> Limits {
    Limits {
        partners: line.number(),
        commands: line.number(),
        requests: line.number(),
        admission: line.number(),
        shelter: line.number(),
        asking: line.number(),
        requesting: line.number(),
        patience: line.number(),
        longest: line.number(),
        farewell: line.number(),
        copying: line.number(),
        dialing: line.number(),
        standing: line.number(),
        rest: line.number(),
        interval: line.number(),
        share: line.number(),
        backlog: line.long(),
        held: line.long(),
        times: line.number(),
        greeting: line.number(),
        jobs: line.long(),
        counted: if line.number() == 0 {
            Counted::Jobs
        } else {
            Counted::Connections
        },
    }
}
