//! The sizes of every service: its places, how long things take in milliseconds, and how much is held.

use crate::connection::{Counted, Limits};

/// The limits of a service that sets none of its own: without a clock, a last job or an end of waits.
pub const SIZES: Limits = Limits {
    // How many partners, commands and clients over HTTP are connected at once. Whoever else comes waits in the system's queue.
    partners: 128,
    commands: 256,
    requests: 64,
    admission: u32::MAX,
    shelter: 5_000,
    asking: 30_000,
    requesting: 10_000,
    patience: u32::MAX,
    longest: u32::MAX,
    farewell: 5_000,
    copying: 30_000,
    dialing: u32::MAX,
    standing: 5_000,
    rest: 1_000,
    interval: 0,
    share: 65_536,
    backlog: 2_097_152,
    held: 67_108_864,
    // After that a call fails.
    times: 10,
    // SSRM in a frame.
    greeting: 23,
    jobs: 0,
    counted: Counted::Jobs,
};
