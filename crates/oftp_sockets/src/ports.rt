//! The ports of a session.

use oftp_engine::Port;

/// How many octets are read in one session, at most.
const LONGEST_INPUT: u64 = 1_099_511_627_776;

/// The ports for what the partner sends, and for what it receives. The first gives at most 1 TiB in one session.
pub fn ports_of<R, W>(input: R, output: W) -> (Port<R>, Port<W>) {
    (Port::new(input, LONGEST_INPUT), Port::new(output, 0))
}
