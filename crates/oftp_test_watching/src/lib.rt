//! Tests of what is noted of a station's work: the events of changes over an office in memory, of a session's commands, and their lines.
#![tactic(auto)]

#[cfg(test)]
mod tests;
