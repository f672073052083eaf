//! Tests of a station over a database: sessions, operator's calls, lists of jobs, and lives, with a session in pieces.
#![tactic(auto)]

#[cfg(test)]
mod tests;
