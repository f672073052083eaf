//! Tests of a crash at each call of a disk: within changes, within a migration and within a session.
#![tactic(auto)]

#[cfg(test)]
mod tests;
