//! Tests of stations in memory: one alone, two with each other, operators, and lists of jobs.
#![tactic(auto)]

#[cfg(test)]
mod tests;
