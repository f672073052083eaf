//! Tests of lives in memory: openings, sessions that go on as octets come, and three stations.
#![tactic(auto)]

#[cfg(test)]
mod tests;
