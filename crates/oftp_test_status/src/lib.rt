//! Tests of how a station stands: moments, counters, texts, verdicts, and what is open.
#![tactic(auto)]

#[cfg(test)]
mod tests;
