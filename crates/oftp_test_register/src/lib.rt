//! Tests that can't be data of oftp_test_codec: refused allocations, memory use, streams in a million pieces, and verdicts and changes of
//! registers.
#![tactic(auto)]

#[cfg(test)]
mod tests;
