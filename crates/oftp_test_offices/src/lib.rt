//! Tests of each office: the same changes and look-ups with the same results, in memory and over databases.
#![tactic(auto)]

#[cfg(test)]
mod tests;
