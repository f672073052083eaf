//! Tests of what belongs to a file: what commands say of it, octets in pieces, and what a folder of evidence tells.
#![tactic(auto)]

#[cfg(test)]
mod tests;
