//! Tests of what events say of a file: octets in pieces, lines that are no events, lines for people, and how files stand.
#![tactic(auto)]

#[cfg(test)]
mod tests;
