//! Tests of records: one of three entries, spelled by hand, is written, read, cut off at each octet, and read with each octet changed. Eight messages
//! and eight entries at once. The passwords of sessions and of books, hidden and shown.
#![tactic(auto)]

#[cfg(test)]
mod books;
#[cfg(test)]
mod eight;
#[cfg(test)]
mod passwords;
#[cfg(test)]
mod tests;
