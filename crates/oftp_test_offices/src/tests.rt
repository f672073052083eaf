//! The same list of changes for each office. Each accepts or refuses the same changes, and then returns the same from its look-ups.

mod answers;
mod openings;
mod stories;
mod two_thousand;
