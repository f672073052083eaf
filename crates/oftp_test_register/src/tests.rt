//! The tests, by topic.

mod files;
mod registers;
mod streams;
