//! The disk fails at a call, and the database is opened again from what it left.

mod serving;
mod stops;
