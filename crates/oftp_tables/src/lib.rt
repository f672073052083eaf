//! The tables in which an office keeps its register in a SQLite database. It has how they are made and recognised, what they hold of a
//! register, and how their rows are queried and read.
//!
//! The definitions are in `specs/`, in this order. [`Schema`](../specs/Schema.antt) has the tables as data,
//! [`Transactions`](../specs/Transactions.antt) says what calls do to a connection, and [`Making`](../specs/Making.antt) how the tables
//! are made. [`Tables`](../specs/Tables.antt) says which rows represent a register, and [`Statements`](../specs/Statements.antt) what
//! statements do to these tables. [`Stands`](../specs/Stands.antt) and [`Opening`](../specs/Opening.antt) say which register a store has
//! when it is opened. [`Migration`](../specs/Migration.antt) and [`MigrationSteps`](../specs/MigrationSteps.antt) say what a migration
//! does to schema 1.
#![tactic(auto)]

mod about;
mod fault;
mod make;
mod migrate;
mod open;
mod query;
mod shape;
mod values;
mod wanted;

pub use fault::{StoreFault, store_fault_of};
pub use migrate::migrate_tables;
pub use open::open_tables;
pub use query::{ask, number, office_fault_of};
pub use values::{
    body_at, digits_at, dispatch_at, format_at, identity_at, incoming_state_at, kind_at, name_at,
    no_at, number_at, outgoing_state_at, reason_at, text_at,
};
