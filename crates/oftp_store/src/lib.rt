//! The office over a SQLite database: [`SqlOffice`] keeps a register in the tables of schema 2.
#![tactic(auto)]

mod changes;
mod file;
mod office;
mod open;
mod path;
mod queries;

pub use file::{PathRefused, migrate_at, migrate_over, open_at, open_over};
pub use office::SqlOffice;
pub use oftp_tables::StoreFault;
pub use open::OpenRefused;
pub use path::{PathFault, Unopened, connect};
