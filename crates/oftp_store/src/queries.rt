//! The queries on the database.

pub(crate) mod allocation;
mod answered;
mod by_number;
pub(crate) mod file_by_identity;
pub(crate) mod file_by_number;
mod first_row;
mod header;
pub(crate) mod identity;
mod incoming_list;
mod issued;
pub(crate) mod last_number;
pub(crate) mod lists;
pub(crate) mod next_item;
pub(crate) mod next_number;
mod outgoing_list;
pub(crate) mod progress;
mod received;
mod response;
pub(crate) mod response_match;
pub(crate) mod rows;
pub(crate) mod units;
