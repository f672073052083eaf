//! SHA-256 (FIPS 180-4) of eight messages side by side, each in a lane of a vector. It takes about half the time of eight digests one after another,
//! and gives the digests of the crate sha2, which is proved against one definition of SHA-256 (specs/ of that crate).
#![tactic(auto)]

mod constants;
mod digests;
mod messages;
mod rounds;
mod words;

pub use digests::{BLOCK_LEN, LANES, digests_of_eight};
pub use messages::add_digests;
