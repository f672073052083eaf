//! What the services share: sockets by address, the socket beside a database, the settings of sessions, and their ports.
#![tactic(auto)]

mod addresses;
mod connection;
mod place;
mod ports;
mod station;

pub use addresses::{bound, is_short, passes, socket_fault};
pub use connection::Connection;
pub use place::SocketPlace;
pub use ports::ports_of;
pub use station::{Keeper, Reporter, Station};
