//! Lives over an office in memory. The octets are written by hand from RFC 5024.

mod growing;
mod lives;
mod openings;
mod three_stations;
