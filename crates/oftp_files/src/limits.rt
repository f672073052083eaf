//! The limits of the program.

use oftp_register::MOST_FILES;
use oftp_vfile::Limits;

/// The limits of a register: as many files as an office may hold, of 64 MiB each.
pub const LIMITS: Limits = Limits {
    files: MOST_FILES,
    octets: 67_108_864,
};
