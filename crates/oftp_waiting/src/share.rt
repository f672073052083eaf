//! How much of a file came or went.

ghost use Rattle.std.specs.Prelude.{◌≡◌};
ghost use Rattle.oftp_waiting.specs.Waits.{share_of};

/// How many of a hundred parts of a file came or went, if so many octets did. The file has so many blocks of 1,024 octets.
pub fn share_of(octets: u64, blocks: u64) -> u64
    ensures { result ≡ share_of octets blocks }
{
    if blocks == 0 {
        return 100;
    }
    let share = octets as u128 * 100 / (blocks as u128 * 1_024);
    share.min(100) as u64
}
