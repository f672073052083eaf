//! When it is said again for what a command waits.

ghost use Rattle.std.specs.Prelude.{◌≡◌};
ghost use Rattle.oftp_waiting.specs.Waits.{pause_after};

/// After how many seconds it is said for what a command waits, by how often that was said. The station isn't to be asked all the time.
pub fn pause_after(count: u64) -> u64
    ensures { result ≡ pause_after count }
{
    match count {
        0 => 1,
        1 => 2,
        2 => 4,
        3 => 8,
        _ => 16,
    }
}
