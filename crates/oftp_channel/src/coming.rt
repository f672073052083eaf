//! How much of a request is still missing.

ghost use Rattle.std.specs.Prelude.{◌≡◌, ◌<◌, ◌^◌, ◌≤◌, ◌⊎◌, ◌++◌, ℕ, List, [], IfOk, IfErr, replicate};
ghost use Rattle.std.specs.Int.{w32, to_be_bytes};
ghost use Rattle.oftp_channel.specs.Requests.{BeginsNoRequest, Lacks};
ghost use Rattle.oftp_channel.specs.declared.fault.ReadFault.TheVariants.{Form};

use crate::fault::ReadFault;
use crate::inputs::number_of;
use crate::request::{LARGEST_REQUEST, MOST_WORDS};

/// The least number of octets that have to follow the octets heard so far, until these begin with a whole request. It is 0 where they do.
///
/// # Errors
///
/// [`ReadFault::Form`] where no octets could complete a request.
pub fn lacking(heard: &[u8]) -> Result<usize, ReadFault>
    ensures lacks { IfOk result (λ count. Lacks heard.now count) }
    ensures refused { IfErr result (λ fault. (fault ≡ Form) × BeginsNoRequest heard.now) }
{
    let head = begun_at(heard);
    let count = head.least as usize;
    if count > MOST_WORDS {
        return Err(ReadFault::Form);
    }
    let mut lacking = head.missing;
    let mut rest = head.behind;
    let mut left = LARGEST_REQUEST;
    let mut done = 0;
    'words: while done < count {
        let begun = begun_at(rest);
        let length = begun.least as usize;
        if length > left {
            return Err(ReadFault::Form);
        }
        let came = length.min(begun.behind.len());
        lacking += begun.missing + (length - came);
        rest = &begun.behind[came..];
        left -= length;
        done += 1;
    }
    Ok(lacking)
}

// A number of four octets, as far as it has arrived.
#[derive(Drop)]
struct Begun<'a> {
    // The least number whose first octets have arrived.
    least: u32,
    // The number of its octets that haven't.
    missing: usize,
    // The octets after it.
    behind: &'a [u8],
}

// The number at the beginning of the octets.
fn begun_at(octets: &[u8]) -> Begun<'_>
    ensures padded { octets.now ++ replicate result.missing 0 ≡ to_be_bytes w32 result.least ++ result.behind.now }
    ensures least { (number : ℕ) (more rest : List ℕ) → number < 2 ^ 32 → octets.now ++ more ≡ to_be_bytes w32 number ++ rest → result.least ≤ number }
    ensures small { result.least < 2 ^ 32 }
    ensures missing { result.missing ≤ 4 }
    ensures ended { (result.missing ≡ 0) ⊎ (result.behind.now ≡ []) }
{
    match octets {
        [a, b, c, d, behind @ ..] => Begun {
            least: number_of([*a, *b, *c, *d]),
            missing: 0,
            behind,
        },
        [a, b, c] => begun_by([*a, *b, *c, 0], 1),
        [a, b] => begun_by([*a, *b, 0, 0], 2),
        [a] => begun_by([*a, 0, 0, 0], 3),
        [] => begun_by([0; 4], 4),
    }
}

// A number without its last octets, which are 0 in the least.
fn begun_by(octets: [u8; 4], missing: usize) -> Begun<'static>
    ensures least { to_be_bytes w32 result.least ≡ octets }
    ensures missing { result.missing ≡ missing }
    ensures behind { result.behind.now ≡ [] }
{
    Begun {
        least: number_of(octets),
        missing,
        behind: &[],
    }
}
