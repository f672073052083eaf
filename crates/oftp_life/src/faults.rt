//! How an office that uses another counts its errors, modulo 2^64.

ghost use Rattle.std.specs.Prelude.{◌≡◌};
ghost use Rattle.oftp_register.specs.Offices.{Counts, next_count};

use oftp_register::OfficeFault;

/// Counts the error of a call, if it returned one. A refusal isn't counted.
pub fn count<T>(faults: &mut u64, found: &Result<T, OfficeFault>)
    ensures { Counts faults.old faults.new found.now }
{
    match found {
        Ok(_) | Err(OfficeFault::Refused(_)) => {}
        Err(OfficeFault::Store | OfficeFault::Memory) => *faults = faults.wrapping_add(1),
    }
}

/// The error of an office that isn't asked. It is counted.
pub fn lost(faults: &mut u64) -> OfficeFault
    ensures fault { result ≡ OfficeFault.Store }
    ensures counts { faults.new ≡ next_count faults.old }
{
    *faults = faults.wrapping_add(1);
    OfficeFault::Store
}
