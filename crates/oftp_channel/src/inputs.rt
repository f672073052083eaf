//! Reading octets, numbers and words.

ghost use Rattle.std.specs.Prelude.{◌≡◌, ◌≤◌, ◌<◌, ◌^◌, ◌++◌, ◌∷◌, [], ℕ, List, None, Some, IfOk, IfErr, IfSome, length};
ghost use Rattle.std.specs.Int.{w32, w64, to_be_bytes};
ghost use Rattle.oftp_channel.specs.Inputs.{Gave, Leaves};
ghost use Rattle.oftp_channel.specs.Requests.{spelled_word};
ghost use Rattle.oftp_channel.specs.declared.fault.ReadFault.TheVariants.{Form};

use crate::fault::ReadFault;
use oftp_io::Port;
use std::alloc::Global;
use std::io::Read;

/// The most octets that one read asks for.
const STEP: usize = 16_384;

// Reads this number of octets. Memory is allocated as they arrive.
fn read_octets<R: Read>(
    alloc: Global,
    reader: &mut Port<R>,
    count: usize,
) -> Result<Vec<u8>, ReadFault>
    ensures count { IfOk result (λ octets. length octets.items ≡ count) }
    ensures read { IfOk result (λ octets. Gave R.remaining reader.old reader.new octets.items) }
    ensures form { IfErr result (λ fault. fault ≡ Form → ⊥) }
    ensures leaves { IfErr result (λ fault. Leaves R.remaining reader.old reader.new fault) }
{
    let mut octets = Vec::new(alloc);
    let mut step = [0; STEP];
    'octets: while octets.len() < count {
        let most = (count - octets.len()).min(STEP);
        let part = &mut step[..most];
        let Some(came) = reader.read(part) else {
            return Err(ReadFault::Input);
        };
        if came == 0 {
            return Err(ReadFault::Input);
        }
        octets.extend_from_slice(&part[..came])?;
    }
    Ok(octets)
}

// Reads an octet.
pub(crate) fn read_octet<R: Read>(alloc: Global, reader: &mut Port<R>) -> Result<u8, ReadFault>
    ensures read { IfOk result (λ octet. Gave R.remaining reader.old reader.new (octet ∷ [])) }
    ensures form { IfErr result (λ fault. fault ≡ Form → ⊥) }
    ensures leaves { IfErr result (λ fault. Leaves R.remaining reader.old reader.new fault) }
{
    let octets = read_octets(alloc, reader, 1)?;
    Ok(octets[0])
}

// The number that four octets encode.
pub(crate) fn number_of(octets: [u8; 4]) -> u32
    ensures { to_be_bytes w32 result ≡ octets }
{
    u32::from_be_bytes(octets)
}

// Reads a number of four octets.
pub(crate) fn read_number<R: Read>(alloc: Global, reader: &mut Port<R>) -> Result<u32, ReadFault>
    ensures read { IfOk result (λ number. Gave R.remaining reader.old reader.new (to_be_bytes w32 number)) }
    ensures form { IfErr result (λ fault. fault ≡ Form → ⊥) }
    ensures leaves { IfErr result (λ fault. Leaves R.remaining reader.old reader.new fault) }
{
    let octets = read_octets(alloc, reader, 4)?;
    Ok(number_of([octets[0], octets[1], octets[2], octets[3]]))
}

// The number that eight octets encode.
pub(crate) fn long_of(octets: &[u8]) -> u64
    requires { length octets.now ≡ 8 }
    ensures { to_be_bytes w64 result ≡ octets.now }
{
    u64::from_be_bytes([
        octets[0], octets[1], octets[2], octets[3], octets[4], octets[5], octets[6], octets[7],
    ])
}

// Reads a number of eight octets.
pub(crate) fn read_long<R: Read>(alloc: Global, reader: &mut Port<R>) -> Result<u64, ReadFault>
    ensures read { IfOk result (λ number. Gave R.remaining reader.old reader.new (to_be_bytes w64 number)) }
    ensures form { IfErr result (λ fault. fault ≡ Form → ⊥) }
    ensures leaves { IfErr result (λ fault. Leaves R.remaining reader.old reader.new fault) }
{
    let octets = read_octets(alloc, reader, 8)?;
    Ok(long_of(octets.as_slice()))
}

// Reads a word of at most `most` octets.
pub(crate) fn read_word<R: Read>(
    alloc: Global,
    reader: &mut Port<R>,
    most: usize,
) -> Result<Vec<u8>, ReadFault>
    requires { most < 2 ^ 32 }
    ensures most { IfOk result (λ word. length word.items ≤ most) }
    ensures read { IfOk result (λ word. Gave R.remaining reader.old reader.new (spelled_word word.items)) }
    ensures refused { IfErr result (λ fault. fault ≡ Form → (heard more rest word : List ℕ) → R.remaining reader.old.inner ≡ Some heard
        → length word ≤ most → heard ++ more ≡ spelled_word word ++ rest → ⊥) }
    ensures leaves { IfErr result (λ fault. Leaves R.remaining reader.old reader.new fault) }
{
    let count = read_number(alloc, reader)? as usize;
    if count > most {
        return Err(ReadFault::Form);
    }
    read_octets(alloc, reader, count)
}
