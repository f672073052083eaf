//! The header of an entry.

ghost use Rattle.std.specs.Prelude.{◌≡◌, ◌<◌, ◌≤◌, ◌^◌, ℕ, List, None, IfSome, length};
ghost use Rattle.std.specs.Int.{w32, w64, to_be_bytes};
ghost use Rattle.oftp_record.specs.Entries.{entry_header};
ghost use Rattle.oftp_record.specs.declared.header.TheConstants.{HEADER_LEN, LONGEST_CONTENT};
ghost use Rattle.oftp_record.specs.declared.kind.RecordKind.{RecordKind};

use crate::kind::RecordKind;

/// The length of a header in octets.
pub const HEADER_LEN: usize = 22;

/// The most octets of a content: 128 MiB. The request of an operator's call has 80 MiB at most.
pub const LONGEST_CONTENT: usize = 134_217_728;

/// Where the kind stands.
const KIND_AT: usize = 5;

/// Where the moment stands.
const MOMENT_AT: usize = 6;

/// Where the number of octets of the content stands.
const COUNT_AT: usize = 14;

/// Where it stands that this number lacks of the greatest one.
const LACK_AT: usize = 18;

// What a header says.
#[derive(Clone, Copy, Drop)]
pub(crate) struct Header {
    pub(crate) kind: RecordKind,
    pub(crate) moment: u64,
    // The number of octets of the content.
    pub(crate) count: u32,
}

impl Header {
    // Its octets.
    pub(crate) fn octets(self) -> [u8; HEADER_LEN]
        ensures { result ≡ entry_header self.kind self.moment self.count }
    {
        let m = self.moment.to_be_bytes();
        let c = self.count.to_be_bytes();
        let l = (u32::MAX - self.count).to_be_bytes();
        [
            b'O',
            b'R',
            b'E',
            b'C',
            b'2',
            self.kind.number(),
            m[0],
            m[1],
            m[2],
            m[3],
            m[4],
            m[5],
            m[6],
            m[7],
            c[0],
            c[1],
            c[2],
            c[3],
            l[0],
            l[1],
            l[2],
            l[3],
        ]
    }

    // The header that these octets are, or `None` where they are none.
    pub(crate) fn of(octets: &[u8]) -> Option<Header>
        requires { length octets.now ≡ HEADER_LEN }
        ensures header { IfSome result (λ header. octets.now ≡ entry_header header.kind header.moment header.count) }
        ensures moment { IfSome result (λ header. header.moment < 2 ^ 64) }
        ensures count { IfSome result (λ header. header.count ≤ LONGEST_CONTENT) }
        ensures none { result ≡ None → (kind : RecordKind) (moment count : ℕ) → count ≤ LONGEST_CONTENT
            → octets.now ≡ entry_header kind moment count → ⊥ }
    {
        if &octets[..KIND_AT] != b"OREC2".as_slice() {
            return None;
        }
        let count = short_of(&octets[COUNT_AT..LACK_AT]);
        let lack = short_of(&octets[LACK_AT..]);
        if count as usize > LONGEST_CONTENT || lack != u32::MAX - count {
            return None;
        }
        let kind = RecordKind::of_number(octets[KIND_AT])?;
        let moment = long_of(&octets[MOMENT_AT..COUNT_AT]);
        Some(Header {
            kind,
            moment,
            count,
        })
    }
}

// The number that four octets encode.
fn short_of(octets: &[u8]) -> u32
    requires { length octets.now ≡ 4 }
    ensures { to_be_bytes w32 result ≡ octets.now }
{
    u32::from_be_bytes([octets[0], octets[1], octets[2], octets[3]])
}

// The number that eight octets encode.
fn long_of(octets: &[u8]) -> u64
    requires { length octets.now ≡ 8 }
    ensures octets { to_be_bytes w64 result ≡ octets.now }
    ensures fits { result < 2 ^ 64 }
{
    u64::from_be_bytes([
        octets[0], octets[1], octets[2], octets[3], octets[4], octets[5], octets[6], octets[7],
    ])
}
