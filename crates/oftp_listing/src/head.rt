//! The head of an HTTP request.

ghost use Rattle.std.specs.Prelude.{◌↔◌, ◌<◌, IsTrue, length};
ghost use Rattle.oftp_listing.specs.InsideQuery.{IsBegun, IsHeadOf};

/// The most octets of a request over HTTP.
pub const LONGEST_HEAD: usize = 8_192;

/// The most fields of a head.
pub(crate) const MOST_FIELDS: usize = 64;

/// The result of reading a head.
#[derive(Drop)]
pub(crate) enum Head<'a> {
    /// The octets are the beginning of a head.
    Unfinished,
    /// The octets aren't a head that is accepted.
    Refused,
    /// The octets begin with a whole head.
    Whole {
        /// The method, such as GET.
        method: &'a [u8],
        /// The target.
        target: &'a str,
    },
}

// Whether a request has too many octets.
fn is_long(request: &[u8]) -> bool
    ensures { IsTrue result ↔ (LONGEST_HEAD < length request.now) }
{
    request.len() > LONGEST_HEAD
}

/// The whole head of a request, with this method and this target.
pub(crate) fn whole_head<'a>(request: &[u8], method: &'a [u8], target: &'a [u8]) -> Head<'a>
    ensures { IsHeadOf request.now method.now target.now result }
{
    if is_long(request) {
        return Head::Refused;
    }
    match str::from_utf8(target) {
        Ok(target) => Head::Whole { method, target },
        Err(_) => Head::Refused,
    }
}

/// The head of a request of which only the beginning is there.
pub(crate) fn begun_head(request: &[u8]) -> Head<'static>
    ensures { IsBegun request.now result }
{
    if is_long(request) {
        Head::Refused
    } else {
        Head::Unfinished
    }
}
