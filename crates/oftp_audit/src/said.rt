//! What a response may say.

ghost use Rattle.std.specs.Prelude.{◌≡◌};
ghost use Rattle.oftp_audit.specs.Losses.{is_blank, may_say};

use oftp_register::ResponseKind;
use oftp_wire::Count;

// Whether a text is empty.
fn is_blank(octets: &[u8]) -> bool
    ensures { result ≡ is_blank octets.now }
{
    match octets {
        [] => true,
        [_, ..] => false,
    }
}

/// Whether a response of this kind may have this reason, this creator and this text.
pub(crate) fn may_say(kind: ResponseKind, reason: Count<2>, creator: &[u8], text: &str) -> bool
    ensures { result ≡ may_say kind reason creator.now text.now }
{
    match kind {
        ResponseKind::EndResponse => {
            reason.get() == 0 && is_blank(creator) && is_blank(text.as_bytes())
        }
        ResponseKind::NegativeEndResponse => true,
    }
}
