//! Patterns of names: `*` is any text, `?` any octet, and each other octet itself.

ghost use Rattle.std.specs.Prelude.{◌≡◌};
ghost use Rattle.oftp_filters.specs.Patterns.{matches};

/// The sign for any text.
const ANY: u8 = b'*';

/// The sign for any octet.
const ONE: u8 = b'?';

/// Whether a text matches a pattern, from its first octet to its last.
pub fn matches(pattern: &[u8], text: &[u8]) -> bool
    ensures { result ≡ matches pattern.now text.now }
{
    let [sign, rest @ ..] = pattern else {
        return text.is_empty();
    };
    if *sign == ANY {
        let mut ending = text;
        while let [_, shorter @ ..] = ending {
            if matches(rest, ending) {
                return true;
            }
            ending = shorter;
        }
        return matches(rest, &[]);
    }
    match text {
        [octet, behind @ ..] if *sign == ONE || sign == octet => matches(rest, behind),
        _ => false,
    }
}
