//! Which rows are told: those whose fields are as all conditions say.

ghost use Rattle.std.specs.Prelude.{◌≡◌, map};
ghost use Rattle.std.specs.List.{list_all};
ghost use Rattle.oftp_filters.specs.Rows.{begins_date, is_before, is_digit, is_met, meets};

/// What the field of a row has to be.
#[derive(Clone, Copy, Debug, PartialEq, Eq)]
pub enum Test<'a> {
    /// This text.
    Is(&'a [u8]),
    /// This text, or one that comes behind it in the order of their octets.
    Since(&'a [u8]),
}

/// A condition of a row.
#[derive(Clone, Copy, Debug, PartialEq, Eq)]
pub struct Condition<'a> {
    /// The place of the field that it is about; the first has 0.
    pub field: usize,
    /// What that field has to be.
    pub test: Test<'a>,
}

/// Whether a row with these fields meets all conditions. One about a field that the row hasn't isn't met.
pub fn keeps(conditions: &[Condition<'_>], fields: &[&[u8]]) -> bool
    ensures { result ≡ list_all (meets (map (λ f. f.now) fields.now)) conditions.now }
{
    conditions
        .iter()
        .all(|condition| is_met(*condition, fields))
}

/// Whether a row with these fields meets a condition.
fn is_met(condition: Condition<'_>, fields: &[&[u8]]) -> bool
    ensures { result ≡ meets (map (λ f. f.now) fields.now) condition.entry }
{
    match fields.get(condition.field) {
        Some(field) => passes(condition.test, field),
        None => false,
    }
}

/// Whether a field passes a test.
fn passes(test: Test<'_>, field: &[u8]) -> bool
    ensures { result ≡ is_met test.entry field.now }
{
    match test {
        Test::Is(text) => field == text,
        Test::Since(text) => !is_before(field, text),
    }
}

/// Whether a text comes before another one in the order of their octets.
fn is_before(text: &[u8], other: &[u8]) -> bool
    ensures { result ≡ is_before text.now other.now }
{
    let [second, other @ ..] = other else {
        return false;
    };
    let [first, text @ ..] = text else {
        return true;
    };
    if first == second {
        is_before(text, other)
    } else {
        first < second
    }
}

/// Whether a text is a date stamp, CCYYMMDD (RFC 5024, section 5.3.3), or the beginning of one: at most eight digits.
pub fn begins_date(text: &[u8]) -> bool
    ensures { result ≡ begins_date text.now }
{
    if text.len() > 8 {
        return false;
    }
    all_digits(text)
}

/// Whether all octets are digits.
fn all_digits(text: &[u8]) -> bool
    ensures { result ≡ list_all is_digit text.now }
{
    text.iter().all(|octet| octet.is_ascii_digit())
}
