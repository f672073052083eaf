//! Which lines at the end of the events the page is told.

ghost use Rattle.std.specs.Prelude.{◌≡◌, ◌≤◌, ◌+◌, ℕ, List, length};
ghost use Rattle.oftp_page.specs.declared.tail.TheConstants.{MOST_OF_EVENTS};
ghost use Rattle.oftp_page.specs.Tails.{behind_line, ended_lines, last_octets, lines_told};

/// The octet that ends a line.
const LINE_FEED: u8 = b'\n';

/// How many octets of events the page is told at most.
pub const MOST_OF_EVENTS: usize = 1_048_576;

// What stands behind the first line feed.
fn behind_line(text: &[u8]) -> &[u8]
    ensures { result.now ≡ behind_line text.now }
{
    let mut count = 0;
    while count < text.len() {
        if text[count] == LINE_FEED {
            return &text[count + 1..];
        }
        count += 1;
    }
    &[]
}

// The text up to its last line feed, with that.
fn ended_lines(text: &[u8]) -> &[u8]
    ensures { result.now ≡ ended_lines text.now }
{
    let mut count = text.len();
    while count > 0 {
        if text[count - 1] == LINE_FEED {
            return &text[..count];
        }
        count -= 1;
    }
    &[]
}

/// The lines of a file that are told, by its last octets: one more than are told at most, if the file has so many. No line is cut at its
/// beginning or at its end.
#[tactic(auto, using(crate::proofs::TailLemmas::told_of_many, crate::proofs::TailLemmas::told_of_few, crate::proofs::TailLemmas::many_fit, crate::proofs::TailLemmas::few_fit))]
pub fn lines_told(last: &[u8]) -> &[u8]
    ensures told { (file : List ℕ) → last.now ≡ last_octets (MOST_OF_EVENTS + 1) file → result.now ≡ lines_told file }
    ensures few { length result.now ≤ MOST_OF_EVENTS }
{
    if last.len() > MOST_OF_EVENTS {
        let end = &last[last.len() - MOST_OF_EVENTS - 1..];
        return ended_lines(behind_line(end));
    }
    ended_lines(last)
}
