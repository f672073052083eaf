//! Facts as lines: a name, and what it is.

ghost use Rattle.std.specs.Prelude.{◌≡◌, ◌++◌, IfOk, OnOk, string_bytes};
ghost use Rattle.oftp_notes.specs.Seen.{seen_line};
ghost use Rattle.oftp_evidence.specs.Facts.{fact_text, fact_texts, seen_lines};

use oftp_notes::seen_line;
use std::alloc::{AllocError, Global};

/// What a line says.
#[derive(Clone, Copy)]
pub(crate) enum Fact<'a> {
    /// It is the line.
    Line(&'a str),
    /// A text with its name.
    Text(&'a str, &'a str),
    /// A number with its name.
    Number(&'a str, u64),
}

// What a fact says.
fn fact_text(alloc: Global, fact: Fact<'_>) -> Result<String, AllocError>
    ensures { IfOk result (λ text. string_bytes text ≡ fact_text fact.entry) }
{
    match fact {
        Fact::Line(text) => String::from_str(alloc, text),
        Fact::Text(name, text) => format!(in alloc; "{name}: {text}"),
        Fact::Number(name, number) => format!(in alloc; "{name}: {number}"),
    }
}

/// Appends the line of a text.
pub(crate) fn add_line(alloc: Global, line: &str, text: &mut String) -> Result<(), AllocError>
    ensures { OnOk result (string_bytes text.new ≡ string_bytes text.old ++ seen_line line.now) }
{
    let line = seen_line(alloc, line)?;
    text.push_str(line.as_str())
}

// Appends the line of a fact.
fn add_fact(alloc: Global, fact: Fact<'_>, text: &mut String) -> Result<(), AllocError>
    ensures { OnOk result (string_bytes text.new ≡ string_bytes text.old ++ seen_line (fact_text fact.entry)) }
{
    let line = fact_text(alloc, fact)?;
    add_line(alloc, line.as_str(), text)
}

/// Appends the lines of facts.
pub(crate) fn add_facts(
    alloc: Global,
    facts: &[Fact<'_>],
    text: &mut String,
) -> Result<(), AllocError>
    ensures { OnOk result (string_bytes text.new ≡ string_bytes text.old ++ seen_lines (fact_texts facts.now)) }
{
    match facts {
        [] => Ok(()),
        [first, rest @ ..] => {
            add_fact(alloc, *first, text)?;
            add_facts(alloc, rest, text)
        }
    }
}
