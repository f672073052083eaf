//! The values that words of a request stand for.

ghost use Rattle.std.specs.Prelude.{◌≡◌, ◌<◌, ◌^◌, ℕ, None, IfSome};
ghost use Rattle.oftp_vfile.specs.declared.format.Format.{Format};
ghost use Rattle.oftp_listing.specs.declared.reports.ReportKind.{ReportKind};
ghost use Rattle.oftp_channel.specs.Asked.{form_code, format_code, haste_code, number_word, octet_word, report_code, request_code, tracing_code};
ghost use Rattle.oftp_channel.specs.InsideAsked.{IsNoNumber, IsNoText};
ghost use Rattle.oftp_channel.specs.declared.asking.Form.{Form};
ghost use Rattle.oftp_channel.specs.declared.asking.Haste.{Haste};
ghost use Rattle.oftp_channel.specs.declared.asking.Tracing.{Tracing};
ghost use Rattle.oftp_channel.specs.declared.codes.RequestKind.{RequestKind};

use crate::asking::{Form, Haste, Tracing};
use crate::codes::{RequestKind, format_of, report_of};
use crate::inputs::long_of;
use oftp_listing::ReportKind;
use oftp_vfile::Format;
use std::str;

// The number that a word spells.
pub(crate) fn number_in(word: &[u8]) -> Option<u64>
    ensures some { IfSome result (λ number. number_word number ≡ word.now) }
    ensures none { result ≡ None → IsNoNumber word.now }
{
    if word.len() == 8 {
        Some(long_of(word))
    } else {
        None
    }
}

// The number of 32 bits that a word spells.
pub(crate) fn small_number_in(word: &[u8]) -> Option<u32>
    ensures some { IfSome result (λ number. number_word number ≡ word.now) }
    ensures none { result ≡ None → (number : ℕ) → number < 2 ^ 32 → number_word number ≡ word.now → ⊥ }
{
    u32::try_from(number_in(word)?).ok()
}

// The text that a word spells.
pub(crate) fn text_in(word: &[u8]) -> Option<&str>
    ensures some { IfSome result (λ text. text.now ≡ word.now) }
    ensures none { result ≡ None → IsNoText word.now }
{
    str::from_utf8(word).ok()
}

// The octet of a word of one octet.
fn octet_in(word: &[u8]) -> Option<u8>
    ensures some { IfSome result (λ octet. octet_word octet ≡ word.now) }
    ensures none { result ≡ None → (octet : ℕ) → octet_word octet ≡ word.now → ⊥ }
{
    match word {
        [octet] => Some(*octet),
        _ => None,
    }
}

// The kind of request that a word stands for.
pub(crate) fn kind_in(word: &[u8]) -> Option<RequestKind>
    ensures some { IfSome result (λ kind. octet_word (request_code kind) ≡ word.now) }
    ensures none { result ≡ None → (kind : RequestKind) → octet_word (request_code kind) ≡ word.now → ⊥ }
{
    RequestKind::of_code(octet_in(word)?)
}

// The format that a word stands for.
pub(crate) fn format_in(word: &[u8]) -> Option<Format>
    ensures some { IfSome result (λ format. octet_word (format_code format) ≡ word.now) }
    ensures none { result ≡ None → (format : Format) → octet_word (format_code format) ≡ word.now → ⊥ }
{
    format_of(octet_in(word)?)
}

// The subject of a report that a word stands for.
pub(crate) fn report_in(word: &[u8]) -> Option<ReportKind>
    ensures some { IfSome result (λ kind. octet_word (report_code kind) ≡ word.now) }
    ensures none { result ≡ None → (kind : ReportKind) → octet_word (report_code kind) ≡ word.now → ⊥ }
{
    report_of(octet_in(word)?)
}

// The haste that a word stands for.
pub(crate) fn haste_in(word: &[u8]) -> Option<Haste>
    ensures some { IfSome result (λ haste. octet_word (haste_code haste) ≡ word.now) }
    ensures none { result ≡ None → (haste : Haste) → octet_word (haste_code haste) ≡ word.now → ⊥ }
{
    Haste::of_code(octet_in(word)?)
}

// The form of a status that a word stands for.
pub(crate) fn form_in(word: &[u8]) -> Option<Form>
    ensures some { IfSome result (λ form. octet_word (form_code form) ≡ word.now) }
    ensures none { result ≡ None → (form : Form) → octet_word (form_code form) ≡ word.now → ⊥ }
{
    Form::of_code(octet_in(word)?)
}

// The tracing that a word stands for.
pub(crate) fn tracing_in(word: &[u8]) -> Option<Tracing>
    ensures some { IfSome result (λ tracing. octet_word (tracing_code tracing) ≡ word.now) }
    ensures none { result ≡ None → (tracing : Tracing) → octet_word (tracing_code tracing) ≡ word.now → ⊥ }
{
    Tracing::of_code(octet_in(word)?)
}
