//! The request that words stand for.

ghost use Rattle.std.specs.Prelude.{◌≡◌, ◌∷◌, ℕ, List, [], None, IfSome};
ghost use Rattle.std.specs.Str.{IsUtf8};
ghost use Rattle.oftp_channel.specs.Asked.{IsAskable, read_words, request_fields, request_kind, submission_fields, words_of};
ghost use Rattle.oftp_channel.specs.InsideAsked.{IsFor, IsNoRequest, IsNoSubmission};
ghost use Rattle.oftp_channel.specs.declared.asking.Request.{Request};
ghost use Rattle.oftp_channel.specs.declared.codes.RequestKind.TheVariants.{Backup, Call, Fetch, Health, Holds, Outgoing, Refuse, Release, Report, Resend, Status, Stop, Submit};

use crate::asking::Request;
use crate::codes::RequestKind;
use crate::fields::{
    form_in, format_in, haste_in, kind_in, number_in, report_in, small_number_in, text_in,
    tracing_in,
};
use crate::stamp::stamp_in;
use oftp_engine::{Operator, Submission};

impl<'a> Request<'a> {
    /// The request that these words stand for. `None` if they stand for none: if their number is another, a text isn't UTF-8, or a number or
    /// an octet is out of its range.
    pub fn of(words: &'a [Vec<u8>]) -> Option<Request<'a>>
        ensures some { IfSome result (λ request. words_of request ≡ read_words words.now) }
        ensures none { result ≡ None → (request : Request) → IsAskable request → words_of request ≡ read_words words.now → ⊥ }
    {
        let [kind, fields @ ..] = words else {
            return None;
        };
        request_in(kind_in(kind)?, fields)
    }
}

// The request of this kind that has these fields.
fn request_in<'a>(kind: RequestKind, fields: &'a [Vec<u8>]) -> Option<Request<'a>>
    ensures some { IfSome result (IsFor kind (read_words fields.now)) }
    ensures none { result ≡ None → IsNoRequest kind (read_words fields.now) }
{
    match kind {
        RequestKind::Submit => submit_in(fields),
        RequestKind::Release => release_in(fields),
        RequestKind::Refuse => refuse_in(fields),
        RequestKind::Call => call_in(fields),
        RequestKind::Report => report_asked(fields),
        RequestKind::Unanswered => alone(Request::Unanswered, fields),
        RequestKind::Outgoing => outgoing_in(fields),
        RequestKind::Fetch => fetch_in(fields),
        RequestKind::Holds => holds_in(fields),
        RequestKind::Backup => backup_in(fields),
        RequestKind::Init => alone(Request::Init, fields),
        RequestKind::Stop => stop_in(fields),
        RequestKind::Reload => alone(Request::Reload, fields),
        RequestKind::Resend => resend_in(fields),
        RequestKind::Status => status_in(fields),
        RequestKind::Health => health_in(fields),
        RequestKind::Settled => alone(Request::Settled, fields),
    }
}

// The request to submit a file that has these fields.
fn submit_in<'a>(fields: &'a [Vec<u8>]) -> Option<Request<'a>>
    ensures some { IfSome result (IsFor Submit (read_words fields.now)) }
    ensures none { result ≡ None → IsNoRequest Submit (read_words fields.now) }
{
    let [book, others @ ..] = fields else {
        return None;
    };
    let call = Operator::Submit(submission_in(others)?);
    Some(Request::Operate { book, call })
}

// The submission that has these fields.
fn submission_in<'a>(fields: &'a [Vec<u8>]) -> Option<Submission<'a>>
    ensures some { IfSome result (λ submission. submission_fields submission ≡ read_words fields.now) }
    ensures none { result ≡ None → IsNoSubmission (read_words fields.now) }
{
    let [
        dataset,
        date,
        time,
        to,
        format,
        longest,
        description,
        content,
    ] = fields
    else {
        return None;
    };
    let stamp = stamp_in(dataset, date, time)?;
    Some(Submission {
        dataset: stamp.dataset,
        date: stamp.date,
        time: stamp.time,
        to: text_in(to)?,
        format: format_in(format)?,
        longest: small_number_in(longest)?,
        description: text_in(description)?,
        content,
    })
}

// The request to release a file that has these fields.
fn release_in<'a>(fields: &'a [Vec<u8>]) -> Option<Request<'a>>
    ensures some { IfSome result (IsFor Release (read_words fields.now)) }
    ensures none { result ≡ None → IsNoRequest Release (read_words fields.now) }
{
    let [book, no] = fields else {
        return None;
    };
    let call = Operator::Release { no: number_in(no)? };
    Some(Request::Operate { book, call })
}

// The request to refuse a file that has these fields.
fn refuse_in<'a>(fields: &'a [Vec<u8>]) -> Option<Request<'a>>
    ensures some { IfSome result (IsFor Refuse (read_words fields.now)) }
    ensures none { result ≡ None → IsNoRequest Refuse (read_words fields.now) }
{
    let [book, no, reason, text] = fields else {
        return None;
    };
    let call = Operator::Refuse {
        no: number_in(no)?,
        reason: number_in(reason)?,
        text: text_in(text)?,
    };
    Some(Request::Operate { book, call })
}

// The request for a call that has these fields.
fn call_in<'a>(fields: &'a [Vec<u8>]) -> Option<Request<'a>>
    ensures some { IfSome result (IsFor Call (read_words fields.now)) }
    ensures none { result ≡ None → IsNoRequest Call (read_words fields.now) }
{
    let [partner, patience, longest, tracing] = fields else {
        return None;
    };
    Some(Request::Call {
        partner: text_in(partner)?,
        patience: number_in(patience)?,
        longest: number_in(longest)?,
        tracing: tracing_in(tracing)?,
    })
}

// The request for a report that has these fields.
fn report_asked<'a>(fields: &'a [Vec<u8>]) -> Option<Request<'a>>
    ensures some { IfSome result (IsFor Report (read_words fields.now)) }
    ensures none { result ≡ None → IsNoRequest Report (read_words fields.now) }
{
    let [kind] = fields else {
        return None;
    };
    Some(Request::Report(report_in(kind)?))
}

// The request for outgoing files that has these fields.
fn outgoing_in<'a>(fields: &'a [Vec<u8>]) -> Option<Request<'a>>
    ensures some { IfSome result (IsFor Outgoing (read_words fields.now)) }
    ensures none { result ≡ None → IsNoRequest Outgoing (read_words fields.now) }
{
    let to = only_text(fields)?;
    Some(Request::Outgoing { to })
}

// The request for a content that has these fields.
fn fetch_in<'a>(fields: &'a [Vec<u8>]) -> Option<Request<'a>>
    ensures some { IfSome result (IsFor Fetch (read_words fields.now)) }
    ensures none { result ≡ None → IsNoRequest Fetch (read_words fields.now) }
{
    let [no] = fields else {
        return None;
    };
    Some(Request::Fetch { no: number_in(no)? })
}

// The request to compare a content that has these fields.
fn holds_in<'a>(fields: &'a [Vec<u8>]) -> Option<Request<'a>>
    ensures some { IfSome result (IsFor Holds (read_words fields.now)) }
    ensures none { result ≡ None → IsNoRequest Holds (read_words fields.now) }
{
    let [no, content] = fields else {
        return None;
    };
    Some(Request::Holds {
        no: number_in(no)?,
        content,
    })
}

// The request to let files be copied that has these fields.
fn backup_in<'a>(fields: &'a [Vec<u8>]) -> Option<Request<'a>>
    ensures some { IfSome result (IsFor Backup (read_words fields.now)) }
    ensures none { result ≡ None → IsNoRequest Backup (read_words fields.now) }
{
    let to = only_text(fields)?;
    Some(Request::Backup { to })
}

// The request to end that has these fields.
fn stop_in<'a>(fields: &'a [Vec<u8>]) -> Option<Request<'a>>
    ensures some { IfSome result (IsFor Stop (read_words fields.now)) }
    ensures none { result ≡ None → IsNoRequest Stop (read_words fields.now) }
{
    let [haste] = fields else {
        return None;
    };
    Some(Request::Stop(haste_in(haste)?))
}

// The request to submit a file again that has these fields.
fn resend_in<'a>(fields: &'a [Vec<u8>]) -> Option<Request<'a>>
    ensures some { IfSome result (IsFor Resend (read_words fields.now)) }
    ensures none { result ≡ None → IsNoRequest Resend (read_words fields.now) }
{
    let [book, no, date, time] = fields else {
        return None;
    };
    Some(Request::Resend {
        book,
        no: number_in(no)?,
        date: text_in(date)?,
        time: text_in(time)?,
    })
}

// The request for how the station stands that has these fields.
fn status_in<'a>(fields: &'a [Vec<u8>]) -> Option<Request<'a>>
    ensures some { IfSome result (IsFor Status (read_words fields.now)) }
    ensures none { result ≡ None → IsNoRequest Status (read_words fields.now) }
{
    let [form] = fields else {
        return None;
    };
    Some(Request::Status(form_in(form)?))
}

// The request for the verdict on the station that has these fields.
fn health_in<'a>(fields: &'a [Vec<u8>]) -> Option<Request<'a>>
    ensures some { IfSome result (IsFor Health (read_words fields.now)) }
    ensures none { result ≡ None → IsNoRequest Health (read_words fields.now) }
{
    let [warn, critical] = fields else {
        return None;
    };
    Some(Request::Health {
        warn: number_in(warn)?,
        critical: number_in(critical)?,
    })
}

// The text that is the only field.
fn only_text<'a>(fields: &'a [Vec<u8>]) -> Option<&'a str>
    ensures some { IfSome result (λ text. text.now ∷ [] ≡ read_words fields.now) }
    ensures none { result ≡ None → (text : List ℕ) → IsUtf8 text → read_words fields.now ≡ text ∷ [] → ⊥ }
{
    let [text] = fields else {
        return None;
    };
    text_in(text)
}

// A request that has no fields.
fn alone<'a>(request: Request<'a>, fields: &[Vec<u8>]) -> Option<Request<'a>>
    ensures some { IfSome result (λ asked. (asked ≡ request.entry) × (read_words fields.now ≡ [])) }
    ensures none { result ≡ None → read_words fields.now ≡ [] → ⊥ }
{
    if fields.is_empty() {
        Some(request)
    } else {
        None
    }
}
