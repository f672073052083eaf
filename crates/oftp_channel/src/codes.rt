//! The octets that encode kinds, and the kinds that octets encode.

ghost use Rattle.std.specs.Prelude.{◌≡◌, None, IfSome};
ghost use Rattle.oftp_vfile.specs.declared.format.Format.{Format};
ghost use Rattle.oftp_listing.specs.declared.reports.ReportKind.{ReportKind};
ghost use Rattle.oftp_channel.specs.Asked.{form_code, format_code, haste_code, report_code, request_code, tracing_code};
ghost use Rattle.oftp_channel.specs.declared.asking.Form.{Form};
ghost use Rattle.oftp_channel.specs.declared.asking.Haste.{Haste};
ghost use Rattle.oftp_channel.specs.declared.asking.Tracing.{Tracing};
ghost use Rattle.oftp_channel.specs.declared.codes.RequestKind.{RequestKind};

use crate::asking::{Form, Haste, Tracing};
use oftp_listing::ReportKind;
use oftp_vfile::Format;

// The kind of a request.
#[derive(Clone, Copy, Drop)]
pub(crate) enum RequestKind {
    Submit,
    Release,
    Refuse,
    Call,
    Report,
    Unanswered,
    Outgoing,
    Fetch,
    Holds,
    Backup,
    Init,
    Stop,
    Reload,
    Resend,
    Status,
    Health,
    Settled,
}

impl RequestKind {
    // The octet that encodes it.
    pub(crate) fn code(self) -> u8
        ensures { result ≡ request_code self }
    {
        match self {
            RequestKind::Submit => 1,
            RequestKind::Release => 2,
            RequestKind::Refuse => 3,
            RequestKind::Call => 4,
            RequestKind::Report => 5,
            RequestKind::Unanswered => 6,
            RequestKind::Outgoing => 7,
            RequestKind::Fetch => 8,
            RequestKind::Holds => 9,
            RequestKind::Backup => 10,
            RequestKind::Init => 11,
            RequestKind::Stop => 12,
            RequestKind::Reload => 13,
            RequestKind::Resend => 14,
            RequestKind::Status => 15,
            RequestKind::Health => 16,
            RequestKind::Settled => 17,
        }
    }

    // The kind that an octet encodes.
    pub(crate) fn of_code(code: u8) -> Option<RequestKind>
        ensures one { IfSome result (λ kind. request_code kind ≡ code) }
        ensures none { result ≡ None → (kind : RequestKind) → request_code kind ≡ code → ⊥ }
    {
        match code {
            1 => Some(RequestKind::Submit),
            2 => Some(RequestKind::Release),
            3 => Some(RequestKind::Refuse),
            4 => Some(RequestKind::Call),
            5 => Some(RequestKind::Report),
            6 => Some(RequestKind::Unanswered),
            7 => Some(RequestKind::Outgoing),
            8 => Some(RequestKind::Fetch),
            9 => Some(RequestKind::Holds),
            10 => Some(RequestKind::Backup),
            11 => Some(RequestKind::Init),
            12 => Some(RequestKind::Stop),
            13 => Some(RequestKind::Reload),
            14 => Some(RequestKind::Resend),
            15 => Some(RequestKind::Status),
            16 => Some(RequestKind::Health),
            17 => Some(RequestKind::Settled),
            _ => None,
        }
    }
}

impl Form {
    // The octet that encodes it.
    pub(crate) fn code(self) -> u8
        ensures { result ≡ form_code self }
    {
        match self {
            Form::Lines => 0,
            Form::Json => 1,
        }
    }

    // The form that an octet encodes.
    pub(crate) fn of_code(code: u8) -> Option<Form>
        ensures one { IfSome result (λ form. form_code form ≡ code) }
        ensures none { result ≡ None → (form : Form) → form_code form ≡ code → ⊥ }
    {
        match code {
            0 => Some(Form::Lines),
            1 => Some(Form::Json),
            _ => None,
        }
    }
}

impl Tracing {
    // The octet that encodes it.
    pub(crate) fn code(self) -> u8
        ensures { result ≡ tracing_code self }
    {
        match self {
            Tracing::None => 0,
            Tracing::Kept => 1,
        }
    }

    // The tracing that an octet encodes.
    pub(crate) fn of_code(code: u8) -> Option<Tracing>
        ensures one { IfSome result (λ tracing. tracing_code tracing ≡ code) }
        ensures none { result ≡ None → (tracing : Tracing) → tracing_code tracing ≡ code → ⊥ }
    {
        match code {
            0 => Some(Tracing::None),
            1 => Some(Tracing::Kept),
            _ => None,
        }
    }
}

impl Haste {
    // The octet that encodes it.
    pub(crate) fn code(self) -> u8
        ensures { result ≡ haste_code self }
    {
        match self {
            Haste::InTurn => 0,
            Haste::AtOnce => 1,
        }
    }

    // The haste that an octet encodes.
    pub(crate) fn of_code(code: u8) -> Option<Haste>
        ensures one { IfSome result (λ haste. haste_code haste ≡ code) }
        ensures none { result ≡ None → (haste : Haste) → haste_code haste ≡ code → ⊥ }
    {
        match code {
            0 => Some(Haste::InTurn),
            1 => Some(Haste::AtOnce),
            _ => None,
        }
    }
}

// The octet that encodes a format: its letter (RFC 5024, section 5.3.3).
pub(crate) fn format_code(format: Format) -> u8
    ensures { result ≡ format_code format }
{
    match format {
        Format::Fixed => b'F',
        Format::Variable => b'V',
        Format::Unstructured => b'U',
        Format::Text => b'T',
    }
}

// The format that an octet encodes.
pub(crate) fn format_of(code: u8) -> Option<Format>
    ensures one { IfSome result (λ format. format_code format ≡ code) }
    ensures none { result ≡ None → (format : Format) → format_code format ≡ code → ⊥ }
{
    match code {
        b'F' => Some(Format::Fixed),
        b'V' => Some(Format::Variable),
        b'U' => Some(Format::Unstructured),
        b'T' => Some(Format::Text),
        _ => None,
    }
}

// The octet that encodes the subject of a report.
pub(crate) fn report_code(kind: ReportKind) -> u8
    ensures { result ≡ report_code kind }
{
    match kind {
        ReportKind::Incoming => 1,
        ReportKind::Outgoing => 2,
        ReportKind::Issued => 3,
        ReportKind::Received => 4,
    }
}

// The subject of a report that an octet encodes.
pub(crate) fn report_of(code: u8) -> Option<ReportKind>
    ensures one { IfSome result (λ kind. report_code kind ≡ code) }
    ensures none { result ≡ None → (kind : ReportKind) → report_code kind ≡ code → ⊥ }
{
    match code {
        1 => Some(ReportKind::Incoming),
        2 => Some(ReportKind::Outgoing),
        3 => Some(ReportKind::Issued),
        4 => Some(ReportKind::Received),
        _ => None,
    }
}
