//! Theorems about the replies and reports, and about what an office remembers.

ghost use Rattle.std.specs.Prelude.{◌≡◌, Bool, Option};
ghost use Rattle.oftp_register.specs.Register.{Register};
ghost use Rattle.oftp_listing.specs.Hiding.{IsAlike};
ghost use Rattle.oftp_listing.specs.Remembering.{CountsStay};
ghost use Rattle.oftp_listing.specs.Reports.{report_of};
ghost use Rattle.oftp_listing.specs.Texts.{text_of};
ghost use Rattle.oftp_listing.specs.Unasked.{NobodyAsked, SameForEach};
ghost use Rattle.oftp_listing.specs.declared.reports.ReportKind.{ReportKind};
ghost use Rattle.oftp_listing.specs.declared.route.Route.{Route};

/// No reply and no report shows an octet of a file. Registers that differ only in the octets of their files' rows have the same replies and
/// reports. The function does nothing; its contract is the theorem.
pub fn content_is_hidden()
    ensures replies { (r s : Register) → IsAlike r s → (is_get : Bool) (route : Option Route) → text_of is_get route r ≡ text_of is_get route s }
    ensures reports { (r s : Register) → IsAlike r s → (kind : ReportKind) → report_of kind r ≡ report_of kind s }
{}

/// What is remembered of a register is true of it after all changes. Each number that is remembered is the number of octets of a file whose
/// rows no change alters. The function does nothing; its contract is the theorem.
pub fn counts_stay()
    ensures { CountsStay }
{}

/// The reply of [`reply_of_any`](crate::reply_of_any) is what [`answer`](crate::answer) gives over any office that is open and whose store
/// reads what was written. It is that of the requests for which an office isn't asked, and of no others. The function does nothing; its
/// contract is the theorem.
pub fn same_for_each()
    ensures same { SameForEach }
    ensures unasked { NobodyAsked }
{}
