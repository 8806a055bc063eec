//! The line of a violation.

ghost use Rattle.std.specs.Prelude.{◌≡◌, IfOk, string_bytes};
ghost use Rattle.monitor.specs.Lines.{check_letter, class_word, violation_line};

use fab_types::{Check, NoMemory, Violation};
use std::alloc::Global;

fn letter(check: Check) -> &'static str
    ensures { result.now ≡ check_letter check }
{
    match check {
        Check::SourceValidation => "V",
        Check::TranslationBlocking => "B",
        Check::EgressControl => "E",
    }
}

fn class_word(posted: bool) -> &'static str
    ensures { result.now ≡ class_word posted }
{
    if posted { "posted" } else { "nonposted" }
}

/// The line of a violation, without a line feed.
/// It has the port that refused the request, the test that it failed (`V` for Source Validation, `B` for
/// Translation Blocking, `E` for Egress Control), the function that sent it, the Requester ID that it bore, and
/// whether it was posted. It answers `NoMemory` where memory was refused.
pub fn line(alloc: Global, violation: &Violation) -> Result<String, NoMemory>
    ensures { IfOk result (λ text. string_bytes text ≡ violation_line violation.now) }
{
    let (port, sender, requester) = (violation.port, violation.sender, violation.requester);
    let (check, class) = (letter(violation.check), class_word(violation.posted));
    Ok(format!(in alloc; "acs {port} {check} from {sender} as {requester} {class}")?)
}
