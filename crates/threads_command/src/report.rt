//! The report of a fabric that ran on threads.

ghost use Rattle.std.specs.Prelude.{◌≡◌, IfOk, OnOk, map};
ghost use Rattle.reports.specs.Writing.{Wrote};
ghost use Rattle.threads_command.specs.Threads.{IsReport};

use crate::parts::write_parts;
use crate::refusals::Refusals;
use fab_types::Violation;
use monitor::Report;
use port_threads::Stopped;
use reports::write_violations;
use std::alloc::{AllocError, Global};
use std::io;
use std::io::Write;

/// What was reported.
fn violations_of(alloc: Global, reports: &[Report]) -> Result<Vec<Violation>, AllocError>
    ensures { IfOk result (λ violations. violations.items ≡ map (λ report. report.violation) reports.now) }
{
    reports.iter().map(|report| report.violation).collect(alloc)
}

/// Writes what a run on threads ends in.
/// That is how many begins of each function and host were refused; the violations, as the monitor took them;
/// and each domain, with what counts of it. Where memory is refused before all of it stands ready, nothing is written.
pub(crate) fn write_report<W: Write>(
    alloc: Global,
    out: &mut W,
    refusals: &Refusals,
    stopped: &Stopped,
) -> io::Result<()>
    ensures { OnOk result (Wrote (W.contents out.old) (W.contents out.new) (IsReport refusals.now stopped.now)) }
{
    let mut report = Vec::new(alloc);
    refusals.write(&mut report)?;
    let violations = violations_of(alloc, &stopped.list)?;
    write_violations(alloc, &mut report, &violations)?;
    write_parts(alloc, &mut report, stopped)?;
    out.write_all(&report)?;
    Ok(())
}
