//! The part of the report that a domain has, with what counts of it.

ghost use Rattle.std.specs.Prelude.{OnOk};
ghost use Rattle.std.specs.Io.KnownBytes.{Appends};
ghost use Rattle.port_threads.specs.Left.{frames_of};
ghost use Rattle.reports.specs.Writing.{Wrote};
ghost use Rattle.threads_command.specs.Counted.{AreCountedParts, IsCountedPart, totals_line};
ghost use Rattle.thread_totals.specs.Counts.{totals_of};

use domain::Domain;
use fab_types::DomainId;
use port_threads::{Stopped, Totals};
use reports::{write_counts, write_holding};
use std::alloc::Global;
use std::io;
use std::io::Write;

fn write_totals<W: Write>(out: &mut W, number: DomainId, totals: &Totals) -> io::Result<()>
    ensures { OnOk result (Appends (W.contents out.old) (W.contents out.new) (totals_line number totals.now)) }
{
    let Totals {
        emitted,
        consumed,
        found,
        taken,
        begins,
        refused,
        held,
    } = *totals;
    write!(
        out,
        "totals {number} emitted {emitted} consumed {consumed} found {found}"
    )?;
    write!(out, " taken {taken} begins {begins}")?;
    writeln!(out, " refused {refused} held {held}")
}

/// Writes a domain: what it counted, what counts of it, and what it holds.
fn write_part<W: Write>(
    alloc: Global,
    out: &mut W,
    domain: &Domain,
    totals: &Totals,
) -> io::Result<()>
    ensures { OnOk result (Wrote (W.contents out.old) (W.contents out.new) (IsCountedPart totals.now domain.now)) }
{
    write_counts(out, domain)?;
    write_totals(out, domain.start().domain(), totals)?;
    write_holding(alloc, out, domain)?;
    Ok(())
}

/// Writes each domain of a fabric that was stopped.
pub(crate) fn write_parts<W: Write>(alloc: Global, out: &mut W, stopped: &Stopped) -> io::Result<()>
    ensures { OnOk result (Wrote (W.contents out.old) (W.contents out.new) (AreCountedParts (totals_of (frames_of stopped.now) stopped.now.remains.items) stopped.now.domains.items)) }
{
    for (place, domain) in stopped.domains.iter().enumerate() {
        write_part(alloc, out, domain, &stopped.count.totals[place])?;
    }
    Ok(())
}
