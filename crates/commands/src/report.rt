//! The report of a fabric.

ghost use Rattle.std.specs.Prelude.{OnOk};
ghost use Rattle.reports.specs.Writing.{Wrote};
ghost use Rattle.reports.specs.Report.{IsPart};
ghost use Rattle.commands.specs.Report.{IsReport};

use domain::Domain;
use fabric_core::Fabric;
use reports::{write_domain, write_domains, write_violations};
use std::alloc::Global;
use std::io;
use std::io::Write;

/// Writes what a fabric ends in.
/// These are the violations that its ports reported, oldest first, and then each domain, by rising number.
/// Where memory is refused before all of it stands ready, nothing is written.
pub fn write_report<W: Write>(alloc: Global, out: &mut W, fabric: &Fabric) -> io::Result<()>
    ensures { OnOk result (Wrote (W.contents out.old) (W.contents out.new) (IsReport fabric.now)) }
{
    let mut report = Vec::new(alloc);
    write_violations(alloc, &mut report, fabric.violations())?;
    write_domains(alloc, &mut report, fabric.domains())?;
    out.write_all(&report)?;
    Ok(())
}

/// Writes the part of the report of one domain. Where memory is refused before all of it stands ready, nothing is written.
pub(crate) fn write_part<W: Write>(alloc: Global, out: &mut W, domain: &Domain) -> io::Result<()>
    ensures { OnOk result (Wrote (W.contents out.old) (W.contents out.new) (IsPart domain.now)) }
{
    let mut part = Vec::new(alloc);
    write_domain(alloc, &mut part, domain)?;
    out.write_all(&part)?;
    Ok(())
}
