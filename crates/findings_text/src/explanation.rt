//! An explanation: how large a layout is, its tree, what an audit found, idle controls, and Linux's groups.

ghost use Rattle.std.specs.Prelude.{OnOk};
ghost use Rattle.std.specs.Io.KnownBytes.{Appends};
ghost use Rattle.findings_text.specs.Witnesses.{explanation_text, wanted_text};

use crate::findings::write_findings;
use crate::idle_lines::write_idle_controls;
use crate::linux::write_linux;
use crate::remarks::Remarks;
use crate::summary::write_summary;
use crate::tree::write_tree;
use attacks::Findings;
use layout::Layout;
use std::alloc::Global;
use std::io;
use std::io::Write;

/// Writes how large a layout is, its tree, and what an audit of it found.
/// Which clear controls let nothing pass comes then, and the groups that Linux makes of the tree, if they are wanted. Behind
/// the ID of a device stands where its machine has it, if the remarks say so.
/// Where memory is refused before all of it stands ready, nothing is written, and the error is of the kind `OutOfMemory`; other
/// errors are those of the writer.
pub fn write_explanation<W: Write>(
    alloc: Global,
    out: &mut W,
    layout: &Layout,
    remarks: &Remarks,
    findings: &Findings,
    wants_groups: bool,
) -> io::Result<()>
    ensures { OnOk result (Appends (W.contents out.old) (W.contents out.new) (explanation_text layout.now remarks.now findings.now wants_groups)) }
{
    let mut text = Vec::new(alloc);
    write_summary(&mut text, layout)?;
    write_tree(&mut text, layout, remarks)?;
    write_findings(alloc, &mut text, layout, remarks, findings)?;
    write_idle_controls(&mut text, layout, remarks, findings)?;
    write_wanted(alloc, &mut text, layout, remarks, findings, wants_groups)?;
    out.write_all(&text)?;
    Ok(())
}

/// Writes the groups, if they are wanted.
fn write_wanted<W: Write>(
    alloc: Global,
    out: &mut W,
    layout: &Layout,
    remarks: &Remarks,
    findings: &Findings,
    wants_groups: bool,
) -> io::Result<()>
    ensures { OnOk result (Appends (W.contents out.old) (W.contents out.new) (wanted_text layout.now remarks.now.names findings.now wants_groups)) }
{
    if wants_groups {
        write_linux(alloc, out, layout, remarks, findings)
    } else {
        Ok(())
    }
}
