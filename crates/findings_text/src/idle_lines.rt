//! The lines of clear controls past which nothing was seen to land.

ghost use Rattle.std.specs.Prelude.{◌≡◌, OnOk};
ghost use Rattle.std.specs.List.{flat_map};
ghost use Rattle.std.specs.Io.KnownBytes.{Appends};
ghost use Rattle.findings_text.specs.Idle.{above_text, below_text, idle_head, idle_line, idle_lines, idle_of, idle_text, lack_text, reason_text, stop_text};

use crate::idle::{Obstacle, is_idle, obstacle_of};
use crate::remarks::{Remarks, write_id};
use attacks::{Findings, Pair};
use fab_types::{Control, PortId};
use layout::Layout;
use platform::DownstreamPort;
use std::io;
use std::io::Write;

/// Writes that a port above still stops this.
fn write_above<W: Write>(
    out: &mut W,
    remarks: &Remarks,
    other: PortId,
    stopped: &[u8],
) -> io::Result<()>
    ensures { OnOk result (Appends (W.contents out.old) (W.contents out.new) (above_text remarks.now.names other stopped.now)) }
{
    write_id(out, remarks, other.id())?;
    out.write_all(b" above it still stops ")?;
    out.write_all(stopped)?;
    Ok(())
}

/// A port below stops what comes from below itself alone.
fn write_below<W: Write>(out: &mut W, remarks: &Remarks, other: PortId) -> io::Result<()>
    ensures { OnOk result (Appends (W.contents out.old) (W.contents out.new) (below_text remarks.now.names other)) }
{
    write_id(out, remarks, other.id())?;
    out.write_all(b" below it stops what comes from there by that control\n")?;
    Ok(())
}

/// Writes what a port above or below still stops.
fn write_reason<W: Write>(
    out: &mut W,
    remarks: &Remarks,
    obstacle: &Obstacle,
    stopped: &[u8],
) -> io::Result<()>
    ensures { OnOk result (Appends (W.contents out.old) (W.contents out.new) (reason_text remarks.now.names obstacle.now stopped.now)) }
{
    match obstacle {
        Obstacle::Above(other) => write_above(out, remarks, *other, stopped),
        Obstacle::Below(other) => write_below(out, remarks, *other),
        Obstacle::Nothing => out.write_all(b"nothing below it was seen to use that\n"),
    }
}

fn write_lack<W: Write>(out: &mut W, control: Control) -> io::Result<()>
    ensures { OnOk result (Appends (W.contents out.old) (W.contents out.new) (lack_text control)) }
{
    let name = control.short_name();
    write!(out, " lacks {name}; ")
}

fn write_head<W: Write>(
    out: &mut W,
    remarks: &Remarks,
    port: &DownstreamPort,
    control: Control,
) -> io::Result<()>
    ensures { OnOk result (Appends (W.contents out.old) (W.contents out.new) (idle_head remarks.now.names port.now control)) }
{
    write_id(out, remarks, port.id.id())?;
    write_lack(out, control)?;
    Ok(())
}

/// Writes what still stops what the control of a port would have stopped.
fn write_stop<W: Write>(
    out: &mut W,
    remarks: &Remarks,
    ports: &[DownstreamPort],
    port: &DownstreamPort,
    control: Control,
) -> io::Result<()>
    ensures { OnOk result (Appends (W.contents out.old) (W.contents out.new) (stop_text remarks.now.names ports.now port.now control)) }
{
    match control {
        Control::SourceValidation => write_reason(
            out,
            remarks,
            &obstacle_of(ports, port, control),
            b"a spoofed ID\n",
        ),
        Control::TranslationBlocking => write_reason(
            out,
            remarks,
            &obstacle_of(ports, port, control),
            b"a translated address\n",
        ),
        Control::RequestRedirect => out.write_all(
            b"no function below it was seen to reach one of another domain beside it\n",
        ),
        Control::CompletionRedirect => {
            out.write_all(b"a completion still goes to whom it answers\n")
        }
        Control::UpstreamForwarding => {
            out.write_all(b"a request for its own window is still refused there\n")
        }
    }
}

fn write_line<W: Write>(
    out: &mut W,
    remarks: &Remarks,
    ports: &[DownstreamPort],
    port: &DownstreamPort,
    control: Control,
) -> io::Result<()>
    ensures { OnOk result (Appends (W.contents out.old) (W.contents out.new) (idle_line remarks.now.names ports.now port.now control)) }
{
    write_head(out, remarks, port, control)?;
    write_stop(out, remarks, ports, port, control)?;
    Ok(())
}

/// Writes the line of a control of a port, if nothing was seen to pass it.
fn write_idle<W: Write>(
    out: &mut W,
    remarks: &Remarks,
    ports: &[DownstreamPort],
    pairs: &[Pair],
    port: &DownstreamPort,
    control: Control,
) -> io::Result<()>
    ensures { OnOk result (Appends (W.contents out.old) (W.contents out.new) (idle_of remarks.now.names ports.now pairs.now port.now control)) }
{
    if is_idle(pairs, port, control) {
        write_line(out, remarks, ports, port, control)
    } else {
        Ok(())
    }
}

fn write_idle_of_port<W: Write>(
    out: &mut W,
    remarks: &Remarks,
    ports: &[DownstreamPort],
    pairs: &[Pair],
    port: &DownstreamPort,
) -> io::Result<()>
    ensures { OnOk result (Appends (W.contents out.old) (W.contents out.new) (idle_lines remarks.now.names ports.now pairs.now port.now)) }
{
    write_idle(out, remarks, ports, pairs, port, Control::SourceValidation)?;
    write_idle(
        out,
        remarks,
        ports,
        pairs,
        port,
        Control::TranslationBlocking,
    )?;
    write_idle(out, remarks, ports, pairs, port, Control::RequestRedirect)?;
    write_idle(
        out,
        remarks,
        ports,
        pairs,
        port,
        Control::CompletionRedirect,
    )?;
    write_idle(
        out,
        remarks,
        ports,
        pairs,
        port,
        Control::UpstreamForwarding,
    )?;
    Ok(())
}

fn write_idle_of_all<W: Write>(
    out: &mut W,
    remarks: &Remarks,
    ports: &[DownstreamPort],
    pairs: &[Pair],
) -> io::Result<()>
    ensures { OnOk result (Appends (W.contents out.old) (W.contents out.new) (flat_map (idle_lines remarks.now.names ports.now pairs.now) ports.now)) }
{
    for port in ports {
        write_idle_of_port(out, remarks, ports, pairs, port)?;
    }
    Ok(())
}

/// Writes a line for each clear control of a port past which nothing was seen to land, with what still stops it.
pub(crate) fn write_idle_controls<W: Write>(
    out: &mut W,
    layout: &Layout,
    remarks: &Remarks,
    findings: &Findings,
) -> io::Result<()>
    ensures { OnOk result (Appends (W.contents out.old) (W.contents out.new) (idle_text layout.now remarks.now.names findings.now)) }
{
    match findings {
        Findings::NothingToKeep | Findings::Guarded => Ok(()),
        Findings::Unguarded(pairs) => write_idle_of_all(out, remarks, layout.ports(), pairs),
    }
}
