//! The line of a port, with its controls by their letters.

ghost use Rattle.std.specs.Prelude.{◌≡◌, OnOk};
ghost use Rattle.std.specs.Io.KnownBytes.{Appends};
ghost use Rattle.findings_text.specs.Tree.{clear_egress_text, controls_text, egress_text, letter_or_dot, port_head, port_line, port_words, vector_of, window_text};

use crate::indent::write_indent;
use crate::remarks::{Remarks, write_with_id};
use fab_types::{AcsControl, Control};
use platform::{DownstreamPort, LayoutVersion};
use std::io;
use std::io::Write;

/// The letter where the control is set, and a dot where it is clear.
fn letter_or_dot(controls: AcsControl, control: Control) -> &'static str
    ensures { result.now ≡ letter_or_dot controls control }
{
    if control.is_set(controls) {
        control.letter()
    } else {
        "."
    }
}

/// Writes the five controls by their letters, and E where it is set.
fn write_controls<W: Write>(out: &mut W, controls: AcsControl) -> io::Result<()>
    ensures { OnOk result (Appends (W.contents out.old) (W.contents out.new) (controls_text controls)) }
{
    let source = letter_or_dot(controls, Control::SourceValidation);
    let translation = letter_or_dot(controls, Control::TranslationBlocking);
    let requests = letter_or_dot(controls, Control::RequestRedirect);
    let completions = letter_or_dot(controls, Control::CompletionRedirect);
    let upstream = letter_or_dot(controls, Control::UpstreamForwarding);
    write!(out, "{source}{translation}{requests}")?;
    write!(out, "{completions}{upstream}")
}

/// The Egress Control Vector, all ones where none was given.
fn vector_of(port: &DownstreamPort) -> u32
    ensures { result ≡ vector_of port.now }
{
    match port.egress_vector {
        Some(vector) => vector,
        None => 0xffff_ffff,
    }
}

/// What stands in place of E where it is clear: version 1 has no Egress Control.
fn clear_egress(version: LayoutVersion) -> &'static str
    ensures { result.now ≡ clear_egress_text version }
{
    match version {
        LayoutVersion::One => "\n",
        LayoutVersion::Two => ".\n",
    }
}

/// Writes E and the vector where a port controls egress, and ends the line.
fn write_egress<W: Write>(
    out: &mut W,
    version: LayoutVersion,
    port: &DownstreamPort,
) -> io::Result<()>
    ensures { OnOk result (Appends (W.contents out.old) (W.contents out.new) (egress_text version port.now)) }
{
    if port.controls.controls_egress() {
        let vector = vector_of(port);
        writeln!(out, "E vector {vector:08x}")
    } else {
        out.write_all(clear_egress(version).as_bytes())
    }
}

/// Writes whose port it is, and the buses below it.
fn write_port_words<W: Write>(out: &mut W, port: &DownstreamPort) -> io::Result<()>
    ensures { OnOk result (Appends (W.contents out.old) (W.contents out.new) (port_words port.now)) }
{
    let (owner, first, last) = (port.owner, port.secondary, port.subordinate);
    write!(out, " domain {owner} buses {first:02x}-{last:02x}")
}

/// Writes which port it is, whose, and the buses below it.
fn write_port_head<W: Write>(
    out: &mut W,
    remarks: &Remarks,
    port: &DownstreamPort,
) -> io::Result<()>
    ensures { OnOk result (Appends (W.contents out.old) (W.contents out.new) (port_head remarks.now.names port.now)) }
{
    write_with_id(out, remarks, b"port ", port.id.id())?;
    write_port_words(out, port)?;
    Ok(())
}

fn write_window<W: Write>(out: &mut W, port: &DownstreamPort) -> io::Result<()>
    ensures { OnOk result (Appends (W.contents out.old) (W.contents out.new) (window_text port.now)) }
{
    let (base, limit) = (port.base, port.limit);
    write!(out, " window {base:08x}-{limit:08x} controls ")
}

/// Writes the line of a port.
pub(crate) fn write_port_line<W: Write>(
    out: &mut W,
    remarks: &Remarks,
    version: LayoutVersion,
    depth: u8,
    port: &DownstreamPort,
) -> io::Result<()>
    ensures { OnOk result (Appends (W.contents out.old) (W.contents out.new) (port_line remarks.now.names version depth port.now)) }
{
    write_indent(out, depth.saturating_sub(1))?;
    write_port_head(out, remarks, port)?;
    write_window(out, port)?;
    write_controls(out, port.controls)?;
    write_egress(out, version, port)?;
    Ok(())
}
