//! What an explanation is about: how many functions, of how many domains, below how many ports.

ghost use Rattle.std.specs.Prelude.{◌≡◌, OnOk};
ghost use Rattle.std.specs.Io.KnownBytes.{Appends};
ghost use Rattle.findings_text.specs.Summary.{counts_text, ending, summary_text};

use attacks::owners_count;
use layout::Layout;
use std::io;
use std::io::Write;

/// The ending of a word for so many.
fn ending(count: usize) -> &'static str
    ensures { result.now ≡ ending count }
{
    if count == 1 { "" } else { "s" }
}

fn write_counts<W: Write>(
    out: &mut W,
    functions: usize,
    domains: usize,
    ports: usize,
) -> io::Result<()>
    ensures { OnOk result (Appends (W.contents out.old) (W.contents out.new) (counts_text functions domains ports)) }
{
    let (of_functions, of_domains, of_ports) = (ending(functions), ending(domains), ending(ports));
    write!(
        out,
        "{functions} function{of_functions} of {domains} domain{of_domains}"
    )?;
    writeln!(out, " below {ports} port{of_ports}")
}

/// Writes how many functions a layout has, how many domains own one, and how many ports there are.
pub(crate) fn write_summary<W: Write>(out: &mut W, layout: &Layout) -> io::Result<()>
    ensures { OnOk result (Appends (W.contents out.old) (W.contents out.new) (summary_text layout.now)) }
{
    let (functions, ports) = (layout.functions().len(), layout.ports().len());
    write_counts(out, functions, owners_count(layout), ports)
}
