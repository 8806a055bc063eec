//! The command `first`: one packet through the smallest fabric.

ghost use Rattle.std.specs.Prelude.{◌≡◌, ◌⊎◌, ◌↔◌, IfErr, IsErrOf, OnOk};
ghost use Rattle.std.specs.List.{flat_map};
ghost use Rattle.std.specs.Io.KnownBytes.{Appends};
ghost use Rattle.inputs.specs.Endings.{IsRunFault};
ghost use Rattle.script.specs.PacketWord.{IsPacketWord};
ghost use Rattle.reports.specs.Writing.{Wrote};
ghost use Rattle.commands.specs.First.{Prints};
ghost use Rattle.reports.specs.Report.{memory_lines};

use crate::drive::driven;
use domain::Domain;
use fab_types::Bdf;
use inputs::Fault;
use layout::Layout;
use reports::write_frames;
use script::{Command, Line, packet_bytes};
use std::alloc::Global;
use std::io;
use std::io::Write;

/// One switch, and below it one function, whose page 1 is mapped to frame 0.
const PLATFORM: &str = "\
pciefab 1
frames 1
switch 01:00.0 root
port 02:00.0 03 03 90000000 900fffff 1f 1
function 03:00.0 90000000
map 03:00.0 1 frame 0 rw
";

/// The function that submits the packet: 03:00.0, the only one.
const FUNCTION: u16 = 0x0300;

/// How many sweeps may follow.
const SWEEPS: u32 = 1000;

/// Submits the packet that the word stands for, and lets the fabric carry it.
/// It writes the rows of the memory of domain 1, or why the packet was refused.
///
/// # Errors
/// `ScriptLine` with line 1 where the word stands for no packet; and `NoMemory` where memory was refused, `Unwritable` where the
/// output takes no more.
pub fn first<'a, W: Write>(alloc: Global, packet: &str, out: &mut W) -> Result<(), Fault<'a>>
    ensures printed { OnOk result (Wrote (W.contents out.old) (W.contents out.new) (Prints packet.now)) }
    ensures fault { IfErr result (λ f. (f ≡ Fault.ScriptLine 1) ⊎ IsRunFault f) }
    ensures line { IsErrOf result (Fault.ScriptLine 1) ↔ (¬ IsPacketWord packet.now) }
{
    let bytes = match packet_bytes(alloc, packet.as_bytes()) {
        Ok(bytes) => bytes,
        Err(cause) => return Err(Fault::at_line(1, cause)),
    };
    let layout = match Layout::read(alloc, PLATFORM) {
        Ok(layout) => layout,
        Err(fault) => return Err(Fault::of_layout(fault)),
    };
    let submit = Line {
        number: 1,
        command: Command::Submit(Bdf::from_bits(FUNCTION), bytes),
    };
    let sweep = Line {
        number: 2,
        command: Command::Sweep(SWEEPS),
    };
    let mut lines = Vec::with_capacity(alloc, 2)?;
    lines.push_reserved(submit);
    lines.push_reserved(sweep);
    let fabric = driven(alloc, &layout, lines, out)?;
    write_memory(out, fabric.domains())?;
    Ok(())
}

/// Writes the memory of each domain.
fn write_memory<W: Write>(out: &mut W, domains: &[Domain]) -> io::Result<()>
    ensures { OnOk result (Appends (W.contents out.old) (W.contents out.new) (flat_map memory_lines domains.now)) }
{
    for domain in domains {
        write_frames(out, domain)?;
    }
    Ok(())
}
