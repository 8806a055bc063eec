//! A witness as text, and the script that shows it.

ghost use Rattle.std.specs.Prelude.{◌≡◌, ◌++◌, OnOk};
ghost use Rattle.std.specs.Io.KnownBytes.{Appends};
ghost use Rattle.attacks.specs.Packets.{own_read};
ghost use Rattle.findings_text.specs.Witnesses.{closed_text, control_text, harm_text, head_text, own_text, pair_text, read_text, script_text, steps_text, submitter_text, sweeps_text, witness_text};
ghost use Rattle.reports.specs.Report.{packet_text};

use crate::remarks::{Remarks, write_with_id};
use attacks::{Harm, OwnRead, Witness};
use fab_types::{Bdf, Control, DomainId};
use std::alloc::Global;
use std::io;
use std::io::{ErrorKind, Write};

fn write_closed<W: Write>(out: &mut W, remarks: &Remarks, function: Bdf) -> io::Result<()>
    ensures { OnOk result (Appends (W.contents out.old) (W.contents out.new) (closed_text remarks.now.names function)) }
{
    write_with_id(out, remarks, b"Tag of ", function)?;
    out.write_all(b" closed by another's completion")?;
    Ok(())
}

/// Writes how a packet harms that this function submits.
fn write_harm<W: Write>(
    out: &mut W,
    remarks: &Remarks,
    submitter: Bdf,
    harm: &Harm,
) -> io::Result<()>
    ensures { OnOk result (Appends (W.contents out.old) (W.contents out.new) (harm_text remarks.now.names submitter harm.now)) }
{
    match harm {
        Harm::FrameWritten(frame) => write!(out, "write to frame {frame}"),
        Harm::FrameRead(frame) => write!(out, "read of frame {frame}"),
        Harm::RegistersWritten(function) => {
            write_with_id(out, remarks, b"write to registers of ", *function)
        }
        Harm::RegistersRead(function) => {
            write_with_id(out, remarks, b"read of registers of ", *function)
        }
        Harm::TagClosed(read) => write_closed(out, remarks, read.function),
        Harm::Completion => write!(out, "completion not asked for"),
        Harm::Counts => write!(out, "counts changed"),
        Harm::AnswersFrame(_) | Harm::AnswersRegisters(_) => {
            write_with_id(out, remarks, b"answers reads of ", submitter)
        }
    }
}

fn write_pair_head<W: Write>(out: &mut W, attacker: DomainId, victim: DomainId) -> io::Result<()>
    ensures { OnOk result (Appends (W.contents out.old) (W.contents out.new) (pair_text attacker victim)) }
{
    write!(out, "domain {attacker} reaches domain {victim}: ")
}

fn write_control<W: Write>(out: &mut W, control: Control) -> io::Result<()>
    ensures { OnOk result (Appends (W.contents out.old) (W.contents out.new) (control_text control)) }
{
    let name = control.short_name();
    writeln!(out, ", {name} clear")
}

/// Writes who reaches whom, how, and past which port and control.
fn write_head<W: Write>(out: &mut W, remarks: &Remarks, witness: &Witness) -> io::Result<()>
    ensures { OnOk result (Appends (W.contents out.old) (W.contents out.new) (head_text remarks.now.names witness.now)) }
{
    write_pair_head(out, witness.attacker, witness.victim)?;
    write_harm(out, remarks, witness.function, &witness.harm)?;
    write_with_id(out, remarks, b" at ", witness.port.id())?;
    write_control(out, witness.control)?;
    Ok(())
}

/// Writes the bytes of a packet, and ends the line.
fn write_packet<W: Write>(alloc: Global, out: &mut W, bytes: &[u8]) -> io::Result<()>
    ensures { OnOk result (Appends (W.contents out.old) (W.contents out.new) (packet_text bytes.now)) }
{
    let digits = hex::encode(alloc, bytes)?;
    writeln!(out, "{digits}")
}

fn write_submitter<W: Write>(out: &mut W, function: Bdf) -> io::Result<()>
    ensures { OnOk result (Appends (W.contents out.old) (W.contents out.new) (submitter_text function)) }
{
    write!(out, "submit {function} ")
}

fn write_sweeps<W: Write>(out: &mut W, sweeps: u32) -> io::Result<()>
    ensures { OnOk result (Appends (W.contents out.old) (W.contents out.new) (sweeps_text sweeps)) }
{
    writeln!(out, "sweep {sweeps}")
}

/// Writes some sweeps, and the read that follows.
fn write_read<W: Write>(alloc: Global, out: &mut W, read: &OwnRead) -> io::Result<()>
    ensures { OnOk result (Appends (W.contents out.old) (W.contents out.new) (read_text read.now)) }
{
    let Ok(bytes) = read.bytes(alloc) else {
        return Err(io::Error::from(ErrorKind::OutOfMemory));
    };
    write_sweeps(out, read.sweeps)?;
    write_submitter(out, read.function)?;
    write_packet(alloc, out, bytes.as_slice())?;
    Ok(())
}

/// Writes the read of the harmed domain's own, if the witness has one.
fn write_own<W: Write>(alloc: Global, out: &mut W, harm: &Harm) -> io::Result<()>
    ensures { OnOk result (Appends (W.contents out.old) (W.contents out.new) (own_text (own_read harm.now))) }
{
    match harm.own_read() {
        Some(read) => write_read(alloc, out, &read),
        None => Ok(()),
    }
}

/// Writes what shows a witness.
/// That is the packet, a read of the harmed domain's own if there is one, and sweeps.
fn write_steps<W: Write>(alloc: Global, out: &mut W, witness: &Witness) -> io::Result<()>
    ensures { OnOk result (Appends (W.contents out.old) (W.contents out.new) (steps_text witness.now)) }
{
    write_submitter(out, witness.function)?;
    write_packet(alloc, out, witness.bytes.as_slice())?;
    write_own(alloc, out, &witness.harm)?;
    out.write_all(b"sweep 1000\n")?;
    Ok(())
}

/// Writes a witness, and what shows it.
pub(crate) fn write_witness<W: Write>(
    alloc: Global,
    out: &mut W,
    remarks: &Remarks,
    witness: &Witness,
) -> io::Result<()>
    ensures { OnOk result (Appends (W.contents out.old) (W.contents out.new) (witness_text remarks.now.names witness.now)) }
{
    write_head(out, remarks, witness)?;
    write_steps(alloc, out, witness)?;
    Ok(())
}

/// Writes the script that shows a witness, which begins with a comment that says what it shows.
/// Behind the ID of a device there stands where its machine has it, if the remarks say so.
pub fn write_script<W: Write>(
    alloc: Global,
    out: &mut W,
    remarks: &Remarks,
    witness: &Witness,
) -> io::Result<()>
    ensures { OnOk result (Appends (W.contents out.old) (W.contents out.new) (script_text remarks.now witness.now)) }
{
    out.write_all(b"# ")?;
    write_witness(alloc, out, remarks, witness)?;
    Ok(())
}
