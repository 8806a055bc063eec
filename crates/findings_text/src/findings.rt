//! What an audit found, as text.

ghost use Rattle.std.specs.Prelude.{◌≡◌, ◌++◌, ◌+◌, ◌<◌, ◌^◌, OnOk, [], codes, length};
ghost use Rattle.std.specs.List.{flat_map};
ghost use Rattle.std.specs.Io.KnownBytes.{Appends};
ghost use Rattle.findings_text.specs.Witnesses.{findings_text, none_text, numbers_text, pair_lines, share_or, share_text, witness_text};

use crate::remarks::Remarks;
use crate::witness::write_witness;
use attacks::{Findings, Pair, Witness};
use layout::Layout;
use std::alloc::Global;
use std::io;
use std::io::Write;

/// Writes what an audit found.
/// That is that no domain can tell the others from none, or has none to be kept from, or for each two domains each witness with
/// what shows it, or that none was found. Where endpoints are left out, it says of how many this is.
pub(crate) fn write_findings<W: Write>(
    alloc: Global,
    out: &mut W,
    layout: &Layout,
    remarks: &Remarks,
    findings: &Findings,
) -> io::Result<()>
    ensures { OnOk result (Appends (W.contents out.old) (W.contents out.new) (findings_text (length layout.now.functions) remarks.now findings.now)) }
{
    match findings {
        Findings::NothingToKeep => write_share(
            out,
            layout,
            remarks,
            b"nothing to keep apart: fewer than two domains own a function\n",
            b"nothing to keep apart: fewer than two domains own a function, ",
        ),
        Findings::Guarded => write_share(
            out,
            layout,
            remarks,
            b"guarded: no domain can tell the others from none\n",
            b"guarded, ",
        ),
        Findings::Unguarded(pairs) => write_unguarded(alloc, out, layout, remarks, pairs),
    }
}

/// Writes the lines of the pairs, and of how many endpoints this is, if some are left out.
fn write_unguarded<W: Write>(
    alloc: Global,
    out: &mut W,
    layout: &Layout,
    remarks: &Remarks,
    pairs: &[Pair],
) -> io::Result<()>
    ensures { OnOk result (Appends (W.contents out.old) (W.contents out.new) (flat_map (pair_lines remarks.now.names) pairs.now ++ share_or (length layout.now.functions) remarks.now.left_out [] (codes "this is "))) }
{
    write_pairs(alloc, out, remarks, pairs)?;
    write_share(out, layout, remarks, b"", b"this is ")?;
    Ok(())
}

/// Writes the first words where no endpoint is left out, or else the other ones, and of how many this is.
fn write_share<W: Write>(
    out: &mut W,
    layout: &Layout,
    remarks: &Remarks,
    whole: &[u8],
    part: &[u8],
) -> io::Result<()>
    ensures { OnOk result (Appends (W.contents out.old) (W.contents out.new) (share_or (length layout.now.functions) remarks.now.left_out whole.now part.now)) }
{
    match remarks.left_out_count() {
        0 => out.write_all(whole),
        left_out => write_part(out, layout.functions().len(), left_out, part),
    }
}

fn write_part<W: Write>(out: &mut W, here: usize, left_out: usize, part: &[u8]) -> io::Result<()>
    requires { here + left_out < 2 ^ 64 }
    ensures { OnOk result (Appends (W.contents out.old) (W.contents out.new) (share_text part.now here left_out)) }
{
    out.write_all(part)?;
    write_numbers(out, here, here + left_out)?;
    out.write_all(b" endpoints: the others are not in this layout\n")?;
    Ok(())
}

fn write_numbers<W: Write>(out: &mut W, here: usize, all: usize) -> io::Result<()>
    ensures { OnOk result (Appends (W.contents out.old) (W.contents out.new) (numbers_text here all)) }
{
    write!(out, "of {here} of {all}")
}

fn write_pairs<W: Write>(
    alloc: Global,
    out: &mut W,
    remarks: &Remarks,
    pairs: &[Pair],
) -> io::Result<()>
    ensures { OnOk result (Appends (W.contents out.old) (W.contents out.new) (flat_map (pair_lines remarks.now.names) pairs.now)) }
{
    for pair in pairs {
        write_pair(alloc, out, remarks, pair)?;
    }
    Ok(())
}

fn write_pair<W: Write>(
    alloc: Global,
    out: &mut W,
    remarks: &Remarks,
    pair: &Pair,
) -> io::Result<()>
    ensures { OnOk result (Appends (W.contents out.old) (W.contents out.new) (pair_lines remarks.now.names pair.now)) }
{
    write_none(out, pair)?;
    write_witnesses(alloc, out, remarks, &pair.witnesses)?;
    Ok(())
}

/// Writes that none was found, if there is none.
fn write_none<W: Write>(out: &mut W, pair: &Pair) -> io::Result<()>
    ensures { OnOk result (Appends (W.contents out.old) (W.contents out.new) (none_text pair.now pair.now.witnesses.items)) }
{
    let (attacker, victim) = (pair.attacker, pair.victim);
    match pair.witnesses.as_slice() {
        [] => writeln!(out, "domain {attacker} reaches domain {victim}: none found"),
        [_, ..] => Ok(()),
    }
}

fn write_witnesses<W: Write>(
    alloc: Global,
    out: &mut W,
    remarks: &Remarks,
    witnesses: &[Witness],
) -> io::Result<()>
    ensures { OnOk result (Appends (W.contents out.old) (W.contents out.new) (flat_map (witness_text remarks.now.names) witnesses.now)) }
{
    for witness in witnesses {
        write_witness(alloc, out, remarks, witness)?;
    }
    Ok(())
}
