//! The groups that Linux makes of a tree, and the domains that they keep apart though one was seen to reach the other.

ghost use Rattle.std.specs.Prelude.{◌≡◌, ◌==◌, OnOk};
ghost use Rattle.std.specs.Io.KnownBytes.{Appends};
ghost use Rattle.std.specs.List.{flat_map};
ghost use Rattle.findings_text.specs.Linux.{apart_head, apart_line, apart_lines, apart_tail, apart_text, group_line, group_lines, linux_text, member_text};

use crate::remarks::{Remarks, write_with_id};
use attacks::{Findings, Pair};
use fab_types::{Bdf, DomainId};
use iommu_groups::{Member, have_common_group, members_of};
use layout::Layout;
use std::alloc::Global;
use std::io;
use std::io::Write;

/// Writes the ID of a device, if it is in this group.
fn write_member<W: Write>(
    out: &mut W,
    remarks: &Remarks,
    group: Bdf,
    member: &Member,
) -> io::Result<()>
    ensures { OnOk result (Appends (W.contents out.old) (W.contents out.new) (member_text remarks.now.names group member.now)) }
{
    if member.group == group {
        write_with_id(out, remarks, b" ", member.device)
    } else {
        Ok(())
    }
}

fn write_members<W: Write>(
    out: &mut W,
    remarks: &Remarks,
    group: Bdf,
    members: &[Member],
) -> io::Result<()>
    ensures { OnOk result (Appends (W.contents out.old) (W.contents out.new) (flat_map (member_text remarks.now.names group) members.now)) }
{
    for member in members {
        write_member(out, remarks, group, member)?;
    }
    Ok(())
}

fn write_group<W: Write>(
    out: &mut W,
    remarks: &Remarks,
    members: &[Member],
    group: Bdf,
) -> io::Result<()>
    ensures { OnOk result (Appends (W.contents out.old) (W.contents out.new) (group_line remarks.now.names members.now group)) }
{
    out.write_all(b"linux group")?;
    write_members(out, remarks, group, members)?;
    out.write_all(b"\n")?;
    Ok(())
}

/// Writes the line of the group that this device is the first of, if it is.
fn write_group_of<W: Write>(
    out: &mut W,
    remarks: &Remarks,
    members: &[Member],
    member: &Member,
) -> io::Result<()>
    ensures { OnOk result (Appends (W.contents out.old) (W.contents out.new) (group_lines remarks.now.names members.now member.now)) }
{
    if member.group == member.device {
        write_group(out, remarks, members, member.device)
    } else {
        Ok(())
    }
}

fn write_groups<W: Write>(out: &mut W, remarks: &Remarks, members: &[Member]) -> io::Result<()>
    ensures { OnOk result (Appends (W.contents out.old) (W.contents out.new) (flat_map (group_lines remarks.now.names members.now) members.now)) }
{
    for member in members {
        write_group_of(out, remarks, members, member)?;
    }
    Ok(())
}

fn write_apart_head<W: Write>(out: &mut W, attacker: DomainId, victim: DomainId) -> io::Result<()>
    ensures { OnOk result (Appends (W.contents out.old) (W.contents out.new) (apart_head attacker victim)) }
{
    write!(out, "{attacker} and {victim} apart, ")
}

fn write_apart_tail<W: Write>(out: &mut W, attacker: DomainId, victim: DomainId) -> io::Result<()>
    ensures { OnOk result (Appends (W.contents out.old) (W.contents out.new) (apart_tail attacker victim)) }
{
    writeln!(out, "and domain {attacker} reaches domain {victim}")
}

fn write_apart_line<W: Write>(out: &mut W, attacker: DomainId, victim: DomainId) -> io::Result<()>
    ensures { OnOk result (Appends (W.contents out.old) (W.contents out.new) (apart_text attacker victim)) }
{
    out.write_all(b"linux keeps domains ")?;
    write_apart_head(out, attacker, victim)?;
    write_apart_tail(out, attacker, victim)?;
    Ok(())
}

/// Writes that two domains have no group in common, and that the one was seen to reach the other, if so.
fn write_apart<W: Write>(out: &mut W, members: &[Member], pair: &Pair) -> io::Result<()>
    ensures { OnOk result (Appends (W.contents out.old) (W.contents out.new) (apart_line members.now pair.now)) }
{
    if pair.has_witness() && !have_common_group(members, pair.attacker, pair.victim) {
        write_apart_line(out, pair.attacker, pair.victim)
    } else {
        Ok(())
    }
}

fn write_pairs_apart<W: Write>(out: &mut W, members: &[Member], pairs: &[Pair]) -> io::Result<()>
    ensures { OnOk result (Appends (W.contents out.old) (W.contents out.new) (flat_map (apart_line members.now) pairs.now)) }
{
    for pair in pairs {
        write_apart(out, members, pair)?;
    }
    Ok(())
}

fn write_all_apart<W: Write>(out: &mut W, members: &[Member], findings: &Findings) -> io::Result<()>
    ensures { OnOk result (Appends (W.contents out.old) (W.contents out.new) (apart_lines members.now findings.now)) }
{
    match findings {
        Findings::NothingToKeep | Findings::Guarded => Ok(()),
        Findings::Unguarded(pairs) => write_pairs_apart(out, members, pairs),
    }
}

/// Writes a line for each group that Linux makes of the tree, and one for each two domains that have none in common though the one
/// was seen to reach the other.
pub(crate) fn write_linux<W: Write>(
    alloc: Global,
    out: &mut W,
    layout: &Layout,
    remarks: &Remarks,
    findings: &Findings,
) -> io::Result<()>
    ensures { OnOk result (Appends (W.contents out.old) (W.contents out.new) (linux_text layout.now remarks.now.names findings.now)) }
{
    let members = members_of(alloc, layout)?;
    write_groups(out, remarks, &members)?;
    write_all_apart(out, &members, findings)?;
    Ok(())
}
