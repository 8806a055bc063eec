//! The lines of the report.

ghost use Rattle.std.specs.Prelude.{◌≡◌, IfOk, OnOk};
ghost use Rattle.std.specs.List.{flat_map};
ghost use Rattle.std.specs.Io.KnownBytes.{Appends};
ghost use Rattle.reports.specs.Report.{AreParts, IsHolding, IsPart, counts_line, memory_lines, own_functions, packet_text, record_head, record_line, refusal_line, register_lines, status_name, violation_lines, violation_row};
ghost use Rattle.platform.specs.Rising.{IsRising};
ghost use Rattle.reports.specs.Writing.{Wrote};

use crate::rows::{PageName, write_rows};
use domain::{Domain, Record};
use fab_types::{Bdf, BeginFault, NoMemory, Origin, Status, Violation};
use platform::rising;
use std::alloc::{AllocError, Global};
use std::io;
use std::io::{ErrorKind, Write};

/// Writes why the begin of a script's line was refused.
pub fn write_refusal<W: Write>(out: &mut W, line: u32, fault: BeginFault) -> io::Result<()>
    ensures { OnOk result (Appends (W.contents out.old) (W.contents out.new) (refusal_line line fault)) }
{
    let (code, name) = (fault.number(), fault.name());
    writeln!(out, "refused {line} {code} {name}")
}

/// Writes the violations that ports reported, in this order.
pub fn write_violations<W: Write>(
    alloc: Global,
    out: &mut W,
    violations: &[Violation],
) -> io::Result<()>
    ensures { OnOk result (Appends (W.contents out.old) (W.contents out.new) (violation_lines violations.now)) }
{
    for violation in violations {
        write_violation(alloc, out, violation)?;
    }
    Ok(())
}

fn write_violation<W: Write>(alloc: Global, out: &mut W, violation: &Violation) -> io::Result<()>
    ensures { OnOk result (Appends (W.contents out.old) (W.contents out.new) (violation_row violation.now)) }
{
    match monitor::line(alloc, violation) {
        Ok(line) => writeln!(out, "{line}"),
        Err(NoMemory) => Err(io::Error::from(ErrorKind::OutOfMemory)),
    }
}

/// Writes each of these domains.
pub fn write_domains<W: Write>(alloc: Global, out: &mut W, domains: &[Domain]) -> io::Result<()>
    ensures { OnOk result (Wrote (W.contents out.old) (W.contents out.new) (AreParts domains.now)) }
{
    for domain in domains {
        write_domain(alloc, out, domain)?;
    }
    Ok(())
}

/// Writes what a domain ends in.
/// That is its counts, its memory, its register pages, and the completions that it got.
pub fn write_domain<W: Write>(alloc: Global, out: &mut W, domain: &Domain) -> io::Result<()>
    ensures { OnOk result (Wrote (W.contents out.old) (W.contents out.new) (IsPart domain.now)) }
{
    write_counts(out, domain)?;
    write_holding(alloc, out, domain)?;
    Ok(())
}

/// Writes the line of what a domain counted.
pub fn write_counts<W: Write>(out: &mut W, domain: &Domain) -> io::Result<()>
    ensures { OnOk result (Appends (W.contents out.old) (W.contents out.new) (counts_line domain.now)) }
{
    let number = domain.start().domain();
    let counts = domain.counts();
    let (begins, blocked, unexpected) = (counts.begins, counts.blocked, counts.unexpected);
    let open = domain.open_tags().len();
    write!(out, "domain {number} begins {begins}")?;
    write!(out, " blocked {blocked} unexpected {unexpected}")?;
    writeln!(out, " open {open}")
}

/// Writes what a domain holds: its memory, register pages, and completions.
pub fn write_holding<W: Write>(alloc: Global, out: &mut W, domain: &Domain) -> io::Result<()>
    ensures { OnOk result (Wrote (W.contents out.old) (W.contents out.new) (IsHolding domain.now)) }
{
    let functions = functions_of(alloc, domain)?;
    write_frames(out, domain)?;
    write_registers(out, domain, &functions)?;
    write_records(alloc, out, domain.records())?;
    Ok(())
}

/// Writes the rows of a domain's frames that are not all 0, rising.
pub fn write_frames<W: Write>(out: &mut W, domain: &Domain) -> io::Result<()>
    ensures { OnOk result (Appends (W.contents out.old) (W.contents out.new) (memory_lines domain.now)) }
{
    for &number in domain.start().frames() {
        if let Some(bytes) = domain.frame(number) {
            write_rows(out, &PageName::Frame(number), bytes)?;
        }
    }
    Ok(())
}

/// The functions of a domain, by rising ID.
fn functions_of(alloc: Global, domain: &Domain) -> Result<Vec<Bdf>, AllocError>
    ensures { IfOk result (λ ids. IsRising (own_functions domain.now.share) ids.items) }
{
    let start = domain.start();
    let ids = start
        .functions()
        .iter()
        .map(|line| line.id)
        .filter(|id| start.owns_function(*id))
        .collect(alloc)?;
    rising(ids)
}

/// Writes the rows of the register pages of these functions that are not all 0.
fn write_registers<W: Write>(out: &mut W, domain: &Domain, functions: &[Bdf]) -> io::Result<()>
    ensures { OnOk result (Appends (W.contents out.old) (W.contents out.new) (flat_map (register_lines domain.now.state.registers) functions.now)) }
{
    for function in functions {
        write_register_page(out, domain, *function)?;
    }
    Ok(())
}

fn write_register_page<W: Write>(out: &mut W, domain: &Domain, function: Bdf) -> io::Result<()>
    ensures { OnOk result (Appends (W.contents out.old) (W.contents out.new) (register_lines domain.now.state.registers function)) }
{
    match domain.registers(function) {
        Some(bytes) => write_rows(out, &PageName::Registers(function), bytes),
        None => Ok(()),
    }
}

/// The name of a completion's status (PCIe 4.0, 2.2.9), as `SC` of a successful one.
pub fn status_name(status: Status) -> &'static str
    ensures { result.now ≡ status_name status }
{
    match status {
        Status::SC => "SC",
        Status::UR => "UR",
        Status::CRS => "CRS",
        Status::CA => "CA",
    }
}

fn write_records<W: Write>(alloc: Global, out: &mut W, records: &[Record]) -> io::Result<()>
    ensures { OnOk result (Appends (W.contents out.old) (W.contents out.new) (flat_map record_line records.now)) }
{
    for delivery in records {
        write_record(alloc, out, delivery)?;
    }
    Ok(())
}

/// Writes to whom a completion was delivered, under which Tag, and how it ended.
fn write_record_head<W: Write>(out: &mut W, delivery: &Record) -> io::Result<()>
    ensures { OnOk result (Appends (W.contents out.old) (W.contents out.new) (record_head delivery.now)) }
{
    let (owner, tag) = (delivery.owner().id(), delivery.tag());
    let status = status_name(delivery.status());
    write!(out, "record {owner} {tag:02x} {status} ")
}

/// Writes the bytes of a packet, and ends the line.
fn write_packet<W: Write>(alloc: Global, out: &mut W, bytes: &[u8]) -> io::Result<()>
    ensures { OnOk result (Appends (W.contents out.old) (W.contents out.new) (packet_text bytes.now)) }
{
    let digits = hex::encode(alloc, bytes)?;
    writeln!(out, "{digits}")
}

/// Writes a completion that was delivered.
fn write_record<W: Write>(alloc: Global, out: &mut W, delivery: &Record) -> io::Result<()>
    ensures { OnOk result (Appends (W.contents out.old) (W.contents out.new) (record_line delivery.now)) }
{
    write_record_head(out, delivery)?;
    write_packet(alloc, out, delivery.bytes())?;
    Ok(())
}
