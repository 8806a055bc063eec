//! The commands `run`, `alone` and `journal`: a layout's fabric, driven by a script.

ghost use Rattle.std.specs.Prelude.{◌≡◌, ◌⊎◌, IfErr, IfOk, OnOk};
ghost use Rattle.inputs.specs.Endings.{IsRunFault};
ghost use Rattle.inputs.specs.Refusals.{HasNoText, IsNoLayout, IsNoOwner, IsNoScript};
ghost use Rattle.reports.specs.Writing.{Wrote};
ghost use Rattle.commands.specs.Owners.{IsGiven};
ghost use Rattle.commands.specs.Runs.{AlonePrints, IsReplayed, JournalPrints, RunPrints};

use crate::drive::driven;
use crate::report::{write_part, write_report};
use command_line::Files;
use domain::Domain;
use fab_types::ReplayFault;
use inputs::{Fault, FileGiver, Inputs, inputs_of, layout_of, script_of};
use journal_text::write_journal;
use layout::{Layout, Start};
use script::Line;
use std::alloc::Global;
use std::io;
use std::io::Write;

/// Runs the fabric of a layout by a script.
/// It writes the begins that were refused, and what the run ends in.
///
/// # Errors
/// As `layout_of`, then as `script_of`: the first that applies; and `NoMemory` where memory was refused, `Unwritable` where the
/// output takes no more.
pub fn run<'a, F: FileGiver, W: Write>(
    alloc: Global,
    files: &F,
    names: Files<'a>,
    out: &mut W,
) -> Result<(), Fault<'a>>
    ensures ok { OnOk result (Wrote (W.contents out.old) (W.contents out.new) (RunPrints (F.holds files.now) names.entry.layout.now names.entry.script.now)) }
    ensures fault { IfErr result (λ f. (f ≡ Fault.NoMemory) ⊎ ((f ≡ Fault.Unreadable names.entry.layout) × HasNoText (F.withholds files.now names.entry.layout.now) (F.holds files.now names.entry.layout.now)) ⊎ IsNoLayout (F.holds files.now names.entry.layout.now) f ⊎ ((f ≡ Fault.Unreadable names.entry.script) × HasNoText (F.withholds files.now names.entry.script.now) (F.holds files.now names.entry.script.now)) ⊎ IsNoScript (F.holds files.now names.entry.script.now) f ⊎ IsRunFault f) }
{
    let layout = layout_of(alloc, files, names.layout)?;
    let script = script_of(alloc, files, names.script)?;
    let fabric = driven(alloc, &layout, script.into_lines(), out)?;
    write_report(alloc, out, &fabric)?;
    Ok(())
}

/// Runs the same, and writes the part of the report of this domain.
/// That is of the domain as the replay of its journal leaves it.
///
/// # Errors
/// As `inputs_of`; and `NoMemory` where memory was refused, `Unwritable` where the output takes no more.
pub fn alone<'a, F: FileGiver, W: Write>(
    alloc: Global,
    files: &F,
    names: Files<'a>,
    number: u32,
    out: &mut W,
) -> Result<(), Fault<'a>>
    ensures ok { OnOk result (Wrote (W.contents out.old) (W.contents out.new) (AlonePrints (F.holds files.now) names.entry.layout.now names.entry.script.now number)) }
    ensures fault { IfErr result (λ f. (f ≡ Fault.NoMemory) ⊎ ((f ≡ Fault.Unreadable names.entry.layout) × HasNoText (F.withholds files.now names.entry.layout.now) (F.holds files.now names.entry.layout.now)) ⊎ IsNoLayout (F.holds files.now names.entry.layout.now) f ⊎ ((f ≡ Fault.Unreadable names.entry.script) × HasNoText (F.withholds files.now names.entry.script.now) (F.holds files.now names.entry.script.now)) ⊎ IsNoScript (F.holds files.now names.entry.script.now) f ⊎ IsNoOwner (F.holds files.now names.entry.layout.now) number f ⊎ IsRunFault f) }
{
    let inputs = inputs_of(alloc, files, names, number)?;
    let Inputs {
        layout,
        script,
        start,
    } = inputs;
    let domain = replayed(alloc, &layout, script.into_lines(), &start)?;
    write_part(alloc, out, &domain)?;
    Ok(())
}

/// Runs the same, and writes the journal of this domain.
///
/// # Errors
/// As `alone`.
pub fn journal<'a, F: FileGiver, W: Write>(
    alloc: Global,
    files: &F,
    names: Files<'a>,
    number: u32,
    out: &mut W,
) -> Result<(), Fault<'a>>
    ensures ok { OnOk result (Wrote (W.contents out.old) (W.contents out.new) (JournalPrints (F.holds files.now) names.entry.layout.now names.entry.script.now number)) }
    ensures fault { IfErr result (λ f. (f ≡ Fault.NoMemory) ⊎ ((f ≡ Fault.Unreadable names.entry.layout) × HasNoText (F.withholds files.now names.entry.layout.now) (F.holds files.now names.entry.layout.now)) ⊎ IsNoLayout (F.holds files.now names.entry.layout.now) f ⊎ ((f ≡ Fault.Unreadable names.entry.script) × HasNoText (F.withholds files.now names.entry.script.now) (F.holds files.now names.entry.script.now)) ⊎ IsNoScript (F.holds files.now names.entry.script.now) f ⊎ IsNoOwner (F.holds files.now names.entry.layout.now) number f ⊎ IsRunFault f) }
{
    let inputs = inputs_of(alloc, files, names, number)?;
    let Inputs {
        layout,
        script,
        start,
    } = inputs;
    let fabric = driven(alloc, &layout, script.into_lines(), &mut io::sink())?;
    let Some(domain) = fabric.domain(start.domain()) else {
        unreachable!();
    };
    let mut text = Vec::new(alloc);
    write_journal(alloc, &mut text, domain)?;
    out.write_all(&text)?;
    Ok(())
}

/// The domain that the journal of a run makes of this start.
fn replayed<'a>(
    alloc: Global,
    layout: &Layout,
    lines: Vec<Line>,
    start: &Start,
) -> Result<Domain, Fault<'a>>
    requires { IsGiven layout.now start.now }
    ensures ok { IfOk result (λ domain. IsReplayed layout.now lines.items start.now domain) }
    ensures fault { IfErr result (λ fault. IsRunFault fault) }
{
    let fabric = driven(alloc, layout, lines, &mut io::sink())?;
    let number = start.domain();
    let Some(domain) = fabric.domain(number) else {
        unreachable!();
    };
    match Domain::replay(alloc, start, domain.journal()) {
        Ok(domain) => Ok(domain),
        Err(ReplayFault::NoMemory) => Err(Fault::NoMemory),
        Err(ReplayFault::Illegal(_)) => unreachable!(),
    }
}
