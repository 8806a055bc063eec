//! A fabric that does what the lines of a script ask for.

ghost use Rattle.std.specs.Prelude.{◌≡◌, IfErr, IfOk, OnOk};
ghost use Rattle.std.specs.List.{flat_map};
ghost use Rattle.fabric_core.specs.Stations.{events_at};
ghost use Rattle.commands.specs.Driving.{Begins, Does, Drives, IsDriven};
ghost use Rattle.inputs.specs.Endings.{IsRunFault};
ghost use Rattle.commands.specs.Isolated.{IsIsolated};
ghost use Rattle.commands.specs.Owners.{HasOwners};
ghost use Rattle.commands.specs.Settled.{Settles};
ghost use Rattle.reports.specs.Writing.{Wrote};

use fab_types::Outcome;
use fabric_core::{Event, Fabric};
use inputs::Fault;
use layout::Layout;
use reports::write_refusal;
use script::{Command, Line};
use std::alloc::Global;
use std::io::Write;
use sweeps::{Sweeper, a_sweep_that_moves_nothing_is_the_last};

/// Runs the fabric of a layout by these lines, from its start. For each begin that is refused, a line is
/// written at once. A line's bytes go into its event, and with that they go.
pub fn driven<'a, W: Write>(
    alloc: Global,
    layout: &Layout,
    lines: Vec<Line>,
    out: &mut W,
) -> Result<Fabric, Fault<'a>>
    ensures ok { IfOk result (λ fabric. Wrote (W.contents out.old) (W.contents out.new) (IsDriven layout.now lines.items fabric)) }
    ensures isolated { IfOk result (λ fabric. IsIsolated layout.now lines.items fabric) }
    ensures settled { IfOk result (λ fabric. Settles layout.now fabric) }
    ensures owners { IfOk result (λ fabric. HasOwners layout.now fabric) }
    ensures fault { IfErr result (λ fault. IsRunFault fault) }
{
    // for the proof: what holds of every platform, and that nothing moves after a sweep that moves nothing
    let _ = layout.ports();
    a_sweep_that_moves_nothing_is_the_last();
    let mut sweeper = Sweeper::new(alloc, layout)?;
    drive_all(&mut sweeper, lines, out)?;
    Ok(sweeper.into_fabric())
}

fn drive_all<'a, W: Write>(
    sweeper: &mut Sweeper,
    lines: Vec<Line>,
    out: &mut W,
) -> Result<(), Fault<'a>>
    ensures ok { OnOk result (Wrote (W.contents out.old) (W.contents out.new) (Drives (flat_map events_at sweeper.old.stations) sweeper.old.world lines.items sweeper.new.world)) }
    ensures fault { IfErr result (λ fault. IsRunFault fault) }
{
    for line in lines {
        drive(sweeper, line, out)?;
    }
    Ok(())
}

fn drive<'a, W: Write>(sweeper: &mut Sweeper, line: Line, out: &mut W) -> Result<(), Fault<'a>>
    ensures ok { OnOk result (Wrote (W.contents out.old) (W.contents out.new) (Does (flat_map events_at sweeper.old.stations) line.number sweeper.old.world line.command sweeper.new.world)) }
    ensures stations { sweeper.new.stations ≡ sweeper.old.stations }
    ensures fault { IfErr result (λ fault. IsRunFault fault) }
{
    let Line { number, command } = line;
    match command {
        Command::Submit(function, bytes) => {
            begin(sweeper, number, &Event::Submit(function, bytes), out)
        }
        Command::Tick(function) => begin(sweeper, number, &Event::Tick(function), out),
        Command::Mmio(domain, access) => {
            begin(sweeper, number, &Event::Mmio(domain, access), out)
        }
        Command::Sweep(most) => Ok(sweeper.sweeps(most)?),
    }
}

fn begin<'a, W: Write>(
    sweeper: &mut Sweeper,
    line: u32,
    event: &Event,
    out: &mut W,
) -> Result<(), Fault<'a>>
    ensures ok { OnOk result (Wrote (W.contents out.old) (W.contents out.new) (Begins line sweeper.old.world event.now sweeper.new.world)) }
    ensures stations { sweeper.new.stations ≡ sweeper.old.stations }
    ensures fault { IfErr result (λ fault. IsRunFault fault) }
{
    match sweeper.step(event) {
        Outcome::Moved | Outcome::Idle => Ok(()),
        Outcome::Refused(fault) => Ok(write_refusal(out, line, fault)?),
        Outcome::NoMemory => Err(Fault::NoMemory),
    }
}
