//! The command `threads`: a layout's fabric on threads of its own, driven by a script.

ghost use Rattle.std.specs.Prelude.{◌≡◌, ◌⊎◌, IfErr, IfOk, OnOk};
ghost use Rattle.std.specs.Arc.{arc_value};
ghost use Rattle.platform.specs.Platform.{Platform};
ghost use Rattle.inputs.specs.Refusals.{HasNoText, IsNoLayout, IsNoScript};
ghost use Rattle.port_threads.specs.Fabrics.{IsFabricOf};
ghost use Rattle.reports.specs.Writing.{Wrote};
ghost use Rattle.threads_command.specs.Threads.{IsStopped, IsThreadsFault, ThreadsPrints};

use crate::begins::{Begun, begin_all};
use crate::refusals::Refusals;
use crate::report::write_report;
use command_line::Files;
use inputs::{Fault, FileGiver, layout_of, script_of};
use layout::Layout;
use port_threads::{Ending, EvenGate, Running, Stopped};
use script::Line;
use std::alloc::Global;
use std::io::Write;
use std::sync::{Arc, Wait};
use std::thread::Threads;
use std::time::Clock;

/// What is left of a fabric, and how many begins were refused.
#[derive(Drop)]
struct Ran {
    stopped: Stopped,
    refusals: Refusals,
}

/// Asks for all begins, lets the workers make their turns, and stops them. After a fault they make none that they needn't.
fn driven<'a, R>(
    rt: &R,
    alloc: Global,
    running: Running,
    gate: &EvenGate<R>,
    lines: Vec<Line>,
) -> Result<Ran, Fault<'a>>
where
    R: Threads + Wait + Clock,
    ensures fault { IfErr result (λ fault. IsThreadsFault fault) }
    ensures ok { (platform : Platform) → IsFabricOf platform running → IfOk result (λ ran. IsStopped platform lines.items ran.refusals ran.stopped) }
{
    let mut running = running;
    let mut begun = Begun::new(alloc);
    let begins = begin_all(rt, gate, &mut running, &mut begun, lines);
    gate.release();
    let ending = match begins {
        Ok(()) => Ending::AfterTurns,
        Err(_) => Ending::Now,
    };
    let stopped = running.stop(rt, alloc, ending);
    begins?;
    let stopped = stopped?;
    let Begun {
        injectors: _,
        mut refusals,
    } = begun;
    refusals.add_all(&stopped.remains)?;
    Ok(Ran { stopped, refusals })
}

/// Runs the fabric of a layout by the begins of these lines. Each worker makes so many turns, the first of them once all
/// begins were asked for or a ring is full.
fn run<'a, R>(
    rt: &R,
    alloc: Global,
    layout: Layout,
    lines: Vec<Line>,
    turns: u32,
) -> Result<Ran, Fault<'a>>
where
    R: Threads + Wait + Clock + Copy + Send + Sync + Drop + 'static,
    ensures fault { IfErr result (λ fault. IsThreadsFault fault) }
    ensures ok { IfOk result (λ ran. IsStopped layout lines.items ran.refusals ran.stopped) }
{
    let Ok(gate) = Arc::new(alloc, EvenGate::new(alloc, *rt, &layout)?) else {
        return Err(Fault::NoMemory);
    };
    let Ok(layout) = Arc::new(alloc, layout) else {
        return Err(Fault::NoMemory);
    };
    let running = Running::start(*rt, alloc, &layout, turns, &gate)?;
    driven(rt, alloc, running, &gate, lines)
}

/// Runs the fabric of a layout on threads of its own.
/// Each of them makes so many turns. The fabric begins what a script asks for; the script's sweeps are passed
/// over, since the workers move packets by themselves. It writes how many begins of each function and host were
/// refused, and what the run ends in.
///
/// # Errors
///
/// As `run`, and `ThreadsFailed` where a thread can't be made, or a ring of begins stays full for a second
/// while its worker makes turns. Whatever it answers, no thread is left.
pub fn threads<'a, R, F: FileGiver, W: Write>(
    rt: &R,
    alloc: Global,
    files: &F,
    names: Files<'a>,
    turns: u32,
    out: &mut W,
) -> Result<(), Fault<'a>>
where
    R: Threads + Wait + Clock + Copy + Send + Sync + Drop + 'static,
    ensures ok { OnOk result (Wrote (W.contents out.old) (W.contents out.new) (ThreadsPrints (F.holds files.now) names.entry.layout.now names.entry.script.now)) }
    ensures fault { IfErr result (λ f. (f ≡ Fault.NoMemory) ⊎ ((f ≡ Fault.Unreadable names.entry.layout) × HasNoText (F.withholds files.now names.entry.layout.now) (F.holds files.now names.entry.layout.now)) ⊎ IsNoLayout (F.holds files.now names.entry.layout.now) f ⊎ ((f ≡ Fault.Unreadable names.entry.script) × HasNoText (F.withholds files.now names.entry.script.now) (F.holds files.now names.entry.script.now)) ⊎ IsNoScript (F.holds files.now names.entry.script.now) f ⊎ IsThreadsFault f) }
{
    let layout = layout_of(alloc, files, names.layout)?;
    let script = script_of(alloc, files, names.script)?;
    let ran = run(rt, alloc, layout, script.into_lines(), turns)?;
    write_report(alloc, out, &ran.refusals, &ran.stopped)?;
    Ok(())
}
