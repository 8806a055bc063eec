//! The begins of a script, each asked of the injector of its function or host.

ghost use Rattle.std.specs.Prelude.{◌≡◌, ◌<◌, List, [], Err, IfErr, IfOk, IfSome, Ok, OnOk, length};
ghost use Rattle.fab_types.specs.declared.faults.injector.InjectorFault.{InjectorFault};
ghost use Rattle.fab_types.specs.declared.origin.Origin.{Origin};
ghost use Rattle.injector.specs.declared.begin.Ask.{Ask};
ghost use Rattle.injector.specs.Injectors.{SendsNothing};
ghost use Rattle.threads_command.specs.Asking.{Sends, ask_of, origin_of};
ghost use Rattle.threads_command.specs.Threads.{IsThreadsFault};
ghost use Rattle.threads_command.specs.Begins.{AllBegin, Asks, Begins, BeginsOf, Counted, Finds, begun_by, place_in};

use crate::asking::{Answer, ask, ask_again, origin_of};
use crate::refusals::Refusals;
use fab_types::{NoMemory, Origin, same_origin};
use inputs::Fault;
use port_threads::{EvenGate, Injector, Running};
use script::{Command, Line};
use std::alloc::Global;
use std::time::Clock;

/// How far the begins of a script came: the injectors that they went by, each taken when it was first needed, and how many
/// no injector took.
#[derive(Drop)]
pub(crate) struct Begun {
    /// The injectors that begins went by, in the order of their first use.
    pub injectors: Vec<Injector>,
    /// How many begins no injector took, by the ID of function or host.
    pub refusals: Refusals,
}

impl Begun {
    /// None was begun yet.
    pub fn new(alloc: Global) -> Begun
        ensures injectors { result.injectors.items ≡ [] }
        ensures refusals { result.refusals ≡ [] }
    {
        Begun {
            injectors: Vec::new(alloc),
            refusals: Refusals::new(alloc),
        }
    }
}

/// The place of the injector of this origin.
fn place_in(injectors: &[Injector], origin: &Origin) -> Option<usize>
    ensures value { result ≡ place_in injectors.now origin.now }
    ensures within { IfSome result (λ place. place < length injectors.now) }
{
    injectors
        .iter()
        .position(|injector| same_origin(injector.origin(), *origin))
}

/// The place of the injector of an origin, which is taken now if it wasn't yet. None where the fabric has none.
fn find(
    running: &mut Running,
    begun: &mut Begun,
    origin: &Origin,
) -> Result<Option<usize>, NoMemory>
    ensures found { IfOk result (λ found. Finds (begun_by running.old.origins begun.old) origin.now (begun_by running.new.origins begun.new) found) }
    ensures within { IfOk result (λ found. IfSome found (λ place. place < length begun.new.injectors.items)) }
    ensures rest { running.new ≡ record running.old { origins = running.new.origins } }
{
    if let Some(place) = place_in(&begun.injectors, origin) {
        return Ok(Some(place));
    }
    match running.injector(*origin) {
        Some(injector) => {
            begun.injectors.push(injector)?;
            Ok(Some(begun.injectors.len() - 1))
        }
        None => Ok(None),
    }
}

/// Asks an injector for the begin of a command. Where its ring is full, the workers' turns are released, and it is asked
/// again.
#[tactic(auto, using(crate::proofs::Answering::nothing_then, crate::proofs::Answering::nothing_twice))]
fn send<C: Clock>(
    clock: &C,
    gate: &EvenGate<C>,
    injector: &mut Injector,
    command: Command,
) -> Answer
    ensures sent { result ≡ Answer.Sent → (what : Ask) × (ask_of injector.old.origin command ≡ Ok what) × Sends injector.old what injector.new }
    ensures refused { result ≡ Answer.Refused → (fault : InjectorFault) × (ask_of injector.old.origin command ≡ Err fault) × SendsNothing injector.old injector.new }
    ensures full { (back : Command) → result ≡ Answer.Full back → (back ≡ command) × SendsNothing injector.old injector.new }
{
    match ask(injector, command) {
        Answer::Full(command) => {
            gate.release();
            ask_again(clock, injector, command)
        }
        answer => answer,
    }
}

/// Counts what came of a begin.
fn count<'a>(refusals: &mut Refusals, origin: &Origin, answer: Answer) -> Result<(), Fault<'a>>
    ensures ok { OnOk result (Counted answer origin.now refusals.old refusals.new) }
    ensures fault { IfErr result (λ fault. IsThreadsFault fault) }
{
    match answer {
        Answer::Sent => Ok(()),
        Answer::Refused => {
            refusals.add(origin.id(), 1)?;
            Ok(())
        }
        Answer::Full(_) => Err(Fault::ThreadsFailed),
    }
}

/// Asks the injector at a place for the begin of a command. What it doesn't take is counted as refused.
fn ask_at<'a, C: Clock>(
    clock: &C,
    gate: &EvenGate<C>,
    begun: &mut Begun,
    place: usize,
    origin: &Origin,
    command: Command,
) -> Result<(), Fault<'a>>
    requires { place < length begun.old.injectors.items }
    ensures ok { (left : List Origin) → OnOk result (Asks command origin.now place (begun_by left begun.old) (begun_by left begun.new)) }
    ensures fault { IfErr result (λ fault. IsThreadsFault fault) }
{
    let answer = send(clock, gate, &mut begun.injectors[place], command);
    count(&mut begun.refusals, origin, answer)
}

/// Asks the injector of an origin, if the fabric has one, for the begin of a command. What none takes is counted as refused.
fn begin_of<'a, C: Clock>(
    clock: &C,
    gate: &EvenGate<C>,
    running: &mut Running,
    begun: &mut Begun,
    origin: &Origin,
    command: Command,
) -> Result<(), Fault<'a>>
    ensures fault { IfErr result (λ fault. IsThreadsFault fault) }
    ensures ok { OnOk result (BeginsOf origin.now command (begun_by running.old.origins begun.old) (begun_by running.new.origins begun.new)) }
    ensures rest { running.new ≡ record running.old { origins = running.new.origins } }
{
    match find(running, begun, origin)? {
        Some(place) => ask_at(clock, gate, begun, place, origin, command),
        None => {
            begun.refusals.add(origin.id(), 1)?;
            Ok(())
        }
    }
}

/// The begin of a line, if it is one.
fn begin<'a, C: Clock>(
    clock: &C,
    gate: &EvenGate<C>,
    running: &mut Running,
    begun: &mut Begun,
    command: Command,
) -> Result<(), Fault<'a>>
    ensures fault { IfErr result (λ fault. IsThreadsFault fault) }
    ensures ok { OnOk result (Begins command (begun_by running.old.origins begun.old) (begun_by running.new.origins begun.new)) }
    ensures rest { running.new ≡ record running.old { origins = running.new.origins } }
{
    match origin_of(&command) {
        Some(origin) => begin_of(clock, gate, running, begun, &origin, command),
        None => Ok(()),
    }
}

/// The begins of these lines, in their order.
///
/// # Errors
///
/// `ThreadsFailed` where a ring stays full, and `NoMemory` where memory was refused. Then the begins before it are made.
pub(crate) fn begin_all<'a, C: Clock>(
    clock: &C,
    gate: &EvenGate<C>,
    running: &mut Running,
    begun: &mut Begun,
    lines: Vec<Line>,
) -> Result<(), Fault<'a>>
    ensures fault { IfErr result (λ fault. IsThreadsFault fault) }
    ensures ok { OnOk result (AllBegin lines.items (begun_by running.old.origins begun.old) (begun_by running.new.origins begun.new)) }
    ensures rest { running.new ≡ record running.old { origins = running.new.origins } }
{
    for line in lines {
        begin(clock, gate, running, begun, line.command)?;
    }
    Ok(())
}
