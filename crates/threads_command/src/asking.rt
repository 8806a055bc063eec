//! A begin of a script, asked of the injector of its function or host.

ghost use Rattle.std.specs.Prelude.{◌≡◌, Err, MatchOption, None, Ok, Some};
ghost use Rattle.fab_types.specs.declared.faults.injector.InjectorFault.{InjectorFault};
ghost use Rattle.injector.specs.declared.begin.Ask.{Ask};
ghost use Rattle.injector.specs.Injectors.{HasNoPlace, SendsNothing};
ghost use Rattle.threads_command.specs.Asking.{Sends, ask_of, origin_of};

use fab_types::{InjectorFault, Origin};
use port_threads::{Injector, RefusedAccess};
use script::Command;
use std::thread;
use std::time::{Clock, Duration};

// How often a ring that is full is tried again.
const TRIES: u32 = 1_000;

// How long before each time, in milliseconds.
const PAUSE: u64 = 1;

/// What came of a begin that an injector was asked for.
#[derive(Drop)]
pub(crate) enum Answer {
    /// It is in the ring to the worker.
    Sent,
    /// No injector of that origin takes it.
    Refused,
    /// The ring was full; the command is given back.
    Full(Command),
}

/// Who begins what a command asks for. A sweep is nobody's begin.
pub(crate) fn origin_of(command: &Command) -> Option<Origin>
    ensures { result ≡ origin_of command.now }
{
    match command {
        Command::Submit(function, _) | Command::Tick(function) => Some(Origin::Function(*function)),
        Command::Mmio(domain, _) => Some(Origin::Host(*domain)),
        Command::Sweep(_) => None,
    }
}

/// Asks an injector for the begin of a command.
pub(crate) fn ask(injector: &mut Injector, command: Command) -> Answer
    ensures sent { result ≡ Answer.Sent → (what : Ask) × (ask_of injector.old.origin command ≡ Ok what) × Sends injector.old what injector.new }
    ensures refused { result ≡ Answer.Refused → (fault : InjectorFault) × (ask_of injector.old.origin command ≡ Err fault) × SendsNothing injector.old injector.new }
    ensures full { (back : Command) → result ≡ Answer.Full back → (back ≡ command) × SendsNothing injector.old injector.new × HasNoPlace injector.new }
{
    match command {
        Command::Submit(function, bytes) => match injector.submit(bytes.as_slice()) {
            Ok(()) => Answer::Sent,
            Err(InjectorFault::RingFull) => Answer::Full(Command::Submit(function, bytes)),
            Err(_) => Answer::Refused,
        },
        Command::Tick(function) => match injector.tick() {
            Ok(()) => Answer::Sent,
            Err(InjectorFault::RingFull) => Answer::Full(Command::Tick(function)),
            Err(_) => Answer::Refused,
        },
        Command::Mmio(domain, access) => match injector.mmio(access) {
            Ok(()) => Answer::Sent,
            Err(RefusedAccess { fault, access }) => match fault {
                InjectorFault::RingFull => Answer::Full(Command::Mmio(domain, access)),
                _ => Answer::Refused,
            },
        },
        Command::Sweep(_) => Answer::Refused,
    }
}

/// Asks an injector whose ring was full for the same again: at most 1,000 times, a millisecond apart.
#[tactic(auto, using(crate::proofs::Answering::nothing_then, crate::proofs::Answering::nothing_twice))]
pub(crate) fn ask_again<C: Clock>(clock: &C, injector: &mut Injector, command: Command) -> Answer
    ensures sent { result ≡ Answer.Sent → (what : Ask) × (ask_of injector.old.origin command ≡ Ok what) × Sends injector.old what injector.new }
    ensures refused { result ≡ Answer.Refused → (fault : InjectorFault) × (ask_of injector.old.origin command ≡ Err fault) × SendsNothing injector.old injector.new }
    ensures full { (back : Command) → result ≡ Answer.Full back → (back ≡ command) × SendsNothing injector.old injector.new }
{
    let mut answer = Answer::Full(command);
    for _ in 0..TRIES {
        let Answer::Full(command) = answer else {
            break;
        };
        thread::sleep(clock, Duration::from_millis(PAUSE));
        answer = ask(injector, command);
    }
    answer
}
