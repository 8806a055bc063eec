//! A fabric of two domains on threads of its own, from start to stop.

ghost use Rattle.std.specs.Prelude.{◌≡◌, IfSome, true};
ghost use Rattle.fab_types.specs.Id.{id_of};
ghost use Rattle.fab_types.specs.Origins.{same_origin};
ghost use Rattle.fab_types.specs.declared.origin.Origin.TheVariants.{Function};

use crate::tenant::{Writer, write_and_read};
use domain::{Domain, Record};
use fab_types::{Bdf, Origin};
use layout::Layout;
use port_threads::{Ending, Gate, Injector, Running, WorkerId};
use std::alloc::Global;
use std::sync::{Arc, Wait};
use std::thread;
use std::thread::Threads;
use std::time::Clock;
use thiserror::Error;

/// One switch; domain 1 has function 03:00.0, and domain 2 has 04:00.0.
const LAYOUT: &str = "pciefab 1
frames 2
switch 01:00.0 root
port 02:00.0 03 03 90000000 900fffff 1f 1
port 02:01.0 04 04 90100000 901fffff 1f 2
function 03:00.0 90000000
function 04:00.0 90100000
map 03:00.0 1 frame 0 rw
map 04:00.0 1 frame 1 rw
";

const FIRST: Writer = Writer {
    bus: 3,
    data: [0x11, 0x22, 0x33, 0x44],
};

const SECOND: Writer = Writer {
    bus: 4,
    data: [0x55, 0x66, 0x77, 0x88],
};

/// Lets every turn be made.
#[derive(Drop)]
struct Open;

impl Gate for Open {
    fn before(&self, _worker: WorkerId, _turn: u32) -> bool {
        true
    }
}

/// Why there is nothing to print.
#[derive(Debug, Drop, Error)]
pub enum EmbedFault {
    /// The text of the layout was refused.
    #[error("the layout is faulty")]
    Layout,
    /// Memory was refused, or the fabric was not given back as it stopped.
    #[error("out of memory")]
    NoMemory,
    /// The workers did not start.
    #[error("the workers don't start")]
    Start,
    /// A function was not answered.
    #[error("a function was not answered")]
    NoRecord,
}

/// What the program's threads took, and what is left of the domains.
#[derive(Drop)]
pub struct Ran {
    /// The completion that each of the two threads took.
    pub records: Vec<Record>,
    /// The domains after the stop, by rising number.
    pub domains: Vec<Domain>,
}

/// The injector of the function on this bus. A tenant's thread gets that of its own function, and no other.
fn injector(running: &mut Running, writer: Writer) -> Option<Injector>
    ensures { IfSome result (λ injector. same_origin injector.origin (Function (id_of writer.bus 0 0)) ≡ true) }
{
    running.injector(Origin::Function(Bdf::new(writer.bus, 0, 0)?))
}

/// Two threads, each with the injector of a function: what they take.
fn records_of<R>(rt: R, alloc: Global, running: &mut Running) -> Option<Vec<Record>>
where
    R: Threads + Clock + Copy + Send + 'static,
{
    let first = injector(running, FIRST)?;
    let second = injector(running, SECOND)?;
    let Ok(thread) = thread::spawn(&rt, move || write_and_read(&rt, first, FIRST)) else {
        return None;
    };
    let second = write_and_read(&rt, second, SECOND);
    let mut records = Vec::new(alloc);
    records.push(thread.join(&rt)?).ok()?;
    records.push(second?).ok()?;
    Some(records)
}

/// Starts the fabric, has both functions write and read, and stops it. A fabric that was started has to be stopped, whatever
/// comes between: the compiler sees to that.
pub fn run<R>(rt: R, alloc: Global) -> Result<Ran, EmbedFault>
where
    R: Threads + Wait + Clock + Copy + Send + 'static,
{
    let Ok(layout) = Layout::read(alloc, LAYOUT) else {
        return Err(EmbedFault::Layout);
    };
    let Ok(layout) = Arc::new(alloc, layout) else {
        return Err(EmbedFault::NoMemory);
    };
    let Ok(gate) = Arc::new(alloc, Open) else {
        return Err(EmbedFault::NoMemory);
    };
    let Ok(running) = Running::start(rt, alloc, &layout, u32::MAX, &gate) else {
        return Err(EmbedFault::Start);
    };
    let mut running = running;
    let records = records_of(rt, alloc, &mut running);
    match running.stop(&rt, alloc, Ending::Now) {
        Ok(stopped) => Ok(Ran {
            records: records.ok_or(EmbedFault::NoRecord)?,
            domains: stopped.domains,
        }),
        Err(_) => Err(EmbedFault::NoMemory),
    }
}
