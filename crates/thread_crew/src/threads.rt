//! Workers in threads.

ghost use Rattle.std.specs.Prelude.{◌≡◌, List, map, IfOk};
ghost use Rattle.thread_crew.specs.Crews.{started};

use crate::gate::Gate;
use crate::work::{Keeps, Work};
use fab_types::StartFault;
use std::alloc::{AllocError, Global};
use std::snapshot::Snapshot;
use std::sync::atomic::{AtomicBool, Ordering};
use std::sync::{Arc, Wait};
use std::thread;
use std::thread::{PromisedHandle, Threads};

/// Makes the turns of a worker, at most `turns` of them, and gives it back. Before each turn it asks the gate. Once the
/// stop flag is set it begins no further turn, and asks no further gate.
pub fn run<W: Work, G: Gate, R: Wait>(
    rt: &R,
    worker: W,
    gate: &G,
    stop: &AtomicBool,
    turns: u32,
) -> W
    ensures kept { W.kept result ≡ W.kept worker }
    ensures idle { turns ≡ 0 → result ≡ worker }
{
    let mut worker = worker;
    for turn in 0..turns {
        if stop.load(Ordering::SeqCst) {
            break;
        }
        // The flag may have been set while the gate kept the worker waiting.
        if gate.before(worker.id(), turn) && !stop.load(Ordering::SeqCst) {
            worker.turn(rt);
        }
    }
    worker
}

/// Waits until all of these workers have ended, and lets them go.
pub fn end_all<W: Work + Drop + Send + 'static>(
    rt: &impl Threads,
    handles: Vec<PromisedHandle<W, Keeps<W>>>,
) {
    for handle in handles {
        drop(handle.join(rt));
    }
}

/// Starts a thread for one worker, which makes its turns as in `run`.
/// `NoMemory`: the gate or the flag is shared too often to be shared once more. `NoThread`: a thread could not
/// be made, since memory was refused or by the system's limits. After either the worker is let go, and has made
/// no turn.
pub fn start_one<W, G, R>(
    rt: R,
    worker: W,
    gate: &Arc<G, Global>,
    stop: &Arc<AtomicBool, Global>,
    turns: u32,
) -> Result<PromisedHandle<W, Keeps<W>>, StartFault>
where
    W: Work + Drop + Send + 'static,
    G: Gate + Send + Sync + Drop + 'static,
    R: Threads + Wait + Copy + Send + 'static,
    ensures { IfOk result (λ handle. handle.promise.0.value ≡ worker) }
{
    let Ok(gate) = Arc::try_clone(gate) else {
        return Err(StartFault::NoMemory);
    };
    let Ok(stop) = Arc::try_clone(stop) else {
        return Err(StartFault::NoMemory);
    };
    let promise = Keeps(Snapshot::of(&worker));
    let Ok(handle) = thread::spawn_with(
        &rt,
        promise,
        move || run(&rt, worker, &*gate, &*stop, turns),
    ) else {
        return Err(StartFault::NoThread);
    };
    Ok(handle)
}

/// Starts a thread for each worker, all over one gate and one stop flag.
/// They start in the order of the workers. Each makes its turns as in `run`. The faults are those of
/// `start_one`, and `NoMemory` where memory for the list of handles was refused. After a fault no worker runs:
/// it sets the stop flag, waits until those that had begun have ended, and lets all workers go.
pub fn start<W, G, R>(
    rt: R,
    alloc: Global,
    workers: Vec<W>,
    gate: &Arc<G, Global>,
    stop: &Arc<AtomicBool, Global>,
    turns: u32,
) -> Result<Vec<PromisedHandle<W, Keeps<W>>>, StartFault>
where
    W: Work + Drop + Send + 'static,
    G: Gate + Send + Sync + Drop + 'static,
    R: Threads + Wait + Copy + Send + 'static,
    ensures { IfOk result (λ handles. started handles.items ≡ workers.items) }
{
    let Ok(mut handles) = Vec::with_capacity(alloc, workers.len()) else {
        return Err(StartFault::NoMemory);
    };
    for worker in workers {
        match start_one(rt, worker, gate, stop, turns) {
            Ok(handle) => handles.push_reserved(handle),
            Err(fault) => {
                // They need not make the turns that are left.
                stop.store(true, Ordering::SeqCst);
                end_all(&rt, handles);
                return Err(fault);
            }
        }
    }
    Ok(handles)
}

/// Waits until all of these workers have ended, and gives them back.
/// They stand in the order of their handles, each with what no turn changes. Where memory for the list is
/// refused it waits for them all the same, and lets them go.
pub fn join_all<W: Work + Drop + Send + 'static>(
    rt: &impl Threads,
    alloc: Global,
    handles: Vec<PromisedHandle<W, Keeps<W>>>,
) -> Result<Vec<W>, AllocError>
    ensures { IfOk result (λ workers. map W.kept workers.items ≡ map W.kept (started handles.items)) }
{
    let Ok(mut workers) = Vec::with_capacity(alloc, handles.len()) else {
        end_all(rt, handles);
        return Err(AllocError);
    };
    for handle in handles {
        workers.push_reserved(handle.join(rt));
    }
    Ok(workers)
}

/// Waits until a worker has ended, and gives it back with what no turn changes.
pub fn join_one<W: Work + Drop + Send + 'static>(
    rt: &impl Threads,
    handle: PromisedHandle<W, Keeps<W>>,
) -> W
    ensures { W.kept result ≡ W.kept handle.promise.0.value }
{
    handle.join(rt)
}
