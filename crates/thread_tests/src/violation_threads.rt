//! Reports of ports that run in threads.

ghost use Rattle.std.specs.Prelude.{◌≡◌, IfSome};
ghost use Rattle.monitor.specs.Reporting.{seat_of};

use crate::violation_reports::{has_in_order, violation};
use lane::Reporter;
use monitor::{QueueReporter, Watch};
use std::snapshot::Snapshot;
use std::sync::Wait;
use std::thread;
use std::thread::{Promise, PromisedHandle, Threads};

/// The port's end that comes back from a thread is the one that went there.
#[derive(Drop)]
struct SamePort(Snapshot<QueueReporter>);

impl Promise<QueueReporter> for SamePort {
    ghost kept_by = { λ p r. seat_of r ≡ seat_of p.0.value };
}

/// So is the monitor's, and no port's end came back to it meanwhile.
#[derive(Drop)]
struct SameWatch(Snapshot<Watch>);

impl Promise<Watch> for SameWatch {
    ghost kept_by = { λ p r. (r.queue ≡ p.0.value.queue) × (r.ended ≡ p.0.value.ended) };
}

/// Reports a violation until it is taken.
fn report<R: Wait>(rt: &R, port: &mut QueueReporter, number: u16)
    ensures { seat_of port.new ≡ seat_of port.old }
{
    for _ in rt.forever() {
        if port.report(violation(number)).is_ok() {
            return;
        }
        thread::yield_now();
    }
    unreachable!()
}

/// Reports the violations of the first numbers, each until it is taken.
fn report_all<R: Wait>(rt: &R, port: QueueReporter, count: u16) -> QueueReporter
    ensures { seat_of result ≡ seat_of port }
{
    let mut port = port;
    for number in 0..count {
        report(rt, &mut port, number);
    }
    port
}

/// Has a port report in a thread of its own.
fn start_port<R>(
    rt: R,
    port: QueueReporter,
    count: u16,
) -> Option<PromisedHandle<QueueReporter, SamePort>>
where
    R: Threads + Wait + Copy + Send + 'static,
    ensures { IfSome result (λ handle. handle.promise.0.value ≡ port) }
{
    let promise = SamePort(Snapshot::of(&port));
    let Ok(handle) = thread::spawn_with(&rt, promise, move || report_all(&rt, port, count)) else {
        return None;
    };
    Some(handle)
}

/// Takes one report, once there is one and memory for it.
fn take<R: Wait>(rt: &R, watch: &mut Watch)
    ensures { (watch.new.queue ≡ watch.old.queue) × (watch.new.ended ≡ watch.old.ended) }
{
    for _ in rt.forever() {
        match watch.take() {
            Ok(true) => return,
            Ok(false) | Err(_) => thread::yield_now(),
        }
    }
    unreachable!()
}

/// Takes so many reports.
fn take_all<R: Wait>(rt: &R, watch: Watch, count: u16) -> Watch
    ensures { (result.queue ≡ watch.queue) × (result.ended ≡ watch.ended) }
{
    let mut watch = watch;
    for _ in 0..count {
        take(rt, &mut watch);
    }
    watch
}

/// Has the monitor take so many reports in a thread of its own.
fn start_watch<R>(rt: R, watch: Watch, count: u16) -> Option<PromisedHandle<Watch, SameWatch>>
where
    R: Threads + Wait + Copy + Send + 'static,
    ensures { IfSome result (λ handle. handle.promise.0.value ≡ watch) }
{
    let promise = SameWatch(Snapshot::of(&watch));
    let Ok(handle) = thread::spawn_with(&rt, promise, move || take_all(&rt, watch, count)) else {
        return None;
    };
    Some(handle)
}

#[test]
fn what_two_threads_report_is_in_the_list_in_order(rt: HostRuntime) {
    let Ok(mut watch) = Watch::open(rt.alloc()) else {
        panic!(rt; "no queue");
    };
    let (Ok(first), Ok(second)) = (watch.admit(), watch.admit()) else {
        panic!(rt; "no ends of ports");
    };
    let (Some(first), Some(second)) = (start_port(rt, first, 1000), start_port(rt, second, 1000))
    else {
        panic!(rt; "no threads of ports");
    };
    let Some(watch) = start_watch(rt, watch, 1950) else {
        panic!(rt; "no thread of the monitor");
    };
    let mut watch = watch.join(&rt);
    watch.close(first.join(&rt));
    watch.close(second.join(&rt));
    let Ok(list) = watch.finish(&rt) else {
        panic!(rt; "no list");
    };
    assert_eq!(rt; list.len(), 2000);
    assert!(rt; has_in_order(&list, 0, 1000) && has_in_order(&list, 1, 1000));
}
