//! Runs without the events of other domains: what a domain has of them, beside what it has of the whole run.

use crate::moves::{Move, sweep_of};
use fab_types::Class::Posted;
use fab_types::{Bdf, CompareFault, DomainId, PacketBytes, Way};
use fabric_core::{Comparison, Event, Fabric, compare_runs, purge_run};
use layout::Layout;
use layout_tests::EXAMPLE;
use std::alloc::Global;
use std::test::Fail;

/// A write of 03:00.0, and three reads of what it wrote: of four bytes, of two, and of none. How many spoofed writes
/// come after each.
const PACKETS: [(&str, u32); 4] = [
    ("400000010300000f0000100011223344", 2000),
    ("000000010300200f00001000", 1500),
    ("000000010300210600001000", 1500),
    ("000000010300220000001000", 0),
];

/// A write of 06:00.0 in the name of 03:00.0.
const SPOOFED_WRITE: &str = "400000010300000f00001000deadbeef";

/// Who writes so, and the port above it.
const SENDER: u16 = 0x0600;

const PORT: u16 = 0x0500;

/// How a posted packet of 06:00.0 goes to its port, and its credits come back.
const TO_THE_PORT: [Move; 5] = [
    Move::EnterOfFunction(SENDER, Posted),
    Move::Send(SENDER, Way::Up, Posted),
    Move::Take(SENDER, Way::Up),
    Move::Pass(PORT, Posted),
    Move::Credit(SENDER, Way::Up),
];

/// A list of events over a layout.
#[derive(Drop)]
struct Script {
    alloc: Global,
    layout: Layout,
    events: Vec<Event>,
}

impl Script {
    fn new(alloc: Global) -> Option<Script> {
        Some(Script {
            alloc,
            layout: Layout::read(alloc, EXAMPLE).ok()?,
            events: Vec::new(alloc),
        })
    }

    fn add(&mut self, event: Event) -> Option<()> {
        self.events.push(event).ok()
    }

    fn submit(&mut self, function: Bdf, word: &str) -> Option<()> {
        let bytes = hex::decode(self.alloc, word).ok()?;
        self.add(Event::Submit(function, PacketBytes::from_vec(bytes).ok()?))
    }

    /// Each event of the layout once.
    fn sweep(&mut self) -> Option<()> {
        let events = sweep_of(self.alloc, &self.layout).ok()?;
        for event in events {
            self.events.push(event).ok()?;
        }
        Some(())
    }

    /// 03:00.0 submits a packet, which and whose answer then arrive.
    fn ask(&mut self, word: &str) -> Option<()> {
        self.submit(Bdf::from_bits(0x0300), word)?;
        for _ in 0..8 {
            self.sweep()?;
        }
        Some(())
    }

    fn go_to_the_port(&mut self) -> Option<()> {
        for step in TO_THE_PORT {
            self.add(step.event())?;
        }
        Some(())
    }

    /// 06:00.0 submits a packet in the name of another, which its port stops.
    fn spoof(&mut self) -> Option<()> {
        self.submit(Bdf::from_bits(SENDER), SPOOFED_WRITE)?;
        self.go_to_the_port()
    }
}

/// The packets of 03:00.0 in turn.
fn quiet(alloc: Global) -> Option<Script> {
    let mut script = Script::new(alloc)?;
    for (packet, _) in PACKETS {
        script.ask(packet)?;
    }
    Some(script)
}

/// The same, with 5,000 spoofed writes between them.
fn loud(alloc: Global) -> Option<Script> {
    let mut script = Script::new(alloc)?;
    for (packet, times) in PACKETS {
        script.ask(packet)?;
        for _ in 0..times {
            script.spoof()?;
        }
    }
    Some(script)
}

/// How often a domain began something.
fn begins(fabric: &Fabric, domain: DomainId) -> Option<u32> {
    Some(fabric.domain(domain)?.counts().begins)
}

/// How many entries its journal has, if it is the same in both.
fn entries(one: &Fabric, other: &Fabric, domain: DomainId) -> Option<usize> {
    let (one, other) = (one.domain(domain)?, other.domain(domain)?);
    if one.has_same_journal(other) {
        Some(one.journal().len())
    } else {
        None
    }
}

fn compared(one: &Script, other: &Script, domain: DomainId) -> Result<Comparison, CompareFault> {
    compare_runs(one.alloc, &one.layout, &one.events, &other.events, domain)
}

fn purged(script: &Script, domain: DomainId) -> Result<(Fabric, Fabric), CompareFault> {
    purge_run(script.alloc, &script.layout, &script.events, domain)
}

fn is_equal(comparison: &Comparison) -> bool {
    matches!(comparison, Comparison::Equal(_, _))
}

/// Does a comparison of both lists say that the domain's journals are equal? It says nothing where it fails.
fn are_equal(one: &Script, other: &Script, domain: DomainId) -> Option<bool> {
    Some(is_equal(&compared(one, other, domain).ok()?))
}

/// What 5,000 writes of the other domain leave in the whole run, and in what is left of it.
fn leaves_no_trace(whole: &Fabric, left: &Fabric, domain: DomainId, other: DomainId) -> bool {
    // Four begins, three answers, and what ends each of the seven packets.
    let journals = entries(whole, left, domain) == Some(11);
    let begun = begins(whole, other) == Some(5000) && begins(left, other) == Some(0);
    let told = whole.violations().len() == 5000 && left.violations().is_empty();
    journals && begun && told
}

/// Do the writes of the other domain leave no trace in this one's run?
fn are_apart(script: &Script, domain: DomainId, other: DomainId) -> bool {
    match purged(script, domain) {
        Ok((whole, left)) => leaves_no_trace(&whole, &left, domain, other),
        Err(_) => false,
    }
}

#[test]
fn five_thousand_spoofed_writes_leave_no_trace_in_the_other_domain(
    rt: HostRuntime,
) -> Result<(), Fail> {
    let alloc = rt.alloc();
    let quiet = quiet(alloc).ok_or("a list")?;
    let loud = loud(alloc).ok_or("a longer list")?;
    let domain = DomainId::new(1).ok_or("a domain")?;
    let other = DomainId::new(2).ok_or("another domain")?;
    assert_eq!(rt; are_equal(&quiet, &loud, domain), Some(true));
    assert_eq!(rt; are_equal(&quiet, &loud, other), Some(false));
    assert!(rt; are_apart(&loud, domain, other));
    Ok(())
}

fn are_not_compared(script: &Script, nobody: DomainId) -> bool {
    let comparison = compared(script, script, nobody);
    matches!(comparison, Err(CompareFault::NoDomain))
}

fn is_not_purged(script: &Script, nobody: DomainId) -> bool {
    matches!(purged(script, nobody), Err(CompareFault::NoDomain))
}

#[test]
fn a_domain_that_owns_no_port_is_refused(rt: HostRuntime) -> Result<(), Fail> {
    let script = Script::new(rt.alloc()).ok_or("a layout")?;
    let nobody = DomainId::new(3).ok_or("a domain")?;
    assert!(rt; are_not_compared(&script, nobody));
    assert!(rt; is_not_purged(&script, nobody));
    Ok(())
}
