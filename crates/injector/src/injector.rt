//! A program's way to begin what a function or a host begins, and to take its records.

use crate::asks::{submit_ask, tick_ask};
use crate::begin::{Ask, Begin, Numbered};
use crate::begin_ring::BeginRing;
use crate::record_ring::RecordRing;
use domain::Record;
use fab_types::{HostAccess, InjectorFault, NoMemory, Origin};
use rtrb::{Consumer, Producer, PushError, RingBuffer};
use std::alloc::Global;
use std::marker::Model;
use thiserror::Error;

/// How many begins wait in a ring at most.
const BEGINS: usize = 16_384;

/// What a program has of a function or a host while the workers run.
/// The host is a domain's. The program asks for begins, and takes records of completions. No call waits for
/// another thread or takes memory. A contract sees an `InjectorView`.
#[derive(Drop)]
pub struct Injector {
    origin: Origin,
    begins: Producer<Begin, Global, Numbered>,
    records: Consumer<Record>,
    /// The number of the next begin.
    next: u64,
}

impl Model for Injector {
    ghost use Rattle.std.specs.Prelude.{◌≡◌, length};
    ghost use Rattle.rtrb.specs.Ring.{sent};
    ghost use Rattle.injector.specs.Rings.{InjectorView};

    ghost Value = { InjectorView };

    ghost view = { λ i. record { origin = i.origin; begins = i.begins; records = i.records } };

    ghost invariant = { λ i. i.next ≡ length (sent i.begins) };
}

/// The other ends of an injector's rings, which the worker of its origin serves.
#[derive(Drop)]
pub struct WorkerEnds {
    /// The end of the ring of begins.
    pub begins: BeginRing,
    /// The end of the ring of records.
    pub records: RecordRing,
}

/// An access that was not taken, and why.
#[derive(Debug, Drop, Error)]
#[error("{fault}")]
pub struct RefusedAccess {
    /// Why the access was not taken.
    pub fault: InjectorFault,
    /// The access, to be asked for again.
    pub access: HostAccess,
}

impl Injector {
    ghost use Rattle.std.specs.Prelude.{◌≡◌, ◌++◌, ◌∷◌, ◌<◌, [], Err, IfErr, IfOk, IsOk, IsSome, MatchOption, None, Ok, OnErr, OnOk, length};
    ghost use Rattle.std.specs.Result.{IsOkUnless};
    ghost use Rattle.fab_types.specs.declared.faults.injector.InjectorFault.{InjectorFault};
    ghost use Rattle.rtrb.specs.Ring.{known_items, received, IsPair};
    ghost use Rattle.injector.specs.declared.begin.Ask.{Ask};
    ghost use Rattle.injector.specs.Asks.{mmio_ask, submit_ask, tick_ask};
    ghost use Rattle.injector.specs.Injectors.{HasNoPlace, HasPlace, Injects, IsOpened, SameButRecords, SendsNothing};

    /// Makes the rings of an origin.
    /// They have room for 16,384 begins, and for as many records as its domain's budget. It answers `NoMemory`
    /// where memory was refused.
    pub fn open(
        alloc: Global,
        origin: Origin,
        budget: u32,
    ) -> Result<(Injector, WorkerEnds), NoMemory>
        ensures begins { IfOk result (λ made. IsPair (made.0.begins) (made.1.begins.consumer)) }
        ensures records { IfOk result (λ made. IsPair (made.1.records.producer) (made.0.records)) }
        ensures new { IfOk result (λ made. IsOpened origin budget made.0 made.1) }
    {
        let (begins, consumer) = RingBuffer::with_protocol::<Global, Numbered>(alloc, BEGINS)?;
        let (producer, records) = RingBuffer::new(alloc, budget as usize)?;
        let injector = Injector {
            origin,
            begins,
            records,
            next: 0,
        };
        let ends = WorkerEnds {
            begins: BeginRing::new(consumer),
            records: RecordRing::new(producer),
        };
        Ok((injector, ends))
    }

    /// The function or host whose begins it asks for.
    pub fn origin(&self) -> Origin
        ensures { result ≡ self.now.origin }
    {
        self.origin
    }

    /// Sends this begin under the next number, or gives back what was asked.
    fn send(&mut self, what: Ask) -> Result<(), Ask>
        ensures sent { OnOk result (Injects self.old what self.new) }
        ensures refused { IfErr result (λ back. (back ≡ what) × SendsNothing self.old self.new × HasNoPlace self.new) }
        ensures room { HasPlace self.old → IsOk result }
    {
        if self.next == u64::MAX {
            return Err(what);
        }
        let begin = Begin {
            number: self.next,
            what,
        };
        match self.begins.push(begin) {
            Ok(()) => {
                self.next += 1;
                Ok(())
            }
            Err(PushError::Full(begin)) => {
                let Begin { number: _, what } = begin;
                Err(what)
            }
        }
    }

    /// Asks for a submit of this packet, which may be malformed, by the injector's function. The bytes are copied into the
    /// ring. Whether the domain accepts it only the worker learns.
    ///
    /// # Errors
    ///
    /// The first that applies: `WrongOrigin` to a host; `TooLong` for more than 272 bytes; `RingFull` where the ring has
    /// no place that this end knows of (the worker may just have made one), or the begins' numbers are used up. Then
    /// nothing is sent.
    pub fn submit(&mut self, bytes: &[u8]) -> Result<(), InjectorFault>
        ensures refused { (fault : InjectorFault) → submit_ask self.old.origin bytes.now ≡ Err fault → result ≡ Err fault }
        ensures sent { (ask : Ask) → submit_ask self.old.origin bytes.now ≡ Ok ask → OnOk result (Injects self.old ask self.new) }
        ensures full { (ask : Ask) → submit_ask self.old.origin bytes.now ≡ Ok ask → IsOkUnless result InjectorFault.RingFull }
        ensures no_place { result ≡ Err InjectorFault.RingFull → HasNoPlace self.new }
        ensures place { (ask : Ask) → submit_ask self.old.origin bytes.now ≡ Ok ask → HasPlace self.old → IsOk result }
        ensures err { OnErr result (SendsNothing self.old self.new) }
    {
        let what = submit_ask(self.origin, bytes)?;
        match self.send(what) {
            Ok(()) => Ok(()),
            Err(_) => Err(InjectorFault::RingFull),
        }
    }

    /// Asks for a tick of the injector's function.
    ///
    /// # Errors
    ///
    /// The first that applies: `WrongOrigin` to a host; `RingFull`, as for `submit`. Then nothing is sent.
    pub fn tick(&mut self) -> Result<(), InjectorFault>
        ensures refused { (fault : InjectorFault) → tick_ask self.old.origin ≡ Err fault → result ≡ Err fault }
        ensures sent { (ask : Ask) → tick_ask self.old.origin ≡ Ok ask → OnOk result (Injects self.old ask self.new) }
        ensures full { (ask : Ask) → tick_ask self.old.origin ≡ Ok ask → IsOkUnless result InjectorFault.RingFull }
        ensures no_place { result ≡ Err InjectorFault.RingFull → HasNoPlace self.new }
        ensures place { (ask : Ask) → tick_ask self.old.origin ≡ Ok ask → HasPlace self.old → IsOk result }
        ensures err { OnErr result (SendsNothing self.old self.new) }
    {
        let what = tick_ask(self.origin)?;
        match self.send(what) {
            Ok(()) => Ok(()),
            Err(_) => Err(InjectorFault::RingFull),
        }
    }

    /// Asks for an access of the injector's host to a register page.
    ///
    /// # Errors
    ///
    /// The first that applies: `WrongOrigin` to a function; `RingFull`, as for `submit`. Then nothing is sent, and the
    /// access is given back.
    pub fn mmio(&mut self, access: HostAccess) -> Result<(), RefusedAccess>
        ensures refused { (fault : InjectorFault) → mmio_ask self.old.origin access ≡ Err fault → result ≡ Err (record { fault = fault; access = access }) }
        ensures sent { (ask : Ask) → mmio_ask self.old.origin access ≡ Ok ask → OnOk result (Injects self.old ask self.new) }
        ensures full { (ask : Ask) → mmio_ask self.old.origin access ≡ Ok ask → IsOkUnless result (record { fault = InjectorFault.RingFull; access = access }) }
        ensures no_place { IfErr result (λ refused. refused.fault ≡ InjectorFault.RingFull → HasNoPlace self.new) }
        ensures place { (ask : Ask) → mmio_ask self.old.origin access ≡ Ok ask → HasPlace self.old → IsOk result }
        ensures err { OnErr result (SendsNothing self.old self.new) }
    {
        let Origin::Host(_) = self.origin else {
            return Err(RefusedAccess {
                fault: InjectorFault::WrongOrigin,
                access,
            });
        };
        match self.send(Ask::Mmio(access)) {
            Ok(()) => Ok(()),
            Err(Ask::Mmio(access)) => Err(RefusedAccess {
                fault: InjectorFault::RingFull,
                access,
            }),
            Err(_) => unreachable!(),
        }
    }

    /// The oldest record that waits, if one does.
    /// Each is given once, in the order of the deliveries.
    pub fn take_record(&mut self) -> Option<Record>
        ensures same { SameButRecords self.old self.new }
        ensures taken { MatchOption result
            ((received self.new.records ≡ received self.old.records) × (known_items self.new.records ≡ []))
            (λ record_. received self.new.records ≡ received self.old.records ++ record_ ∷ []) }
        ensures succeeds { 0 < length (known_items self.old.records) → IsSome result }
    {
        self.records.pop().ok()
    }
}
