//! The state of a domain.

ghost use Rattle.std.specs.Prelude.{◌≡◌, ◌≤◌, ◌-◌, ℕ, List, length, IfOk, IfSome, MatchOption, None, Some, option_map, slice_get};
ghost use Rattle.std.specs.Option.{option_copied};
ghost use Rattle.function.specs.Plans.{OpensLineTag, PlanFits, plan_of};
ghost use Rattle.host_memory.specs.Pages.{page_of};
ghost use Rattle.domain_state.specs.State.{item_at, start_state};
ghost use Rattle.request_handling.specs.WellMade.{IsWellMade};

use crate::deliver::Record;
use domain_state::{Contents, Counts, Flight, first_registers, planned, register_page};
use fab_types::{Bdf, NoMemory, Parties};
use frame_log::Log;
use function::{Functions, OpenTags, Plan};
use host_memory::HostMemory;
use layout::Start;
use std::alloc::Global;
use std::marker::Model;
use std::sync::Arc;
use tlp_view::ReadPacket;

/// A domain's memory, registers, open Tags, counts and packets in flight.
#[derive(Drop)]
pub(crate) struct State {
    pub(crate) contents: Contents,
    pub(crate) open_tags: OpenTags,
    pub(crate) records: Vec<Record>,
    pub(crate) flight: Flight,
}

impl Model for State {
    ghost use Rattle.domain_state.specs.State.{Alone};

    ghost Value = { Alone };

    ghost use Rattle.domain.specs.States.{alone_of, HasRoom};

    ghost view = { alone_of };

    ghost invariant = { HasRoom };
}

impl State {
    /// The state at the start, with room for three packets and one record a begin. It answers `NoMemory` where
    /// memory was refused.
    pub(crate) fn new(alloc: Global, start: &Start, log: Arc<Log>) -> Result<State, NoMemory>
        ensures { IfOk result (λ state. state ≡ start_state start.now) }
    {
        let room = start.budget() as usize * 3;
        Ok(State {
            contents: Contents {
                memory: HostMemory::new(alloc, start)?,
                registers: first_registers(alloc, start)?,
                counts: Counts {
                    begins: 0,
                    blocked: 0,
                    unexpected: 0,
                },
            },
            open_tags: OpenTags::new(alloc)?,
            records: Vec::with_capacity(alloc, start.budget() as usize)?,
            flight: Flight::new(alloc, room, log)?,
        })
    }

    /// Makes room for this many packets in flight, in all.
    pub(crate) fn make_room(&mut self, packets: usize) -> Result<(), NoMemory>
        ensures { self.new ≡ self.old }
    {
        self.flight.make_room(packets)
    }

    pub(crate) fn counts(&self) -> Counts
        ensures { result ≡ self.now.counts }
    {
        self.contents.counts
    }

    pub(crate) fn open_tags(&self) -> &OpenTags
        ensures { result.now.items ≡ self.now.open_tags }
    {
        &self.open_tags
    }

    /// The packet in flight under this number.
    pub(crate) fn item(&self, number: u64) -> Option<(Parties, &[u8])>
        ensures well_made { IfSome result (λ item. IsWellMade item.0 item.1.now) }
        ensures short { IfSome result (λ item. length item.1.now ≤ 272) }
        ensures value { MatchOption result (item_at self.now.flight number ≡ None)
            (λ item. item_at self.now.flight number ≡ Some (record { parties = item.0; bytes = item.1.now })) }
    {
        self.flight.item(number)
    }

    /// The same with what was read of the packet when it was put into flight.
    pub(crate) fn packet(&self, number: u64) -> Option<(Parties, ReadPacket<'_>)>
        ensures well_made { IfSome result (λ item. IsWellMade item.0 item.1) }
        ensures value { MatchOption result (item_at self.now.flight number ≡ None)
            (λ item. item_at self.now.flight number ≡ Some (record { parties = item.0; bytes = item.1 })) }
    {
        self.flight.packet(number)
    }

    /// How many packets were made.
    pub(crate) fn made(&self) -> u64
        ensures { result ≡ length self.now.flight }
    {
        self.flight.made()
    }

    /// The completions that were delivered, oldest first.
    pub(crate) fn records(&self) -> &[Record]
        ensures { result.now ≡ self.now.deliveries }
    {
        &self.records
    }

    /// The record that was made last.
    pub(crate) fn last_record(&self) -> Option<Record>
        ensures { result ≡ slice_get self.now.deliveries (length self.now.deliveries - 1) }
    {
        match self.records.last() {
            Some(record) => Some(record.copy()),
            None => None,
        }
    }

    /// The domain's functions.
    pub(crate) fn functions(&self) -> &Functions
        ensures { result.now ≡ self.now.registers }
    {
        &self.contents.registers
    }

    /// What the next tick of this function does.
    pub(crate) fn planned(&self, function: Bdf) -> Option<Plan>
        ensures value { result ≡ option_map (λ page. plan_of function page self.now.open_tags) (page_of self.now.registers function) }
        ensures fits { IfSome result (λ plan. (page : List ℕ) → page_of self.now.registers function ≡ Some page → PlanFits plan page) }
        ensures tag { IfSome result OpensLineTag }
    {
        planned(&self.contents.registers, function, &self.open_tags)
    }

    pub(crate) fn memory(&self) -> &HostMemory
        ensures { result.now ≡ self.now.frames }
    {
        &self.contents.memory
    }

    /// The register page of this function, if it is of the domain.
    pub(crate) fn register_page(&self, function: Bdf) -> Option<&[u8]>
        ensures { option_copied result ≡ page_of self.now.registers function }
    {
        register_page(&self.contents.registers, function)
    }

    /// The bytes of this frame of memory, if it is of the domain.
    pub(crate) fn frame(&self, number: u16) -> Option<&[u8]>
        ensures { option_copied result ≡ page_of self.now.frames number }
    {
        self.contents.memory.page(number)
    }
}
