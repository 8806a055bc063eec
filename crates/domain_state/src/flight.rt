//! What a domain has in flight.

ghost use Rattle.std.specs.Prelude.{◌≡◌, ◌≤◌, ◌++◌, ◌∷◌, [], Some, None, IfOk, OnErr, MatchOption, IfSome, is_none, ◌+◌, ◌<◌, ◌^◌, All, length, slice_set};
ghost use Rattle.frame_log.specs.declared.log.Log.{Log};
ghost use Rattle.request_handling.specs.Heads.{descriptor_of, head_of};
ghost use Rattle.tlp_view.specs.Malformed.{malformed};
ghost use Rattle.domain_state.specs.Flights.{IsSlot, flight_over, held_in};
ghost use Rattle.domain_state.specs.State.{item_at};
ghost use Rattle.request_handling.specs.WellMade.{IsWellMade};

use fab_types::{DomainId, Head, NoMemory, PacketBytes, Parties};
use frame_log::{Frame, Log, Token};
use request_handling::{DataReply, head_of, well_formed_head};
use std::alloc::Global;
use std::marker::Model;
use std::sync::Arc;
use tlp_view::ReadPacket;

/// How many numbers may have no slot.
const MOST_GONE: u64 = 1 << 63;

/// A packet in flight: who made it and for whom, whether it is well formed, and what shows where its bytes are.
#[derive(Drop)]
struct InFlight {
    parties: Parties,
    is_well_formed: bool,
    token: Token,
}

/// The packets in flight by their numbers, and the log that has their bytes.
/// Others may share the log. A contract sees the list, in which the place of a packet that ended stays, empty, since no
/// number is given out twice. Its slot is given out again once nothing is in flight.
#[derive(Drop)]
pub struct Flight {
    log: Arc<Log>,
    /// How many numbers have no slot any more.
    gone: u64,
    /// Those of the numbers from there on.
    slots: Vec<Option<InFlight>>,
    /// How many of them hold a packet.
    held: u64,
}

impl Model for Flight {
    ghost use Rattle.std.specs.Prelude.{List, Option};
    ghost use Rattle.request_handling.specs.Emissions.{Emission};

    ghost Value = { List (Option Emission) };

    ghost use Rattle.domain_state.specs.Flights.{flight_of, AreSlots};

    ghost view = { flight_of };

    ghost invariant = { AreSlots };
}

/// Empties a slot, if there is such a one.
fn clear(slots: &mut [Option<InFlight>], held: &mut u64, index: usize)
    requires { held.old ≡ held_in slots.old }
    ensures slots { slots.new ≡ slice_set slots.old index None }
    ensures held { held.new ≡ held_in slots.new }
{
    if index < slots.len() && slots[index].is_some() {
        slots[index] = None;
        *held -= 1;
    }
}

/// Where no slot holds a packet, the slots are given out again, from the first one on. After 2^63 numbers they are no
/// more: a list is always shorter than that, and so no number is ever too large.
fn restart(gone: &mut u64, slots: &mut Vec<Option<InFlight>>, held: u64)
    requires held { held ≡ held_in slots.old.items }
    requires gone { gone.old ≤ 2 ^ 63 }
    ensures flight { flight_over gone.new slots.new.items ≡ flight_over gone.old slots.old.items }
    ensures held { held ≡ held_in slots.new.items }
    ensures gone { gone.new ≤ 2 ^ 63 }
    ensures slots { (log : Log) → All (IsSlot log) slots.old.items → All (IsSlot log) slots.new.items }
    ensures again { held ≡ 0 → gone.old + length slots.old.items ≤ 2 ^ 63 → length slots.new.items ≡ 0 }
{
    let made = *gone + slots.len() as u64;
    if held == 0 && made <= MOST_GONE {
        *gone = made;
        slots.clear();
    }
}

impl Flight {
    /// Nothing in flight, with room for this many packets. It answers `NoMemory` where memory was
    /// refused.
    pub fn new(alloc: Global, room: usize, log: Arc<Log>) -> Result<Flight, NoMemory>
        ensures { IfOk result (λ flight. flight ≡ []) }
    {
        Ok(Flight {
            log,
            gone: 0,
            slots: Vec::with_capacity(alloc, room)?,
            held: 0,
        })
    }

    /// Makes room for this many packets in all. It answers `NoMemory` where memory was refused.
    pub fn make_room(&mut self, packets: usize) -> Result<(), NoMemory>
        ensures { self.new ≡ self.old }
    {
        self.slots
            .reserve(packets.saturating_sub(self.slots.len()))?;
        Ok(())
    }

    /// Puts a packet with this head and these bytes into flight under the next number.
    fn put(
        &mut self,
        domain: DomainId,
        parties: Parties,
        head: Head,
        is_well_formed: bool,
        bytes: PacketBytes,
    ) -> Result<Frame, NoMemory>
        requires read { is_well_formed ≡ is_none (malformed bytes) }
        requires head { head ≡ head_of (record { parties = parties; bytes = bytes }) }
        requires short { length bytes ≤ 272 }
        requires well_made { IsWellMade parties bytes }
        ensures flight { IfOk result (λ _. self.new ≡ self.old ++ Some (record { parties = parties; bytes = bytes }) ∷ []) }
        ensures frame { IfOk result (λ frame. frame ≡ descriptor_of domain (length self.old) (record { parties = parties; bytes = bytes })) }
        ensures err { OnErr result (self.new ≡ self.old) }
    {
        self.slots.reserve(1)?;
        let number = self.made();
        let (frame, token) = self.log.emit_bytes(domain, number, head, bytes)?;
        self.slots.push_reserved(Some(InFlight {
            parties,
            is_well_formed,
            token,
        }));
        self.held += 1;
        Ok(frame)
    }

    /// Puts a packet of well-formed bytes into flight. Where memory was refused nothing is in flight that was not before.
    fn emit_well_formed(
        &mut self,
        domain: DomainId,
        parties: Parties,
        bytes: PacketBytes,
    ) -> Result<Frame, NoMemory>
        requires well_formed { malformed bytes ≡ None }
        requires short { length bytes ≤ 272 }
        requires well_made { IsWellMade parties bytes }
        ensures flight { IfOk result (λ _. self.new ≡ self.old ++ Some (record { parties = parties; bytes = bytes }) ∷ []) }
        ensures frame { IfOk result (λ frame. frame ≡ descriptor_of domain (length self.old) (record { parties = parties; bytes = bytes })) }
        ensures err { OnErr result (self.new ≡ self.old) }
    {
        let these = parties;
        let head = well_formed_head(these, bytes.as_slice());
        self.put(domain, parties, head, true, bytes)
    }

    /// Emits a packet that the domain itself makes, well formed and of at most 272 bytes, under the next number. Where
    /// memory was refused nothing is in flight that was not before.
    pub fn emit_made(
        &mut self,
        domain: DomainId,
        parties: Parties,
        bytes: &[u8],
    ) -> Result<Frame, NoMemory>
        requires well_formed { malformed bytes.now ≡ None }
        requires short { length bytes.now ≤ 272 }
        requires well_made { IsWellMade parties bytes.now }
        ensures flight { IfOk result (λ _. self.new ≡ self.old ++ Some (record { parties = parties; bytes = bytes.now }) ∷ []) }
        ensures frame { IfOk result (λ frame. frame ≡ descriptor_of domain (length self.old) (record { parties = parties; bytes = bytes.now })) }
        ensures err { OnErr result (self.new ≡ self.old) }
    {
        let copy = PacketBytes::copy_of(*self.slots.allocator(), bytes)?;
        self.emit_well_formed(domain, parties, copy)
    }

    /// The same of an answer whose data are lent: its bytes are put together here.
    pub fn emit_data(&mut self, domain: DomainId, reply: &DataReply<'_>) -> Result<Frame, NoMemory>
        ensures flight { IfOk result (λ _. self.new ≡ self.old ++ Some reply.now ∷ []) }
        ensures frame { IfOk result (λ frame. frame ≡ descriptor_of domain (length self.old) reply.now) }
        ensures err { OnErr result (self.new ≡ self.old) }
    {
        let bytes = reply.bytes(*self.slots.allocator())?;
        self.emit_well_formed(domain, reply.parties(), bytes)
    }

    /// The same of a packet of others, well formed or not, that was read already and whose bytes need no copy.
    pub fn emit_read(
        &mut self,
        domain: DomainId,
        parties: Parties,
        packet: &ReadPacket<'_>,
        bytes: PacketBytes,
    ) -> Result<Frame, NoMemory>
        requires same { bytes ≡ packet.now }
        requires short { length packet.now ≤ 272 }
        requires well_made { IsWellMade parties packet.now }
        ensures flight { IfOk result (λ _. self.new ≡ self.old ++ Some (record { parties = parties; bytes = packet.now }) ∷ []) }
        ensures frame { IfOk result (λ frame. frame ≡ descriptor_of domain (length self.old) (record { parties = parties; bytes = packet.now })) }
        ensures err { OnErr result (self.new ≡ self.old) }
    {
        let these = parties;
        let head = head_of(these, packet);
        self.put(domain, parties, head, packet.is_well_formed(), bytes)
    }

    /// How many packets were emitted, which is the number of the next one.
    pub fn made(&self) -> u64
        ensures { result ≡ length self.now }
    {
        self.gone + self.slots.len() as u64
    }

    /// The packet that is in flight under this number.
    pub fn item(&self, number: u64) -> Option<(Parties, &[u8])>
        ensures well_made { IfSome result (λ item. IsWellMade item.0 item.1.now) }
        ensures short { IfSome result (λ item. length item.1.now ≤ 272) }
        ensures value { MatchOption result (item_at self.now number ≡ None)
            (λ item. item_at self.now number ≡ Some (record { parties = item.0; bytes = item.1.now })) }
    {
        let index = number.checked_sub(self.gone)?;
        match self.slots.get(index as usize) {
            Some(Some(slot)) => Some((slot.parties, self.log.lend(&slot.token).bytes.as_slice())),
            _ => None,
        }
    }

    /// The same with what was read of the packet when it was put into flight.
    pub fn packet(&self, number: u64) -> Option<(Parties, ReadPacket<'_>)>
        ensures well_made { IfSome result (λ item. IsWellMade item.0 item.1) }
        ensures value { MatchOption result (item_at self.now number ≡ None)
            (λ item. item_at self.now number ≡ Some (record { parties = item.0; bytes = item.1 })) }
    {
        let index = number.checked_sub(self.gone)?;
        match self.slots.get(index as usize) {
            Some(Some(slot)) => {
                let bytes = self.log.lend(&slot.token).bytes.as_slice();
                Some((slot.parties, ReadPacket::again(bytes, slot.is_well_formed)))
            }
            _ => None,
        }
    }

    /// The packet of this number is in flight no more.
    pub fn end(&mut self, number: u64)
        ensures { self.new ≡ slice_set self.old number None }
    {
        let Some(index) = number.checked_sub(self.gone) else {
            return;
        };
        clear(&mut self.slots, &mut self.held, index as usize);
        restart(&mut self.gone, &mut self.slots, self.held);
    }
}
