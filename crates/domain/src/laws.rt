//! Laws of the machine of a domain. Each is the contract of a function that does nothing.

ghost use Rattle.std.specs.Prelude.{◌≡◌, ℕ, ◌+◌, ◌*◌, ◌++◌, ◌∷◌, ◌≤◌, [], IfSome, IsSome, List, Some, false, length, true};
ghost use Rattle.fab_types.specs.declared.class.Class.TheVariants.{Completion};
ghost use Rattle.fab_types.specs.declared.head.Parties.{Parties};
ghost use Rattle.fab_types.specs.declared.place.Place.{Place};
ghost use Rattle.platform.specs.declared.parts.DownstreamPort.{DownstreamPort};
ghost use Rattle.platform.specs.Share.{Share, is_guarded};
ghost use Rattle.domain.specs.declared.entry.Entry.{Entry};
ghost use Rattle.tlp_view.specs.Costs.{cost_of};
ghost use Rattle.domain.specs.declared.entry.Entry.TheVariants.{Alien};
ghost use Rattle.domain.specs.Consumed.{AreConsumedOnce, consumes, is_in_order, times_consumed};
ghost use Rattle.domain.specs.Machine.{aliens_in, change, replay};
ghost use Rattle.domain.specs.Orders.{IsPosted, KeepOrder};
ghost use Rattle.domain.specs.Sent.{AreSent, Sent, sent, sent_by_entry};
ghost use Rattle.domain_state.specs.State.{Alone, Change, item_at};
ghost use Rattle.request_handling.specs.Takers.{is_at_port};

use crate::domain::Domain;

/// Domains of one share whose journals are equal have equal states.
/// A state is memory, registers, records, open Tags, counts, and what is in flight.
pub fn equal_journals_leave_equal_states(one: &Domain, other: &Domain)
    requires share { one.now.share ≡ other.now.share }
    requires journal { one.now.journal ≡ other.now.journal }
    ensures { one.now.state ≡ other.now.state }
{
    // for the proof: each state is the replay of its journal
    let _ = one.journal();
    let _ = other.journal();
}

/// In a guarded layout no entry of a journal is of an alien packet.
/// Guarded: all five ACS controls are set on each downstream port (PCIe 4.0, 6.12.1).
pub fn guarded_journals_have_no_alien_entry(domain: &Domain)
    requires { is_guarded domain.now.share ≡ true }
    ensures { aliens_in domain.now.journal ≡ 0 }
{
    // for the proof: the state is the replay of the journal
    let _ = domain.journal();
}

/// How much a journal leads to, of any share that it replays for.
/// There are at most three packets for each begin and two for each alien packet, and no more begins than the
/// budget.
pub fn begins_bound_what_is_emitted()
    ensures packets { (share : Share) (journal : List Entry) (state : Alone) → replay share journal ≡ Some state → length state.flight ≤ 3 * state.counts.begins + 2 * aliens_in journal }
    ensures begins { (share : Share) (journal : List Entry) (state : Alone) → replay share journal ≡ Some state → state.counts.begins ≤ share.budget }
{}

/// What answers an alien packet at a port is a completion (PCIe 4.0, 2.2.9).
/// It may be that nothing answers it.
pub fn ports_answer_by_completions()
    ensures { (share : Share) (state : Alone) (place : Place) (sender : Parties) (bytes : List ℕ) (made : Change) → is_at_port share place ≡ true → change share state (Alien place sender bytes) ≡ Some made → IfSome made.emission (λ e. (cost_of e.bytes).class ≡ Completion) }
{}

/// Each packet that a domain made is in flight, or was consumed once.
/// That is of any journal that replays: it is in flight, or exactly one entry of the journal consumed it, and
/// never both. Nothing else was consumed.
pub fn emissions_are_consumed_once()
    ensures { (share : Share) (journal : List Entry) (state : Alone) → replay share journal ≡ Some state → AreConsumedOnce journal state }
{}

/// What of the packets that a journal sent is in flight stands at its number.
/// That is of any journal that replays: the packets that it sent are as many as the domain made, and what is in
/// flight stands among them at the place of its number. What stood in a function's outbox as sent by a function
/// was sent by that one.
pub fn sent_packets_are_those_in_flight()
    ensures { (share : Share) (journal : List Entry) (state : Alone) → replay share journal ≡ Some state → AreSent share journal state }
{}

/// What one entry more leaves of the packets sent and of their order.
///
/// - `sent`: what it sends stands behind all others that were sent.
/// - `later`: two packets stay in the order in which they are consumed, unless it consumes the second, and
///   neither it nor an entry before consumed the first.
/// - `new`: they are in order while nothing consumed the second.
/// - `needs`: it consumes only what is in flight.
pub fn order_is_kept_entry_by_entry()
    ensures sent { (share : Share) (journal : List Entry) (state : Alone) (entry : Entry) (made : Change) → replay share journal ≡ Some state → change share state entry ≡ Some made → sent share (journal ++ entry ∷ []) ≡ sent share journal ++ sent_by_entry share state entry (Some made) }
    ensures later { (n m : ℕ) (journal : List Entry) (entry : Entry) → is_in_order n m journal ≡ true → (consumes m entry ≡ true → consumes n entry ≡ false → 1 ≤ times_consumed n journal) → is_in_order n m (journal ++ entry ∷ []) ≡ true }
    ensures new { (n m : ℕ) (journal : List Entry) → times_consumed m journal ≡ 0 → is_in_order n m journal ≡ true }
    ensures needs { (share : Share) (state : Alone) (entry : Entry) (made : Change) (n : ℕ) → change share state entry ≡ Some made → consumes n entry ≡ true → IsSome (item_at state.flight n) }
{}

/// Two packets that keep their order were put in one outbox (PCIe 4.0, 2.4.1).
/// The order is that on the way. The first is a posted one.
pub fn packets_in_order_left_one_outbox()
    ensures outbox { (ports : List DownstreamPort) (domain : ℕ) (first second : Sent) → KeepOrder ports domain first second → first.source ≡ second.source }
    ensures posted { (ports : List DownstreamPort) (domain : ℕ) (first second : Sent) → KeepOrder ports domain first second → IsPosted first.emission }
{}
