//! Packets come through the rings between the ports of a switch.

ghost use Rattle.std.specs.Prelude.{◌≡◌, MatchBool, false};
ghost use Rattle.lane.specs.Queues.{frames_of};
ghost use Rattle.thread_workers.specs.Collecting.{Collects, Leaves};
ghost use Rattle.thread_rings.specs.Moved.{put_by, taken_by};
ghost use Rattle.thread_rings.specs.Wired.{tags_of};

use link::Egress;
use switch_output::{LaneOut, VettedFrame};
use thread_rings::Ends;

/// Takes the oldest packet of the ring of this end to wait in the egress queue, if one waits and its class has a place
/// there; else it stays in the ring.
#[tactic(auto, using(thread_rings::proofs::Used::same_ins, thread_rings::proofs::Used::same_received, thread_rings::proofs::Used::pulled_at))]
fn collect_at(pairs: &mut Ends<VettedFrame>, end: usize, egress: &mut Egress) -> bool
    ensures moved { MatchBool result (Collects end pairs.old pairs.new egress.old egress.new) (Leaves pairs.old pairs.new egress.old egress.new) }
    ensures tags { tags_of pairs.new ≡ tags_of pairs.old }
    ensures put { put_by pairs.new ≡ put_by pairs.old }
    ensures sender { egress.new.sender ≡ egress.old.sender }
{
    let Some(input) = pairs.ins.get_mut(end) else {
        return false;
    };
    if !input.has_item() {
        return false;
    }
    if egress.is_full(input.front().frame().head().cost.class) {
        return false;
    }
    if egress.push(input.take_known()).is_err() {
        unreachable!();
    }
    true
}

/// Takes at most one packet from each ring between ports. Did it take one?
pub(crate) fn collect(pairs: &mut Ends<VettedFrame>, egress: &mut Egress) -> bool
    ensures rests { result ≡ false → (taken_by pairs.new ≡ taken_by pairs.old) × (frames_of egress.new.queue.queue.waiting ≡ frames_of egress.old.queue.queue.waiting) }
    ensures tags { tags_of pairs.new ≡ tags_of pairs.old }
    ensures put { put_by pairs.new ≡ put_by pairs.old }
    ensures sender { egress.new.sender ≡ egress.old.sender }
{
    let mut has_moved = false;
    for end in 0..pairs.ins.len() {
        if collect_at(pairs, end, egress) {
            has_moved = true;
        }
    }
    has_moved
}
