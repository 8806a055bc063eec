//! What a port of a switch puts packets into.

ghost use Rattle.std.specs.Prelude.{◌≡◌, ◌≢◌, ℕ, List, [], ◌∷◌, ◌++◌, MatchResult, MatchBool, Bool, true, OnErr};
ghost use Rattle.std.specs.Bool.{OnTrue};
ghost use Rattle.frame_log.specs.Descriptor.{Descriptor};
ghost use Rattle.lane.specs.Lanes.{Class, class_of};

use crate::vetted_frame::VettedFrame;
use fab_types::Class;

/// A place that a port puts packets into, which passed its tests.
pub trait LaneOut {
    /// What tells one lane from another.
    ghost Lane: { Type 0 };

    /// The lane whose end this is. No call changes it.
    ghost lane: { Self → Lane };

    /// The list sent: all that was put, in order.
    ghost sent: { Self → List Descriptor };

    /// How often the lane was full or gave a packet back.
    /// It is a number that wraps.
    ghost refusals: { Self → ℕ };

    /// May the lane have no place for a packet of the class?
    ghost may_refuse: { Self → Class → Bool };

    /// Is that known beforehand? Of a queue in memory it is, of a ring whose other end is a thread's it isn't.
    ghost is_sure: { Bool };

    /// Has the lane no place for a packet of this class?
    fn is_full(&mut self, class: Class) -> bool
        ensures lane { lane self.new ≡ lane self.old }
        ensures sent { sent self.new ≡ sent self.old }
        ensures counted { MatchBool result (refusals self.new ≢ refusals self.old) (refusals self.new ≡ refusals self.old) }
        ensures full { OnTrue result (may_refuse self.old class ≡ true) }
        ensures exact { is_sure ≡ true → result ≡ may_refuse self.old class }
        ensures same { (other : Class) → may_refuse self.new other ≡ may_refuse self.old other };

    /// Puts a packet behind the others of its class, or gives it back.
    fn push(&mut self, packet: VettedFrame) -> Result<(), VettedFrame>
        ensures lane { lane self.new ≡ lane self.old }
        ensures put { MatchResult result (λ _. (sent self.new ≡ sent self.old ++ packet.frame ∷ []) × (refusals self.new ≡ refusals self.old))
            (λ back. (back ≡ packet) × (sent self.new ≡ sent self.old) × (refusals self.new ≢ refusals self.old)) }
        ensures full { OnErr result (may_refuse self.old (class_of packet.frame) ≡ true) };
}
