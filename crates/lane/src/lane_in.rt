//! What a port takes packets from.

ghost use Rattle.std.specs.Prelude.{◌≡◌, ◌≢◌, ℕ, List, Option, MatchOption, None, Some, IsSome, IfSome, option_map};
ghost use Rattle.frame_log.specs.Descriptor.{Descriptor};
ghost use Rattle.lane.specs.Lanes.{eligible};

use fab_types::{Class, Head};
use frame_log::Frame;

/// A place that packets are taken from.
pub trait LaneIn {
    /// What tells one lane from another.
    ghost Lane: { Type 0 };

    /// The lane whose end this is. No call changes it.
    ghost lane: { Self → Lane };

    /// The list received: what waits, in the order of arrival.
    ghost waiting: { Self → List Descriptor };

    /// What waits once this packet is put back, right after it was taken.
    ghost restored: { Self → Descriptor → Option (List Descriptor) };

    /// How often the lane lent no head, in a number that wraps.
    ghost misses: { Self → ℕ };

    /// What ports read of the eligible packet of a class (PCIe 4.0, 2.4.1): its oldest, unless an older
    /// posted one waits that it may not pass.
    fn head(&mut self, class: Class) -> Option<Head>
        ensures lane { lane self.new ≡ lane self.old }
        ensures waiting { waiting self.new ≡ waiting self.old }
        ensures found { result ≡ option_map (λ taken. taken.0.head) (eligible class (waiting self.old)) }
        ensures counted { MatchOption result (misses self.new ≢ misses self.old) (λ _. misses self.new ≡ misses self.old) };

    /// Takes the eligible packet of a class.
    fn take(&mut self, class: Class) -> Option<Frame>
        ensures lane { lane self.new ≡ lane self.old }
        ensures taken { MatchOption result ((eligible class (waiting self.old) ≡ None) × (waiting self.new ≡ waiting self.old))
            (λ frame. eligible class (waiting self.old) ≡ Some (frame, waiting self.new)) }
        ensures restores { IfSome result (λ frame. restored self.new frame ≡ Some (waiting self.old)) }
        ensures counted { misses self.new ≡ misses self.old };

    /// Puts the packet back that the last call took, to where it stood.
    fn put_back(&mut self, frame: Frame)
        requires { IsSome (restored self.old frame) }
        ensures lane { lane self.new ≡ lane self.old }
        ensures waiting { restored self.old frame ≡ Some (waiting self.new) }
        ensures counted { misses self.new ≡ misses self.old };
}
