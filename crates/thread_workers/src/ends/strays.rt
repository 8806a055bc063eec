//! Packets that nobody has a case for.

ghost use Rattle.std.specs.Prelude.{◌≡◌, ◌≢◌, ◌≤◌, vec_capacity, vec_len, ◌++◌, ◌∷◌, ◌⊎◌, [], IsSome, Some};
ghost use Rattle.lane.specs.Queues.{frames_of, frames_restored};

use crate::ends::taken_by::TakenBy;
use frame_log::Frame;
use link::Ingress;

/// Keeps a packet that was just taken among the strays: `Stray`. Where memory for one more was refused, it is given back:
/// `Waits`.
pub fn keep_stray(input: &mut Ingress, strays: &mut Vec<Frame>, frame: Frame) -> TakenBy
    requires { IsSome (frames_restored input.old.queue.queue frame) }
    ensures stray { result ≡ TakenBy.Stray → (frames_of input.new.queue.queue.waiting ≡ frames_of input.old.queue.queue.waiting) × (strays.new.items ≡ strays.old.items ++ frame ∷ []) }
    ensures memory { result ≡ TakenBy.Waits → vec_capacity strays.old ≤ vec_len strays.old }
    ensures waits { result ≡ TakenBy.Waits → (frames_restored input.old.queue.queue frame ≡ Some (frames_of input.new.queue.queue.waiting)) × (strays.new.items ≡ strays.old.items) }
    ensures either { (result ≡ TakenBy.Stray) ⊎ (result ≡ TakenBy.Waits) }
{
    match strays.push(frame) {
        Ok(()) => TakenBy::Stray,
        Err(failed) => {
            input.give_back(failed.value);
            TakenBy::Waits
        }
    }
}
