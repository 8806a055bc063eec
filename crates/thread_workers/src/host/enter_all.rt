//! What the hosts' outboxes have goes to the link of the top switch.

ghost use Rattle.std.specs.Prelude.{◌≡◌, ◌<◌, false, length, map};
ghost use Rattle.lane.specs.Queues.{frames_of};
ghost use Rattle.thread_workers.specs.Hosts.{EntersAt};

use crate::ends::enter_each;
use crate::host::domain_host::DomainHost;
use link::Egress;

/// The outbox at this place, each class in turn. Did a packet go?
#[tactic(auto, using(crate::proofs::Growing::same_host, crate::proofs::Growing::same_origins))]
fn enter_at(hosts: &mut [DomainHost], place: usize, egress: &mut Egress) -> bool
    requires { place < length hosts.old }
    ensures entered { EntersAt place hosts.old hosts.new (frames_of egress.old.queue.queue.waiting) (frames_of egress.new.queue.queue.waiting) result }
    ensures rests { result ≡ false → (hosts.new ≡ hosts.old) × (frames_of egress.new.queue.queue.waiting ≡ frames_of egress.old.queue.queue.waiting) }
    ensures origins { map (λ host. host.outbox.origin) hosts.new ≡ map (λ host. host.outbox.origin) hosts.old }
    ensures sender { egress.new.sender ≡ egress.old.sender }
{
    enter_each(&mut hosts[place].outbox, egress)
}

/// One outbox after another. Did a packet go?
pub(crate) fn enter_all(hosts: &mut [DomainHost], egress: &mut Egress) -> bool
    ensures rests { result ≡ false → (hosts.new ≡ hosts.old) × (frames_of egress.new.queue.queue.waiting ≡ frames_of egress.old.queue.queue.waiting) }
    ensures origins { map (λ host. host.outbox.origin) hosts.new ≡ map (λ host. host.outbox.origin) hosts.old }
    ensures sender { egress.new.sender ≡ egress.old.sender }
{
    let mut has_moved = false;
    for place in 0..hosts.len() {
        if enter_at(hosts, place, egress) {
            has_moved = true;
        }
    }
    has_moved
}
