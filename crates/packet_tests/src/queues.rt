use fab_types::Class::{self, Completion, NonPosted, Posted};
use port_queue::{Outbox, PortQueue};
use std::alloc::Global;

/// Neither Clone, Copy nor Default.
#[derive(Drop)]
struct Packet(u8);

/// A queue with two places a class. No method has a contract, so that a proof about many calls knows none of what each promises.
#[derive(Drop)]
struct Waiting {
    queue: PortQueue<Packet, 2>,
}

impl Waiting {
    /// These packets wait, put one after another. `None` where one has no place, or memory was refused.
    fn of(alloc: Global, packets: &[(Class, u8)]) -> Option<Waiting> {
        let mut queue = PortQueue::new(alloc).ok()?;
        for (class, number) in packets {
            if queue.is_full(*class) {
                return None;
            }
            queue.put(*class, Packet(*number));
        }
        Some(Waiting { queue })
    }

    fn has_head(&self, class: Class, number: u8) -> bool {
        matches!(self.queue.head(class), Some(packet) if packet.0 == number)
    }

    /// Takes from each of these classes in turn. Is it the packet of this number, or none?
    fn gives(&mut self, wanted: &[(Class, Option<u8>)]) -> bool {
        for (class, number) in wanted {
            let taken = self.queue.take(*class).map(|packet| packet.0);
            if taken != *number {
                return false;
            }
        }
        true
    }

    /// Takes the first packet of the class and puts it back.
    fn touch(&mut self, class: Class) {
        if let Some(packet) = self.queue.take(class) {
            self.queue.put_back(class, packet);
        }
    }
}

#[test]
fn the_head_of_a_class_waits_for_older_posted_packets_alone(rt: HostRuntime) {
    let packets = [(NonPosted, 1), (Posted, 2), (Completion, 3), (NonPosted, 4)];
    let Some(mut waiting) = Waiting::of(rt.alloc(), &packets) else {
        assert!(rt; false);
        return;
    };
    assert!(rt; waiting.queue.is_full(NonPosted) && !waiting.queue.is_full(Posted));
    assert!(rt; waiting.queue.head(Completion).is_none() && waiting.has_head(NonPosted, 1));
    let wanted = [
        (NonPosted, Some(1)),
        (NonPosted, None),
        (Posted, Some(2)),
        (Completion, Some(3)),
        (NonPosted, Some(4)),
    ];
    assert!(rt; waiting.gives(&wanted));
}

#[test]
fn a_packet_put_back_stands_where_it_stood(rt: HostRuntime) {
    let packets = [(Completion, 1), (Posted, 2), (NonPosted, 3)];
    let Some(mut waiting) = Waiting::of(rt.alloc(), &packets) else {
        assert!(rt; false);
        return;
    };
    waiting.touch(Posted);
    let wanted = [
        (NonPosted, None),
        (Completion, Some(1)),
        (Posted, Some(2)),
        (NonPosted, Some(3)),
    ];
    assert!(rt; waiting.gives(&wanted));
}

/// An outbox, likewise without contracts.
#[derive(Drop)]
struct Sent {
    outbox: Outbox<Packet>,
}

impl Sent {
    /// Is this the packet that is taken from the class?
    fn gives(&mut self, class: Class, number: u8) -> bool {
        matches!(self.outbox.take(class), Some(packet) if packet.0 == number)
    }

    /// Puts the packet, if there is a place.
    fn put(&mut self, class: Class, number: u8) -> bool {
        if self.outbox.is_full(class) {
            return false;
        }
        self.outbox.put(class, Packet(number));
        true
    }

    /// Takes the first packet of the class and puts it back.
    fn touch(&mut self, class: Class) {
        if let Some(packet) = self.outbox.take(class) {
            self.outbox.put_back(class, packet);
        }
    }
}

#[test]
fn an_outbox_counts_puts_and_not_what_waits(rt: HostRuntime) {
    let Ok(outbox) = Outbox::new(rt.alloc(), 1) else {
        assert!(rt; false);
        return;
    };
    let mut sent = Sent { outbox };
    assert!(rt; sent.put(Posted, 1) && !sent.outbox.is_full(NonPosted));
    assert!(rt; sent.gives(Posted, 1) && !sent.put(Posted, 2));
    assert!(rt; sent.outbox.more(1).is_ok() && sent.put(Posted, 2));
    sent.touch(Posted);
    assert!(rt; sent.gives(Posted, 2) && sent.outbox.is_full(Posted));
}
