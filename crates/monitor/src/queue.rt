//! The queue in which reports of violations wait for the monitor, and the rule that its two kinds of ends keep.

use crossbeam_queue::RuledArrayQueue;
use crossbeam_queue::protocol::{Join, Lesson, Outcome, Protocol, Split};
use fab_types::Violation;
use std::collections::LinkedList;

/// How many reports the queue has places for.
pub const PLACES: usize = 64;

/// A violation as a port reported it.
#[derive(Clone, Copy, Debug, PartialEq, Eq)]
pub struct Report {
    /// The port's seat at the queue.
    pub seat: u64,
    /// Its number among the reports of that port, from 0.
    pub number: u64,
    /// What was refused, by which port and test.
    pub violation: Violation,
}

/// What a pass of the queue knows: a port's, its seat and what it reported; the monitor's, how many
/// seats it gave, what it took, and what each port that has ended reported. No value of it is made.
pub(crate) struct View {
    /// Is the pass a port's?
    pub is_port: bool,
    /// Of a port's: its seat.
    pub seat: u64,
    /// Of a port's: what it reported, in its order.
    pub reported: LinkedList<Report>,
    /// Is the pass the monitor's?
    pub is_monitor: bool,
    /// Of the monitor's: how many seats it gave.
    pub seats: u64,
    /// Of the monitor's: what it took, in its order.
    pub taken: LinkedList<Report>,
    /// Of the monitor's: what each port that has ended reported, from the first seat on.
    pub ended: LinkedList<LinkedList<Report>>,
}

/// The rule: of each port, what was taken, and then what waits, is what it reported, in its order.
pub(crate) struct InOrder;

impl Protocol<Report, View> for InOrder {
    ghost use Rattle.std.specs.Prelude.{[]};
    ghost use Rattle.monitor.specs.Order.{monitor_view, IsInOrder};

    ghost holds = { IsInOrder };

    ghost first = { monitor_view 0 [] [] };
}

/// A pass for one port more, and its return once the port has ended.
pub(crate) struct OnePort;

impl Split<View> for OnePort {
    ghost use Rattle.std.specs.Prelude.{◌+◌, []};
    ghost use Rattle.monitor.specs.Order.{monitor_view, port_view};

    ghost left = { λ v. monitor_view (v.seats + 1) v.taken v.ended };

    ghost right = { λ v. port_view v.seats [] };
}

impl Join<View> for OnePort {
    ghost use Rattle.std.specs.Prelude.{◌++◌, ◌∷◌, []};
    ghost use Rattle.monitor.specs.Order.{monitor_view, no_view};

    ghost both = { λ v w. monitor_view v.seats v.taken (v.ended ++ w.reported ∷ []) };

    ghost spent = { no_view };
}

/// A port reported.
pub(crate) struct Pushed;

impl Outcome<Report, View> for Pushed {
    ghost use Rattle.std.specs.Prelude.{◌≡◌, ◌++◌, ◌∷◌, []};
    ghost use Rattle.monitor.specs.Order.{port_view};

    ghost then = { λ v x w. w ≡ port_view v.seat (v.reported ++ x ∷ []) };
}

/// The monitor took a report.
pub(crate) struct Popped;

impl Outcome<Report, View> for Popped {
    ghost use Rattle.std.specs.Prelude.{◌≡◌, ◌++◌, ◌∷◌, []};
    ghost use Rattle.monitor.specs.Order.{monitor_view};

    ghost then = { λ v x w. w ≡ monitor_view v.seats (v.taken ++ x ∷ []) v.ended };
}

/// What was taken, and then what waits, are all reports of the ports that have ended.
impl Lesson<Report, View> for Popped {
    ghost use Rattle.std.specs.Prelude.{◌++◌};
    ghost use Rattle.monitor.specs.Order.{AreAll};

    ghost fact = { λ v items. AreAll v.seats v.ended (v.taken ++ items) };
}

pub(crate) type ViolationQueue = RuledArrayQueue<Report, View, InOrder>;
