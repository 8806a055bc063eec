//! What is left of a fabric once it was stopped.

ghost use Rattle.std.specs.Prelude.{◌≡◌, map};
ghost use Rattle.thread_totals.specs.Counts.{totals_of};
ghost use Rattle.thread_totals.specs.Standing.{frames_left};

use crate::ring_tallies::RingTallies;
use credit::Limits;
use domain::Domain;
use fab_types::DomainId;
use frame_log::Frame;
use monitor::{QueueReporter, Report};
use std::snapshot::Snapshot;
use switch_output::VettedFrame;
use thread_staff::Remains;
use thread_totals::{Count, Totals};

/// All that is left of a fabric whose workers have ended.
#[derive(Drop)]
pub struct Stopped {
    /// The domains, by rising number.
    pub domains: Vec<Domain>,
    /// The rings of packets on links.
    pub links: RingTallies<Frame>,
    /// The rings of credits.
    pub credits: RingTallies<Limits>,
    /// The rings between the ports of switches.
    pub pairs: RingTallies<VettedFrame>,
    /// All violations that were reported.
    pub list: Vec<Report>,
    /// The ports' ends of the queue of violations, for contracts alone.
    /// They are as they were at the end, by their seats: upstream ports, and then downstream ports.
    pub ports: Vec<Snapshot<QueueReporter>>,
    /// What is left of each worker, by its number in the plan.
    pub remains: Vec<Remains>,
    /// What counts of each domain, in their order, and whether it adds up.
    pub count: Count,
    pub ghost counted: { map (totals_of (frames_left remains.items links.rings.items pairs.rings.items) remains.items) domains.items ≡ count.totals.items },
}

impl Stopped {
    ghost use Rattle.std.specs.Prelude.{◌==◌, option_map};
    ghost use Rattle.std.specs.List.{find};
    ghost use Rattle.port_threads.specs.Left.{frames_of};

    /// The counts of a domain's packets and begins at the stop. None where no domain has that number.
    pub fn totals(&self, number: DomainId) -> Option<Totals>
        ensures { result ≡ option_map (totals_of (frames_of self.now) self.now.remains.items) (find (λ d. d.share.domain == number) self.now.domains.items) }
    {
        for (place, domain) in self.domains.iter().enumerate() {
            if domain.start().domain() == number {
                return Some(self.count.totals[place]);
            }
        }
        None
    }
}
